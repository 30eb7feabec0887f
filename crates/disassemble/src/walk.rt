// Module order, an index at a time.
ghost use Rattle.std.specs.Prelude.{◌≡◌, List, [], ◌++◌, ◌+◌, ◌-◌, ◌<◌, ◌≤◌, drop};
ghost use Rattle.spec.specs.Records.{Placed};
ghost use Rattle.spec.specs.Write.{functions};
ghost use Rattle.spelled.specs.Placing.{one_at, tagged};
ghost use Rattle.spelled.specs.Said.{said};
ghost use Rattle.spelled.proofs.Orders.{sections_from};
ghost use Rattle.disassemble.specs.Listed.{last_tagged, section_after, InSection, sections_left, parameters_left, left_of, Follows};

use records::record_at;
use spec::tags;
use spelled::Good;

// Where module order is: in a section, from an index on; in the functions, from an index on (tag 12); or in the parameters of one, from
// an index on (tag 13), whose definition goes on at another.
#[derive(Clone, Copy)]
pub struct Cursor {
    pub tag: u32,
    pub at: usize,
    pub back: usize,
}

// The first index from one on whose record has a tag, or the count.
fn first_tagged(good: Good, start: usize, tag: u32) -> usize
    ensures { (result < good.entry.count → tagged tag (drop start (said good.entry)) ≡ one_at (said good.entry) result ++ tagged tag (drop (result + 1) (said good.entry))) × (good.entry.count ≤ result → tagged tag (drop start (said good.entry)) ≡ []) }
{
    for i in start..good.count {
        if record_at(good.instructions, i).tag == tag {
            return i;
        }
    }
    good.count
}

// The last index whose record has a tag, or the count.
fn last_tagged(good: Good, tag: u32) -> usize
    ensures { (result < good.entry.count → last_tagged tag (said good.entry) ≡ one_at (said good.entry) result) × (good.entry.count ≤ result → last_tagged tag (said good.entry) ≡ []) }
{
    for i in (0..good.count).rev() {
        if record_at(good.instructions, i).tag == tag {
            return i;
        }
    }
    good.count
}

// The next of the functions from an index on: no section's, no parameter.
fn next_function(good: Good, start: usize) -> Option<(usize, Cursor)>
    ensures { Follows (said good.entry) good.entry.count (functions (drop start (said good.entry))) result }
{
    for i in start..good.count {
        let f = record_at(good.instructions, i);
        if f.tag == tags::FUNCTION {
            return Some((
                i,
                Cursor {
                    tag: tags::PARAMETER,
                    at: i + 1,
                    back: i + 1,
                },
            ));
        }
        if tags::LABEL <= f.tag {
            return Some((
                i,
                Cursor {
                    tag: tags::FUNCTION,
                    at: i + 1,
                    back: 0,
                },
            ));
        }
    }
    None
}

// The next parameter from an index on, up to the next end of a function; else the next of the functions from another on.
fn next_parameter(good: Good, start: usize, back: usize) -> Option<(usize, Cursor)>
    ensures { Follows (said good.entry) good.entry.count (parameters_left start back (said good.entry)) result }
{
    for i in start..good.count {
        let f = record_at(good.instructions, i);
        if f.tag == tags::FUNCTION_END {
            return next_function(good, back);
        }
        if f.tag == tags::PARAMETER {
            return Some((
                i,
                Cursor {
                    tag: tags::PARAMETER,
                    at: i + 1,
                    back,
                },
            ));
        }
    }
    next_function(good, back)
}

// The index in a section from one on, of MemoryModel the last alone.
fn in_section(good: Good, start: usize, tag: u32) -> usize
    ensures { InSection (said good.entry) good.entry.count tag start result }
{
    if tag == tags::MEMORY_MODEL {
        return last_tagged(good, tag);
    }
    first_tagged(good, start, tag)
}

// The section after the one of an index, and the index to go on from.
fn section_after(i: usize, tag: u32) -> Cursor
    requires { (i < 18446744073709551615) × (tag < 12) }
    ensures { (is : List Placed) → left_of result is ≡ section_after tag i is ++ (sections_from (12 - (tag + 1)) (tag + 1) is ++ functions is) }
{
    if tag == tags::MEMORY_MODEL {
        return Cursor {
            tag: 5,
            at: 0,
            back: 0,
        };
    }
    Cursor {
        tag,
        at: i + 1,
        back: 0,
    }
}

// The next in the sections from one on, or the first of the functions.
fn next_section(good: Good, start: usize, first: u32) -> Option<(usize, Cursor)>
    requires { first < 12 }
    ensures { Follows (said good.entry) good.entry.count (sections_left first start (said good.entry)) result }
{
    let mut at = start;
    for tag in first..tags::FUNCTION {
        let i = in_section(good, at, tag);
        if i < good.count {
            return Some((i, section_after(i, tag)));
        }
        at = 0;
    }
    next_function(good, 0)
}

// The next index in module order, and where it is after it; or nothing at the end.
pub fn advance(good: Good, c: Cursor) -> Option<(usize, Cursor)>
    ensures { Follows (said good.entry) good.entry.count (left_of c (said good.entry)) result }
{
    if c.tag < tags::FUNCTION {
        return next_section(good, c.at, c.tag);
    }
    if c.tag == tags::FUNCTION {
        return next_function(good, c.at);
    }
    next_parameter(good, c.at, c.back)
}
