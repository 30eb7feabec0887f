// The instructions of good stores: as read, each at its offset; or in module order, each section from the range that its tag stands in.
#![tactic(auto)]

ghost use Rattle.std.specs.Prelude.{◌≡◌, ◌++◌, ◌+◌, ◌<◌, ◌≤◌, length, drop};
ghost use Rattle.std.proofs.lemmas.List.Edits.{sets};
ghost use Rattle.spec.specs.Write.{bytes_of_all, section_of, sections, parameters_in, functions, module_order};
ghost use Rattle.spelled.specs.Placing.{one_at, tagged, function_part, Ranged, AllRanged, Room, Wrote};
ghost use Rattle.spelled.specs.Said.{said};

use ranges::Ranges;
use records::record_at;
use spec::tags;
use spelled::{Good, put_instruction};

// How many bytes the header takes.
const HEADER: usize = 20;

// ONE INSTRUCTION

// The instruction of an index, at a place: the place after it.
fn put_one(good: Good, i: usize, out: &mut [u8], at: usize) -> usize
    requires i_lt_count { i < good.count }
    requires room { Room out.old at (one_at (said good) i) }
    ensures { Wrote out.old at (one_at (said good.entry) i) result out.new }
{
    let f = record_at(good.instructions, i);
    put_instruction(good.log, good.strings, f, &mut out[at..]);
    at + 4 * (f.words as usize)
}

// PARSE ORDER

// All instructions, as read: each at its own offset.
pub fn put_read(good: Good, out: &mut [u8])
    requires { 20 + length (bytes_of_all (said good)) ≤ length out.old }
    ensures { out.new ≡ sets out.old 20 (bytes_of_all (said good.entry)) }
{
    for i in 0..good.count {
        let f = record_at(good.instructions, i);
        let at = f.offset as usize;
        put_instruction(good.log, good.strings, f, &mut out[at..]);
    }
}

// MODULE ORDER

// The instruction of an index, where it has the tag.
fn put_tagged(good: Good, i: usize, tag: u32, out: &mut [u8], at: usize) -> usize
    requires i_lt_count { i < good.count }
    requires room { Room out.old at (tagged tag (one_at (said good) i)) }
    ensures { Wrote out.old at (tagged tag (one_at (said good.entry) i)) result out.new }
{
    let f = record_at(good.instructions, i);
    if f.tag == tag {
        return put_one(good, i, out, at);
    }
    at
}

// A section: the instructions with its tag, from the range that they stand in.
fn put_section(
    good: Good,
    tag: u32,
    first: usize,
    end: usize,
    out: &mut [u8],
    start: usize,
) -> usize
    requires ranged { Ranged (said good) tag first end }
    requires room { Room out.old start (section_of tag (said good)) }
    ensures { Wrote out.old start (section_of tag (said good.entry)) result out.new }
{
    let mut at = start;
    for i in first..end {
        at = put_tagged(good, i, tag, out, at);
    }
    at
}

// Sections 1 to 11.
fn put_sections(good: Good, ranges: &Ranges, out: &mut [u8], start: usize) -> usize
    requires all_ranged { AllRanged (said good) ranges.now.first ranges.now.end }
    requires room { Room out.old start (sections (said good)) }
    ensures { Wrote out.old start (sections (said good.entry)) result out.new }
{
    let mut at = start;
    for tag in 1..=tags::LAST_SECTION {
        let t = tag as usize;
        at = put_section(good, tag, ranges.first[t], ranges.end[t], out, at);
    }
    at
}

// The parameters from an index on, up to the next end of a function.
fn put_parameters(good: Good, first: usize, out: &mut [u8], start: usize) -> usize
    requires { Room out.old start (parameters_in (drop first (said good))) }
    ensures { Wrote out.old start (parameters_in (drop first (said good.entry))) result out.new }
{
    let mut at = start;
    for i in first..good.count {
        let f = record_at(good.instructions, i);
        if f.tag == tags::FUNCTION_END {
            return at;
        }
        at = put_tagged(good, i, tags::PARAMETER, out, at);
    }
    at
}

// A definition.
fn put_definition(good: Good, i: usize, out: &mut [u8], at: usize) -> usize
    requires i_lt_count { i < good.count }
    requires room { Room out.old at (one_at (said good) i ++ parameters_in (drop (i + 1) (said good))) }
    ensures { Wrote out.old at (one_at (said good.entry) i ++ parameters_in (drop (i + 1) (said good.entry))) result out.new }
{
    let next = put_one(good, i, out, at);
    put_parameters(good, i + 1, out, next)
}

// What the functions have at an index: a definition with its parameters, no parameter by itself, all else as it comes.
fn put_part(good: Good, i: usize, out: &mut [u8], at: usize) -> usize
    requires i_lt_count { i < good.count }
    requires room { Room out.old at (function_part (drop i (said good))) }
    ensures { Wrote out.old at (function_part (drop i (said good.entry))) result out.new }
{
    let f = record_at(good.instructions, i);
    if f.tag == tags::FUNCTION {
        return put_definition(good, i, out, at);
    }
    if tags::LABEL <= f.tag {
        return put_one(good, i, out, at);
    }
    at
}

// The functions, from the first definition on.
fn put_functions(good: Good, first: usize, out: &mut [u8], start: usize) -> usize
    requires count_value { functions (said good) ≡ functions (drop first (said good)) }
    requires room { Room out.old start (functions (said good)) }
    ensures { Wrote out.old start (functions (said good.entry)) result out.new }
{
    let mut at = start;
    for i in first..good.count {
        at = put_part(good, i, out, at);
    }
    at
}

// Sections, then functions, behind the header.
pub fn put_module(good: Good, ranges: &Ranges, out: &mut [u8])
    requires all_ranged { AllRanged (said good) ranges.now.first ranges.now.end }
    requires count_in_bounds { 20 + length (bytes_of_all (module_order (said good))) ≤ length out.old }
    ensures { out.new ≡ sets out.old 20 (bytes_of_all (module_order (said good.entry))) }
{
    let at = put_sections(good, ranges, out, HEADER);
    let definition = ranges.first[tags::FUNCTION as usize];
    put_functions(good, definition, out, at);
}
