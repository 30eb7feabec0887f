// One pass over good records that finds the range of each section; and where the instructions end, as read and in module order.
#![tactic(auto)]

ghost use Rattle.std.specs.Prelude.{◌≡◌, ◌+◌, ◌*◌, ◌<◌, ◌≤◌, eqb, length, take, drop, get_or, set, replicate, if◌then◌else◌};
ghost use Rattle.spec.specs.Write.{bytes_of_all, section_of, module_order};
ghost use Rattle.spelled.specs.Placing.{tagged, AllRanged, begins_at};
ghost use Rattle.spelled.specs.Said.{said};

use records::record_at;
use spec::tags;
use spelled::Good;

// How many tags have a range: 1 to 11, and 12 for definitions; 0 is none.
pub const TAGS: usize = 13;

// THE RANGES

// Where the instructions with each tag stand: from the first to before the end.
#[derive(Drop)]
pub struct Ranges {
    pub first: [usize; TAGS],
    pub end: [usize; TAGS],
}

// Where a range begins when one more of its tag comes at an index.
fn begins(tag: u32, i: usize, first: usize, end: usize) -> usize
    ensures { result ≡ begins_at tag i first end }
{
    if (tag == tags::MEMORY_MODEL) | (end == 0) {
        return i;
    }
    first
}

impl Ranges {
    // A tag at an index, noted where it is that of a section or of a definition.
    fn note(&mut self, tag: u32, i: usize)
        requires { i < 18446744073709551615 }
        ensures first { self.new.first ≡ set self.old.first tag (begins_at tag i (get_or self.old.first tag 0) (get_or self.old.end tag 0)) }
        ensures end { self.new.end ≡ set self.old.end tag (i + 1) }
    {
        if tag <= tags::FUNCTION {
            let t = tag as usize;
            self.first[t] = begins(tag, i, self.first[t], self.end[t]);
            self.end[t] = i + 1;
        }
    }
}

// The range of each section and of the definitions, into ranges that are all zero: lent, since what is answered by value is copied by a call
// of the C library, whose stack include/kollafrin.h would have to count.
pub fn survey(good: Good, ranges: &mut Ranges)
    requires { (ranges.old.first ≡ replicate 13 0) × (ranges.old.end ≡ replicate 13 0) }
    ensures { AllRanged (said good.entry) ranges.new.first ranges.new.end }
{
    for i in 0..good.count {
        let f = record_at(good.instructions, i);
        ranges.note(f.tag, i);
    }
}

// WHERE THE INSTRUCTIONS END

// Where the instructions end as read: behind the last.
pub fn end_of(good: Good) -> usize
    ensures { result ≡ 20 + length (bytes_of_all (said good.entry)) }
{
    if good.count == 0 {
        return 20;
    }
    let f = record_at(good.instructions, good.count - 1);
    (f.offset as usize) + 4 * (f.words as usize)
}

// How many bytes an instruction of so many words takes, where it has the tag that is asked for.
fn bytes_tagged(tag: u32, asked: u32, words: u32) -> usize
    ensures { result ≡ (if eqb tag asked then 4 * words else 0) }
{
    if tag == asked {
        return 4 * (words as usize);
    }
    0
}

// How many bytes the instructions with a tag before an index take.
fn bytes_before(good: Good, tag: u32, to: usize) -> usize
    requires to_le_count { to ≤ good.count }
    ensures { result ≡ length (bytes_of_all (tagged tag (take to (said good.entry)))) }
{
    let mut bytes = 0;
    for i in 0..to {
        let f = record_at(good.instructions, i);
        bytes += bytes_tagged(f.tag, tag, f.words);
    }
    bytes
}

// Where module order ends: it has all instructions but the MemoryModels before the last.
pub fn module_end(good: Good, model: usize) -> usize
    requires model_le_count { model ≤ good.count }
    requires count_value { section_of 4 (said good) ≡ tagged 4 (drop model (said good)) }
    ensures { result ≡ 20 + length (bytes_of_all (module_order (said good.entry))) }
{
    let end = end_of(good);
    let dropped = bytes_before(good, tags::MEMORY_MODEL, model);
    end - dropped
}
