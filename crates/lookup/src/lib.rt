// The look-up of a name, of opcodes, enumerants, mask bits and extended instructions, in one run of bytes with an index.
#![tactic(auto)]

ghost use Rattle.std.specs.Prelude.{◌≡◌, ◌<◌, length};
ghost use Rattle.spec.specs.Names.{name_of};
ghost use Rattle.lookup.specs.Run.{place_in, Indexed};
ghost use Rattle.lookup.specs.Find.{text_found, Inside};

// The sets that are no operand kinds: opcodes, embedded ones too, and the extended instructions of GLSL.std.450 and OpenCL.std.
pub const OPCODES: u8 = 0;

pub const GLSL: u8 = 46;

pub const OPENCL: u8 = 47;

// The index begins with a shift for each set; slots follow, each with the place of a name in the run.
const SETS: usize = 48;

const SLOTS: usize = 3021;

// A byte, as wide as a place.
fn wide_byte(x: u8) -> usize
    ensures { (result ≡ x) × (result < 256) }
{
    x as usize
}

// The names in one run of bytes, and an index of it.
#[derive(Clone, Copy)]
pub struct Names<'a> {
    pub run: &'a [u8],
    pub index: &'a [u16],
    ghost indexed: { Indexed run.now index.now },
}

impl<'a> Names<'a> {
    // The names of a run and its index.
    pub fn new(run: &'a [u8], index: &'a [u16]) -> Names<'a>
        requires { Indexed run.now index.now }
        ensures { (result.run.now ≡ run.now) × (result.index.now ≡ index.now) }
    {
        Names { run, index }
    }

    // The place in the run of the one name that can be that of a number in a set.
    fn place_of(self, set: u8, number: u32) -> usize
        ensures { (result ≡ place_in self.entry.index.now set number) × (result < 65536) }
    {
        let shift = self.index[set as usize] as usize;
        self.index[SETS + (shift + number as usize) % SLOTS] as usize
    }

    // Where the text of a number in a set stands: there can be one place alone, and what stands there is tested before it is believed.
    pub fn find(self, set: u8, number: u32) -> Option<(usize, usize)>
        ensures result_value { text_found self.entry.run.now result ≡ name_of set number }
        ensures inside { Inside result (length self.entry.run.now) }
    {
        let at = self.place_of(set, number);
        let there = words::word_at(self.run, at + 1);
        if self.run[at] == set {
            if there == number {
                let start = at + 6;
                let end = start + wide_byte(self.run[at + 5]);
                return Some((start, end));
            }
        }
        None
    }
}
