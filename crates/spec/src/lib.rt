// The answers that several crates share, and the names of kinds, opcodes, tags and refusals. Declarations alone: what they mean is said in specs/.
#![tactic(auto)]

pub mod kinds;
pub mod opcodes;
pub mod refusals;
pub mod tags;

// A refusal: its number in the table of refusals (0 for none), its place and its value.
#[derive(Clone, Copy)]
pub struct Refusal {
    pub number: u32,
    pub place: usize,
    pub value: u32,
}

// The five header words, and a refusal's number and place; the words are 0 where the number is not. No Result: the definition of a load and
// the theorems on how it begins (crates/demands, `ModuleRun`) take the words of a header that is refused, too.
#[derive(Clone, Copy)]
pub struct HeaderRead {
    pub refusal: Refusal,
    pub words: [u32; 5],
}

// Outside functions; in a function, outside its blocks; in a block.
#[derive(Clone, Copy)]
pub enum State {
    Outside,
    Function,
    Block,
}

// A cell of the layout table: the tag and the state after it, or the number of a refusal.
pub type Cell = Result<(u8, State), u8>;

// The fields of an instruction record: its first eight words.
#[derive(Clone, Copy)]
pub struct Fields {
    pub head: u32,
    pub tag: u32,
    pub offset: u32,
    pub rtype: u32,
    pub rid: u32,
    pub start: u32,
    pub count: u32,
    pub words: u32,
}

// The numbers of an instruction record, its last two words: its function, and its block in that; both from 1, 0 for none.
#[derive(Clone, Copy, PartialEq, Eq)]
pub struct Numbers {
    pub function: u32,
    pub block: u32,
}

// How many instruction records, log bytes, string bytes and type entries: those kept, or those that there is room for.
#[derive(Clone, Copy)]
pub struct Counts {
    pub instructions: usize,
    pub log: usize,
    pub strings: usize,
    pub types: usize,
}

// The answers, each with its number beside its values, and no Result: the calls for C lay them into words so.

// What a load answers: the number (0 accepted), its byte offset, its instruction index, its value; the header words; the counts; whether
// the module is plain, and the lowest byte offset that breaks it, or 0.
#[derive(Clone, Copy)]
pub struct Loaded {
    pub number: u32,
    pub offset: usize,
    pub index: usize,
    pub value: u32,
    pub header: [u32; 5],
    pub counts: Counts,
    pub plain: bool,
    pub breaks: usize,
}

// What a writer answers: the number (0 written), the index of the first bad record or 0, the bytes written.
#[derive(Clone, Copy)]
pub struct Written {
    pub number: u32,
    pub index: usize,
    pub bytes: usize,
}

// What turning a book answers: the number (0 turned), the index of the first record that is at fault or 0, the records written.
#[derive(Clone, Copy)]
pub struct Turned {
    pub number: u32,
    pub index: usize,
    pub records: usize,
}

// Whether a module is standing: the number (0 or 30), the index of the first bad record or 0, yes or no.
#[derive(Clone, Copy)]
pub struct Stands {
    pub number: u32,
    pub index: usize,
    pub yes: bool,
}

// What joining two grammars answers: the number (0 joined), its place and value, the bytes written.
#[derive(Clone, Copy)]
pub struct Joined {
    pub number: u32,
    pub place: u32,
    pub value: u32,
    pub bytes: usize,
}
