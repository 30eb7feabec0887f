// Opcode kinds, as reflect.rs and loader.rs tell them, and the layout: where an instruction goes, or why it is refused.
#![tactic(auto)]

ghost use Rattle.std.specs.Prelude.{◌≡◌, ◌≤◌, ◌<◌};
ghost use Rattle.reflect.specs.Column.{code_of, column_of, layout_table, kind_table};
ghost use Rattle.spec.specs.Layout.{opcode_kind, layout_of};
ghost use Rattle.spec.specs.Types.{is_type};

use spec::State::{Block, Function, Outside};
use spec::{Cell, State};

// The cells of the layout table are numbers: four times a tag and the state after it, or four times the number of a refusal and REFUSED.
const OUTSIDE: u8 = 0;

const FUNCTION: u8 = 1;

const BLOCK: u8 = 2;

const REFUSED: u8 = 3;

// "A fixed table of nineteen kinds against three states": outside, in a function, in a block.
const LAYOUT: [[u8; 3]; 19] = [
    [4 * 1 + OUTSIDE, 4 * 1 + FUNCTION, 4 * 1 + BLOCK], // 1 Capability
    [4 * 2 + OUTSIDE, 4 * 2 + FUNCTION, 4 * 2 + BLOCK], // 2 Extension
    [4 * 3 + OUTSIDE, 4 * 3 + FUNCTION, 4 * 3 + BLOCK], // 3 ExtInstImport
    [4 * 4 + OUTSIDE, 4 * 4 + FUNCTION, 4 * 4 + BLOCK], // 4 MemoryModel
    [4 * 5 + OUTSIDE, 4 * 5 + FUNCTION, 4 * 5 + BLOCK], // 5 EntryPoint
    [4 * 6 + OUTSIDE, 4 * 6 + FUNCTION, 4 * 6 + BLOCK], // 6 ExecutionMode
    [4 * 7 + OUTSIDE, 4 * 7 + FUNCTION, 4 * 7 + BLOCK], // 7 String, Source, SourceExtension, SourceContinued
    [4 * 8 + OUTSIDE, 4 * 8 + FUNCTION, 4 * 8 + BLOCK], // 8 Name, MemberName
    [4 * 9 + OUTSIDE, 4 * 9 + FUNCTION, 4 * 9 + BLOCK], // 9 ModuleProcessed
    [4 * 10 + OUTSIDE, 4 * 10 + FUNCTION, 4 * 10 + BLOCK], // 10 annotations
    [4 * 11 + OUTSIDE, 4 * 11 + FUNCTION, 4 * 11 + BLOCK], // 11 types and constants
    [4 * 11 + OUTSIDE, 4 * 11 + FUNCTION, 4 * 15 + BLOCK], // 12 Line, NoLine
    [4 * 11 + OUTSIDE, 4 * 23 + REFUSED, 4 * 15 + BLOCK], // 13 Variable, Undef
    [4 * 12 + FUNCTION, 4 * 15 + REFUSED, 4 * 15 + REFUSED], // 14 Function
    [4 * 18 + REFUSED, 4 * 13 + FUNCTION, 4 * 13 + BLOCK], // 15 FunctionParameter
    [4 * 19 + REFUSED, 4 * 14 + BLOCK, 4 * 20 + REFUSED], // 16 Label
    [4 * 22 + REFUSED, 4 * 22 + REFUSED, 4 * 15 + FUNCTION], // 17 terminators
    [4 * 17 + REFUSED, 4 * 16 + OUTSIDE, 4 * 21 + REFUSED], // 18 FunctionEnd
    [4 * 23 + REFUSED, 4 * 23 + REFUSED, 4 * 15 + BLOCK], // 19 other
];

// The kinds of the opcodes below 256, sixteen to a line.
const KINDS: [u8; 256] = *b"\
\x13\x0d\x07\x07\x07\x08\x08\x07\x0c\x13\x02\x03\x13\x13\x04\x05\
\x06\x01\x13\x0b\x0b\x0b\x0b\x0b\x0b\x0b\x0b\x0b\x0b\x0b\x0b\x0b\
\x0b\x0b\x0b\x0b\x0b\x0b\x0b\x0b\x13\x0b\x0b\x0b\x0b\x0b\x0b\x13\
\x0b\x0b\x0b\x0b\x0b\x13\x0e\x0f\x12\x13\x13\x0d\x13\x13\x13\x13\
\x13\x13\x13\x13\x13\x13\x13\x0a\x0a\x0a\x0a\x0a\x13\x13\x13\x13\
\x13\x13\x13\x13\x13\x13\x13\x13\x13\x13\x13\x13\x13\x13\x13\x13\
\x13\x13\x13\x13\x13\x13\x13\x13\x13\x13\x13\x13\x13\x13\x13\x13\
\x13\x13\x13\x13\x13\x13\x13\x13\x13\x13\x13\x13\x13\x13\x13\x13\
\x13\x13\x13\x13\x13\x13\x13\x13\x13\x13\x13\x13\x13\x13\x13\x13\
\x13\x13\x13\x13\x13\x13\x13\x13\x13\x13\x13\x13\x13\x13\x13\x13\
\x13\x13\x13\x13\x13\x13\x13\x13\x13\x13\x13\x13\x13\x13\x13\x13\
\x13\x13\x13\x13\x13\x13\x13\x13\x13\x13\x13\x13\x13\x13\x13\x13\
\x13\x13\x13\x13\x13\x13\x13\x13\x13\x13\x13\x13\x13\x13\x13\x13\
\x13\x13\x13\x13\x13\x13\x13\x13\x13\x13\x13\x13\x13\x13\x13\x13\
\x13\x13\x13\x13\x13\x13\x13\x13\x13\x13\x13\x13\x13\x13\x13\x13\
\x13\x13\x13\x13\x13\x13\x13\x13\x10\x11\x11\x11\x11\x11\x11\x11";

// The kind of an opcode, 1 to 19: the number of its line in the layout table.
pub fn opcode_kind(opcode: u16) -> u8
    ensures { result ≡ opcode_kind opcode }
{
    match opcode {
        17 => 1,
        10 => 2,
        11 => 3,
        14 => 4,
        15 => 5,
        16 => 6,
        2 | 3 | 4 | 7 => 7,
        5 | 6 => 8,
        330 => 9,
        71..=75 | 5632 | 5633 => 10,
        19..=39 | 41..=46 | 48..=52 | 4472 | 5341 => 11,
        8 | 317 => 12,
        1 | 59 => 13,
        54 => 14,
        55 => 15,
        248 => 16,
        249..=255 | 4416 | 4448 | 4449 => 17,
        56 => 18,
        _ => 19,
    }
}

// The kinds of the opcodes below 256.
pub fn kinds() -> [u8; 256]
    ensures { result ≡ kind_table }
{
    KINDS
}

// Does the opcode declare a type, as type tracking asks: the layout has a list of its own.
pub fn is_type(opcode: u16) -> bool
    ensures { result ≡ is_type opcode }
{
    matches!(opcode, 19..=39 | 4472 | 5341)
}

// The column of a state in the layout table.
fn column(s: State) -> usize
    ensures { (result ≡ column_of s) × (result < 3) }
{
    match s {
        Outside => 0,
        Function => 1,
        Block => 2,
    }
}

// The layout table.
pub fn table() -> [[u8; 3]; 19]
    ensures { result ≡ layout_table }
{
    LAYOUT
}

// What the number of a cell says.
fn cell(code: u8) -> Cell
    ensures { code_of result ≡ code }
{
    let value = code / 4;
    match code % 4 {
        0 => Ok((value, Outside)),
        1 => Ok((value, Function)),
        2 => Ok((value, Block)),
        _ => Err(value),
    }
}

// The kinds and the table, built once for a load or a check, and lent to whoever asks where an instruction goes.
#[derive(Drop)]
pub struct Layout {
    kinds: [u8; 256],
    cells: [[u8; 3]; 19],
    ghost kinds_known: { kinds ≡ kind_table },
    ghost cells_known: { cells ≡ layout_table },
}

impl Layout {
    pub fn new() -> Layout {
        Layout {
            kinds: kinds(),
            cells: table(),
        }
    }

    // The kind of an opcode, from the kinds where it is one of theirs.
    fn kind(&self, opcode: u16) -> u8
        ensures { result ≡ opcode_kind opcode }
    {
        if opcode < 256 {
            return self.kinds[opcode as usize];
        }
        opcode_kind(opcode)
    }

    // What the layout says of an opcode in a state: the tag and the state after it, or the number of a refusal.
    pub fn place(&self, opcode: u16, s: State) -> Cell
        ensures { result ≡ layout_of opcode s }
    {
        let line = (self.kind(opcode) - 1) as usize;
        cell(self.cells[line][column(s)])
    }
}
