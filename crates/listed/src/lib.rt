// The listing of a module: a line for its version and bound, one for each instruction kept, and how the load ended.
#![tactic(auto)]

ghost use Rattle.std.specs.Prelude.{◌≡◌, ◌++◌, ◌+◌, ◌*◌, ◌≤◌, length, eqb};
ghost use Rattle.spec.specs.Base.{every};
ghost use Rattle.spec.specs.Records.{record_size};
ghost use Rattle.spec.specs.Load.{laid_over};
ghost use Rattle.spec.specs.Listing.{version_line, module_line, accepted_line, refused_line, last_line};
ghost use Rattle.spec.specs.Listing.{listing as listing_of};
ghost use Rattle.texts.specs.Wrote.{Wrote};
ghost use Rattle.listed.specs.Lines.{number_then, record_line, lines_of};

use spec::{Fields, Loaded, refusals};

// How many bytes a listing has at most: 76 in the module line, 105 in each of 1,019 record lines, 71 in the last.
pub const ROOM: usize = 107142;

// How many words 4,096 bytes have after the header: the stores lent to the load suffice for so many.
const MOST: usize = 1019;

// PIECES: each puts its text into the buffer from a place on, and answers where the text ends

// A text.
fn put_text(out: &mut [u8], at: usize, s: &[u8]) -> usize
    requires { at + length s.now ≤ length out.old }
    ensures { Wrote out.old out.new at result s.now }
{
    words::put_bytes(out, at, s);
    at + s.len()
}

// A number in decimal, and a byte after it.
fn number(out: &mut [u8], at: usize, v: u64, after: u8) -> usize
    requires { at + 21 ≤ length out.old }
    ensures { Wrote out.old out.new at result (number_then v after) }
{
    let end = texts::decimal(out, at, v);
    texts::put(out, end, after)
}

// THE MODULE LINE

// Whether the header words are all 0.
fn all_zero(h: [u32; 5]) -> bool
    ensures { result ≡ every (λ w. eqb w 0) h }
{
    (h[0] == 0) & (h[1] == 0) & (h[2] == 0) & (h[3] == 0) & (h[4] == 0)
}

// "module M.m bound B".
fn version_line(out: &mut [u8], at: usize, version: u32, bound: u32) -> usize
    requires { at + 76 ≤ length out.old }
    ensures { Wrote out.old out.new at result (version_line version bound) }
{
    let a = put_text(out, at, b"module ");
    let b = number(out, a, (version / 65536 % 256) as u64, b'.');
    let c = texts::decimal(out, b, (version / 256 % 256) as u64);
    let d = put_text(out, c, b" bound ");
    number(out, d, bound as u64, b'\n')
}

// The module line, left out where the header words are 0.
fn module_line(out: &mut [u8], at: usize, h: [u32; 5]) -> usize
    requires { at + 76 ≤ length out.old }
    ensures { Wrote out.old out.new at result (module_line h) }
{
    if all_zero(h) {
        return at;
    }
    version_line(out, at, h[1], h[3])
}

// THE RECORD LINES

// Index, offset, tag, opcode and words of a record.
fn record_line(out: &mut [u8], at: usize, index: usize, f: Fields) -> usize
    requires { at + 105 ≤ length out.old }
    ensures { Wrote out.old out.new at result (record_line index f) }
{
    let a = number(out, at, index as u64, b' ');
    let b = number(out, a, f.offset as u64, b' ');
    let c = number(out, b, f.tag as u64, b' ');
    let d = number(out, c, (f.head % 65536) as u64, b' ');
    number(out, d, f.words as u64, b'\n')
}

// A line for each of the first `count` records.
fn record_lines(out: &mut [u8], at: usize, instructions: &[u32], count: usize) -> usize
    requires { (count ≤ 1019) × (at + 105 * count ≤ length out.old) × (record_size * count ≤ length instructions.now) }
    ensures { Wrote out.old out.new at result (lines_of 1 count instructions.now) }
{
    let mut end = at;
    for i in 0..count {
        let f = records::record_at(instructions, i);
        end = record_line(out, end, i + 1, f);
    }
    end
}

// THE LAST LINE

// "accepted N".
fn accepted_line(out: &mut [u8], at: usize, n: usize) -> usize
    requires { at + 71 ≤ length out.old }
    ensures { Wrote out.old out.new at result (accepted_line n) }
{
    let a = put_text(out, at, b"accepted ");
    number(out, a, n as u64, b'\n')
}

// "refused", number, offset, index.
fn refused_line(out: &mut [u8], at: usize, n: u32, offset: usize, index: usize) -> usize
    requires { at + 71 ≤ length out.old }
    ensures { Wrote out.old out.new at result (refused_line n offset index) }
{
    let a = put_text(out, at, b"refused ");
    let b = number(out, a, n as u64, b' ');
    let c = number(out, b, offset as u64, b' ');
    number(out, c, index as u64, b'\n')
}

// How the load ended.
fn last_line(out: &mut [u8], at: usize, l: Loaded) -> usize
    requires { at + 71 ≤ length out.old }
    ensures { Wrote out.old out.new at result (last_line l) }
{
    if l.number == refusals::ACCEPTED {
        return accepted_line(out, at, l.counts.instructions);
    }
    refused_line(out, at, l.number, l.offset, l.index)
}

// THE WHOLE

// The text of a load, by its answer and its instruction records.
fn load_text(out: &mut [u8], instructions: &[u32], l: Loaded) -> usize
    requires { (l.counts.instructions ≤ 1019) × (107142 ≤ length out.old) × (record_size * l.counts.instructions ≤ length instructions.now) }
    ensures { Wrote out.old out.new 0 result (module_line l.header ++ lines_of 1 l.counts.instructions instructions.now ++ last_line l) }
{
    let h = l.header;
    let a = module_line(out, 0, h);
    let b = record_lines(out, a, instructions, l.counts.instructions);
    last_line(out, b, l)
}

// The listing of a module of at most 4,096 bytes, or "too long": its length, and its text at the start of the buffer.
pub fn listing(module: &[u8], out: &mut [u8]) -> usize
    requires { 107142 ≤ length out.old }
    ensures value { result ≡ length (listing_of «module».now) }
    ensures out_after { out.new ≡ laid_over out.old (listing_of «module».now) }
{
    if 4096 < module.len() {
        return put_text(out, 0, b"too long\n");
    }
    let mut instructions = [0u32; records::RECORD * MOST];
    let mut log = [0u8; 9 * MOST];
    let mut strings = [0u8; 4 * MOST];
    let mut types = [0u32; 3 * MOST];
    let l = loader::load_builtin(
        module,
        &mut instructions,
        &mut log,
        &mut strings,
        &mut types,
    );
    load_text(out, &instructions, l)
}
