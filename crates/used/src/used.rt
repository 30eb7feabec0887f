// The frame of an instruction, what it has come to so far, and one record more.
ghost use Rattle.std.specs.Prelude.{◌≡◌, ◌+◌, ◌*◌, ◌≤◌, length};
ghost use Rattle.std.proofs.Math.Seq.{slice};
ghost use Rattle.spec.specs.Plain.{first_break};
ghost use Rattle.spec.specs.Reader.{refusal};
ghost use Rattle.operand.specs.Parts.{parts, Fits};
ghost use Rattle.operand.specs.Log.{record_of, record_length, Laid};
ghost use Rattle.used.specs.Parse.{FirstFits, selector_of, Pushed, Copied};
ghost use Rattle.used.specs.Fresh.{unused, with_result};

use decoder::{Answer, Decoder};
use operand::Parts;
use spec::{Refusal, kinds};

// An instruction: where it begins, its words, its opcode, and where its row's operands start in the grammar.
#[derive(Clone, Copy)]
pub struct Frame {
    pub at: usize,
    pub words: u16,
    pub opcode: u16,
    pub place: usize,
}

// The results and the operands of an instruction so far: how many operands, kind and value of the first and of the second, how much of
// the operand log and of the string bytes is in use, how many string bytes there are before those of the store, and the first offset
// that breaks an operand, or 0. An operand that is missing is of kind 0.
#[derive(Clone, Copy)]
pub struct Used {
    pub rtype: Option<u32>,
    pub rid: Option<u32>,
    pub operands: usize,
    pub kind1: u8,
    pub value1: u64,
    pub kind2: u8,
    pub value2: u64,
    pub log: usize,
    pub strings: usize,
    pub base: usize,
    pub breaks: usize,
}

// What is in use where an instruction begins, from these places of log and strings on, with so many string bytes before those of the
// store, where this is the first offset that breaks what was read before it, or 0.
#[tactic(auto, unfolding(crate::specs::Fresh::unused))]
pub fn unused(log: usize, strings: usize, base: usize, breaks: usize) -> Used
    ensures { result ≡ unused «log» «strings» base breaks }
{
    Used {
        rtype: None,
        rid: None,
        operands: 0,
        kind1: 0,
        value1: 0,
        kind2: 0,
        value2: 0,
        log,
        strings,
        base,
        breaks,
    }
}

// The first of two offsets that break, 0 for none.
pub fn first_break(a: usize, b: usize) -> usize
    ensures { result ≡ first_break a b }
{
    if a == 0 {
        return b;
    }
    a
}

// A refusal without a value.
pub fn refused(number: u32, place: usize, d: Decoder) -> Answer<Used>
    ensures { result ≡ Err (refusal number place 0, d) }
{
    let refusal = Refusal {
        number,
        place,
        value: 0,
    };
    Err((refusal, d))
}

// A result more: the result type for 46, else the result id.
pub fn with_result(u: Used, kind: u8, id: Option<u32>) -> Used
    ensures { result ≡ with_result kind id u }
{
    if kind == kinds::RESULT_TYPE {
        return Used { rtype: id, ..u };
    }
    Used { rid: id, ..u }
}

// The id that the first operand is, where it is one.
pub fn selector_of(u: Used) -> Option<u32>
    requires { FirstFits u }
    ensures { result ≡ selector_of u }
{
    if u.operands == 0 {
        return None;
    }
    if u.kind1 == kinds::ID_REF {
        return Some(u.value1 as u32);
    }
    None
}

// One operand more, whose record ends there in the log.
fn noted(u: Used, kind: u8, value: u64, log: usize) -> Used
    requires { (u.operands ≤ 1000000000) × Fits kind value × (log ≡ u.log + record_length (parts kind value)) }
    ensures { Pushed kind value u result × (result.breaks ≡ u.breaks) }
{
    let operands = u.operands + 1;
    if u.operands == 0 {
        return Used {
            operands,
            kind1: kind,
            value1: value,
            log,
            ..u
        };
    }
    if u.operands == 1 {
        return Used {
            operands,
            kind2: kind,
            value2: value,
            log,
            ..u
        };
    }
    Used { operands, log, ..u }
}

// A record of a kind and a value, kept where it fits.
pub fn push(log: &mut [u8], kind: u8, value: u64, u: Used) -> Used
    requires { (u.log ≤ 1000000000) × (u.operands ≤ 1000000000) × Fits kind value }
    ensures pushed { Pushed kind value u result }
    ensures laid { Laid log.old u.log (record_of (parts kind value)) log.new }
    ensures breaks_value { result.breaks ≡ u.breaks }
{
    let at = u.log;
    let next = operand::keep_record(log, at, Parts { kind, value });
    noted(u, kind, value, next)
}

// A string's record, and its bytes, those of `s` from a place on: each kept where it fits; and what breaks its padding.
pub fn push_text(
    log: &mut [u8],
    strings: &mut [u8],
    s: &[u8],
    from: usize,
    size: usize,
    breaks: usize,
    u: Used,
) -> Used
    requires log_bound { (u.log ≤ 1000000000) × (u.operands ≤ 1000000000) × (u.strings ≤ 1000000000) × (size ≤ 1000000000) × (u.base ≤ 1000000000) }
    requires size_in_bounds { from + size ≤ length s.now }
    ensures copied { Copied size breaks u result }
    ensures laid { Laid log.old u.log (record_of (parts 40 (u.base + u.strings + 4294967296 * size))) log.new }
    ensures laid_2 { Laid strings.old u.strings (slice from (from + size) s.now) strings.new }
{
    let at = (u.base + u.strings) as u64;
    let n = push(log, kinds::STRING, at + 4294967296 * (size as u64), u);
    operand::keep_bytes(strings, u.strings, &s[from..from + size]);
    Used {
        strings: u.strings + size,
        breaks: first_break(u.breaks, breaks),
        ..n
    }
}
