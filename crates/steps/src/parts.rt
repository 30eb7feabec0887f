// The parts of a load: where it stands, what it answers, and the fields of a record.
ghost use Rattle.std.specs.Prelude.{◌≡◌, ◌≤◌, ◌<◌, eqb, if◌then◌else◌};
ghost use Rattle.spec.specs.Plain.{first_break, tail_break};
ghost use Rattle.spec.specs.Records.{presence};
ghost use Rattle.spec.specs.Layout.{end_number};
ghost use Rattle.spec.specs.Load.{nothing};
ghost use Rattle.steps.specs.Steps.{said_at, fields_by, Bounded, Moderate};

use parser::Decoded;
use spec::{Counts, Fields, Loaded, Numbers, Refusal, State, refusals};
use tracker::TypeTracker;

// Where a load stands: the place of the next instruction, what is kept so far, the functions and blocks that have begun, the state of the
// layout, and the first offset that breaks what is kept, or 0.
#[derive(Clone, Copy)]
pub struct Progress {
    pub at: usize,
    pub instructions: usize,
    pub log: usize,
    pub strings: usize,
    pub tracker: TypeTracker,
    pub numbers: Numbers,
    pub state: State,
    pub breaks: usize,
}

// An instruction that goes in: where the load stood before it, what was read, its tag, and the state after it.
#[derive(Clone, Copy)]
pub struct Taken {
    pub from: Progress,
    pub read: Decoded,
    pub tag: u8,
    pub state: State,
}

// Where a load stopped, and why: at the end the number is 0, 16 or 21. What breaks the instructions kept is said at the end alone, so that
// the loop need not hold it beside that of the instruction in hand.
#[derive(Clone, Copy)]
pub struct Ended {
    pub progress: Progress,
    pub refusal: Refusal,
    pub breaks: usize,
}

// "At the end an open block is 21, else an open function 16."
pub fn end_number(s: State) -> u32
    ensures { result ≡ end_number s }
{
    match s {
        State::Outside => refusals::ACCEPTED,
        State::Function => refusals::OPEN_FUNCTION,
        State::Block => refusals::OPEN_BLOCK,
    }
}

// A load that comes to no instruction.
pub fn no_instruction(number: u32, offset: usize) -> Loaded
    ensures { result ≡ (nothing number offset).said }
{
    let counts = Counts {
        instructions: 0,
        log: 0,
        strings: 0,
        types: 0,
    };
    Loaded {
        number,
        offset,
        index: 0,
        value: 0,
        header: [0; 5],
        counts,
        plain: false,
        breaks: 0,
    }
}

// What breaks a module of so many bytes after its instructions: its first tail byte, or 0.
fn tail_break(size: usize) -> usize
    ensures { result ≡ tail_break size }
{
    if size % 4 == 0 {
        return 0;
    }
    4 * (size / 4)
}

// What breaks a module that is accepted: what breaks its instructions, else its tail; 0 for one that is refused.
fn breaks_of(number: u32, kept: usize, size: usize) -> usize
    ensures { result ≡ (if eqb number 0 then first_break kept (tail_break size) else 0) }
{
    if number != refusals::ACCEPTED {
        return 0;
    }
    if kept != 0 {
        return kept;
    }
    tail_break(size)
}

// A load of a module of so many bytes that stopped at the instruction after those kept.
pub fn stopped(header: [u32; 5], e: Ended, size: usize) -> Loaded
    requires { e.progress.instructions < 67108864 }
    ensures { result ≡ said_at header size e }
{
    let p = e.progress;
    let x = e.refusal;
    let counts = Counts {
        instructions: p.instructions,
        log: p.log,
        strings: p.strings,
        types: p.tracker.count,
    };
    let breaks = breaks_of(x.number, e.breaks, size);
    Loaded {
        number: x.number,
        offset: x.place,
        index: p.instructions + 1,
        value: x.value,
        header,
        counts,
        plain: (x.number == refusals::ACCEPTED) & (breaks == 0),
        breaks,
    }
}

// "1 for a result type, 2 for a result id".
fn presence_of(rtype: Option<u32>, rid: Option<u32>) -> u32
    ensures { (result ≡ presence rtype rid) × (result ≤ 3) }
{
    u32::from(rtype.is_some()) + 2 * u32::from(rid.is_some())
}

// The fields of the record of an instruction that goes in.
pub fn fields_of(p: Progress, d: Decoded, tag: u8) -> Fields
    requires { Bounded p × Moderate d }
    ensures { result ≡ fields_by p d tag }
{
    Fields {
        head: d.opcode as u32 + 65536 * presence_of(d.rtype, d.rid),
        tag: tag as u32,
        offset: p.at as u32,
        rtype: d.rtype.unwrap_or(0),
        rid: d.rid.unwrap_or(0),
        start: p.log as u32,
        count: d.operands as u32,
        words: d.words as u32,
    }
}
