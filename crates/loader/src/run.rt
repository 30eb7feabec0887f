// The instructions of a module, one after the other, and a load by a grammar that is indexed.
ghost use Rattle.std.specs.Prelude.{◌≡◌, ◌≤◌, ◌<◌, length};
ghost use Rattle.spec.specs.Load.{lent};
ghost use Rattle.grammar.specs.Index.{Indexed};
ghost use Rattle.tracker.specs.Hints.{Blank};
ghost use Rattle.loader.specs.Loading.{LoadsFrom, LoadsWith};

use grammar::Rows;
use reflect::Layout;
use room::room_in;
use spec::{Loaded, Numbers, Refusal, State, refusals};
use steps::{
    Ended, Progress, Taken, admit, decode, end_number, keep_operands, keep_record, no_instruction,
    stopped,
};
use tracker::TypeTracker;

// How many hints there are of where the type of an id is, and how many for a short module.
const HINTS: usize = 32768;

const FEW_HINTS: usize = 2560;

// A module of so many bytes or less is short.
const SHORT: usize = 16384;

// A module has so many bytes at most.
const LONGEST: usize = 67108864;

// A header has so many bytes, and the bound of the ids stands there.
const HEADER: usize = 20;

const BOUND: usize = 12;

// So long may the records of an instruction be that is read once, and so long its strings.
const SCRATCH: usize = 576;

const SPARE: usize = 256;

// The instructions after the header, to the first refusal or the end: each is decoded, placed in the layout, given room, and kept.
fn load_from(
    layout: &Layout,
    s: &[u8],
    grammar: &[u8],
    index: &[u16],
    instructions: &mut [u32],
    log: &mut [u8],
    strings: &mut [u8],
    types: &mut [u32],
    hints: &mut [u16],
    scratch: &mut [u8; SCRATCH],
    spare: &mut [u8; SPARE],
) -> Ended
    requires indexed { Indexed grammar.now index.now }
    requires in_bounds { (20 ≤ length s.now) × (length s.now ≤ 67108864) }
    requires in_bounds_2 { (2048 ≤ length hints.old) × Blank hints.old }
    ensures loads_from { LoadsFrom grammar.now s.now
        (lent instructions.old log.old strings.old types.old)
        (lent instructions.new log.new strings.new types.new) result }
    ensures instructions_bound { result.progress.instructions < 67108864 }
{
    let rows = Rows {
        bytes: grammar,
        index,
    };
    let room = room_in(instructions.len(), log.len(), strings.len(), types.len());
    let bound = words::word_at(s, BOUND);
    let mut p = Progress {
        at: HEADER,
        instructions: 0,
        log: 0,
        strings: 0,
        tracker: TypeTracker::new(bound, hints.len()),
        numbers: Numbers {
            function: 0,
            block: 0,
        },
        state: State::Outside,
        breaks: 0,
    };
    // The place moves by each instruction's words, which no `for` counts.
    while 4 <= s.len() - p.at {
        let read = decode(s, rows, types, hints, scratch, spare, p);
        match admit(layout, types, hints, room, p, read) {
            Err(x) => return Ended {
                progress: p,
                refusal: x,
                breaks: 0,
            },
            Ok((d, tag, state)) => {
                let t = Taken {
                    from: p,
                    read: d,
                    tag,
                    state,
                };
                keep_operands(s, rows, log, strings, types, hints, scratch, spare, t);
                p = keep_record(instructions, types, hints, t);
            }
        }
    }
    let refusal = Refusal {
        number: end_number(p.state),
        place: p.at,
        value: 0,
    };
    Ended {
        progress: p,
        refusal,
        breaks: p.breaks,
    }
}

// A load by the bytes of a grammar and its index, with everything lent that it works with.
fn load_with(
    layout: &Layout,
    s: &[u8],
    grammar: &[u8],
    index: &[u16],
    instructions: &mut [u32],
    log: &mut [u8],
    strings: &mut [u8],
    types: &mut [u32],
    hints: &mut [u16],
    scratch: &mut [u8; SCRATCH],
    spare: &mut [u8; SPARE],
) -> Loaded
    requires indexed { Indexed grammar.now index.now }
    requires hints_are { (2048 ≤ length hints.old) × Blank hints.old }
    ensures { LoadsWith grammar.now s.now
        (lent instructions.old log.old strings.old types.old)
        (lent instructions.new log.new strings.new types.new) result }
{
    if LONGEST < s.len() {
        return no_instruction(refusals::MODULE_TOO_LONG, 0);
    }
    let header = decoder::header(s);
    if header.refusal.number != refusals::ACCEPTED {
        return no_instruction(header.refusal.number, header.refusal.place);
    }
    let ended = load_from(
        layout,
        s,
        grammar,
        index,
        instructions,
        log,
        strings,
        types,
        hints,
        scratch,
        spare,
    );
    stopped(header.words, ended, s.len())
}

// THE STACK
//
// All that a load works with lies in the frame of the next function, of which there are two that differ in their hints alone. They are two
// because a frame has room for everything that its function declares, whichever branch is taken: one function for both would have a short
// module pay for the long hints. The compiler is told to keep them apart from their callers, and tools/stack sees to it that it does.
// Scratch and spare are lent from here too: as locals of `load_from` they would be copied from by a call, which for a few bytes takes
// longer than a loop. `load_indexed` takes the rows apart, and `load_from` puts them together again: handed on as a struct they lie in
// memory, and the compiler no longer sees that what they refer to is only read.

// A load with so many hints.
#[inline(never)]
fn load_sized<const SIZE: usize>(
    s: &[u8],
    grammar: &[u8],
    index: &[u16],
    instructions: &mut [u32],
    log: &mut [u8],
    strings: &mut [u8],
    types: &mut [u32],
) -> Loaded
    requires indexed { Indexed grammar.now index.now }
    requires size_in_bounds { (2048 ≤ SIZE) × (SIZE ≤ 32768) }
    ensures { LoadsWith grammar.now s.now
        (lent instructions.old log.old strings.old types.old)
        (lent instructions.new log.new strings.new types.new) result }
{
    let mut hints = [0u16; SIZE];
    let mut scratch = [0u8; SCRATCH];
    let mut spare = [0u8; SPARE];
    // The layout last: built before the arrays it has the compiler clear these twice.
    let layout = Layout::new();
    load_with(
        &layout,
        s,
        grammar,
        index,
        instructions,
        log,
        strings,
        types,
        &mut hints,
        &mut scratch,
        &mut spare,
    )
}

// A load by the length of the module: for a short one, a long table of hints would take more time to clear than it saves.
pub fn load_indexed(
    s: &[u8],
    rows: Rows,
    instructions: &mut [u32],
    log: &mut [u8],
    strings: &mut [u8],
    types: &mut [u32],
) -> Loaded
    ensures { LoadsWith rows.entry.bytes.now s.now
        (lent instructions.old log.old strings.old types.old)
        (lent instructions.new log.new strings.new types.new) result }
{
    if s.len() <= SHORT {
        return load_sized::<FEW_HINTS>(
            s,
            rows.bytes,
            rows.index,
            instructions,
            log,
            strings,
            types,
        );
    }
    load_sized::<HINTS>(s, rows.bytes, rows.index, instructions, log, strings, types)
}
