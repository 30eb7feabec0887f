// One instruction of a load: decoded, placed in the layout, given room, and kept.
ghost use Rattle.std.specs.Prelude.{◌≡◌, ◌+◌, ◌*◌, ◌≤◌, length};
ghost use Rattle.std.proofs.lemmas.List.Edits.{sets};
ghost use Rattle.spec.specs.Records.{record_size, entry_size};
ghost use Rattle.spec.specs.Reader.{refusal};
ghost use Rattle.spec.specs.Load.{room_fault};
ghost use Rattle.tracker.specs.Entries.{entries_of};
ghost use Rattle.steps.specs.Steps.{Bounded, Typed, Moderate, Fair, Tells, need_of, judged, tracked, Shown, Shows, Stored, Recorded};

use crate::parts::{Progress, Taken, fields_of};
use grammar::Rows;
use parser::{Decoded, parse_body, parse_inst};
use records::RECORD;
use reflect::Layout;
use room::room_fault;
use spec::{Counts, Refusal, State, refusals};
use tracker::Told;
use used::{Frame, unused};

// DECODING

// The next instruction: its operands' records and strings go to scratch and spare, where they fit.
pub fn decode(
    s: &[u8],
    rows: Rows,
    types: &[u32],
    hints: &[u16],
    scratch: &mut [u8],
    spare: &mut [u8],
    p: Progress,
) -> Result<Decoded, Refusal>
    requires s_len_bound { (length s.now ≤ 67108864) × (p.at + 4 ≤ length s.now) }
    requires bounded { Bounded p × Typed types.now hints.now p }
    ensures { Shows s.now rows.entry.bytes.now types.now scratch.new spare.new p result }
{
    let used = unused(0, 0, p.strings, p.breaks);
    parse_inst(s, p.at, rows, types, hints, p.tracker, scratch, spare, used)
}

// What type tracking is told of a decoded instruction.
fn told_of(d: Decoded) -> Told
    requires { Moderate d }
    ensures { Tells d result }
{
    Told {
        opcode: d.opcode,
        rtype: d.rtype,
        rid: d.rid,
        operands: d.operands,
        first: d.first,
        second: d.second,
    }
}

// LAYOUT, THEN ROOM

// What is taken with a decoded instruction more. It adds an entry at most: where there is room for one, no more is asked.
fn need_after(types: &[u32], hints: &[u16], room: Counts, p: Progress, d: Decoded) -> Counts
    requires bounded { Bounded p × Typed types.now hints.now p }
    requires moderate { Moderate d }
    ensures { room_fault room result ≡ room_fault room (need_of p d (entries_of p.tracker.count types.now)) }
{
    let mut entries = p.tracker.count + 1;
    if room.types < entries {
        entries = p.tracker.after(types, hints, told_of(d));
    }
    Counts {
        instructions: p.instructions + 1,
        log: p.log + d.log,
        strings: p.strings + d.strings,
        types: entries,
    }
}

// A decoded instruction that is refused for its layout or for room.
fn refused(number: u32, place: usize) -> Result<(Decoded, u8, State), Refusal>
    ensures { result ≡ Err (refusal number place 0) }
{
    let x = Refusal {
        number,
        place,
        value: 0,
    };
    Err(x)
}

// An instruction by its layout and the room for it, where it was read.
pub fn admit(
    layout: &Layout,
    types: &[u32],
    hints: &[u16],
    room: Counts,
    p: Progress,
    read: Result<Decoded, Refusal>,
) -> Result<(Decoded, u8, State), Refusal>
    requires bounded { Bounded p × Typed types.now hints.now p }
    requires fair { Fair read }
    ensures { result ≡ judged room (entries_of p.tracker.count types.now) p read }
{
    let d = read?;
    match layout.place(d.opcode, p.state) {
        Err(n) => refused(n as u32, p.at),
        Ok((tag, next)) => {
            let fault = room_fault(room, need_after(types, hints, room, p, d));
            if fault == refusals::ACCEPTED {
                return Ok((d, tag, next));
            }
            refused(fault, p.at)
        }
    }
}

// KEEPING

// The records of operands, stored at a place: most have five bytes, a kind and a word.
fn put_records(log: &mut [u8], at: usize, records: &[u8])
    requires { at + length records.now ≤ length log.old }
    ensures { log.new ≡ sets log.old at records.now }
{
    let mut i = 0;
    // A byte and a word at a time: of so few bytes, a call that copies them takes longer.
    while 5 <= records.len() - i {
        let word = words::word_at(records, i + 1);
        log[at + i] = records[i];
        words::put_word(log, at + i + 1, word);
        i += 5;
    }
    words::put_bytes(log, at + i, &records[i..]);
}

// Keeps the operands of an instruction that goes in: from scratch and spare, or, where they are too long for these, from the module
// again.
pub fn keep_operands(
    s: &[u8],
    rows: Rows,
    log: &mut [u8],
    strings: &mut [u8],
    types: &[u32],
    hints: &[u16],
    scratch: &[u8],
    spare: &[u8],
    t: Taken,
)
    requires s_len_bound { (length s.now ≤ 67108864) × (t.from.at + 4 ≤ length s.now) }
    requires bounded { Bounded t.from × Typed types.now hints.now t.from }
    requires log_in_bounds { (t.from.log + t.read.log ≤ length log.old) × (t.from.strings + t.read.strings ≤ length strings.old) }
    requires shown { Shown s.now rows.bytes.now types.now scratch.now spare.now t.from t.read }
    ensures { Stored s.now rows.entry.bytes.now types.now log.old strings.old log.new strings.new t.from }
{
    let p = t.from;
    let d = t.read;
    let at = p.at;
    let log_to = p.log;
    let strings_to = p.strings;
    let size = d.log;
    let more = d.strings;
    if size <= scratch.len() {
        if more <= spare.len() {
            put_records(log, log_to, &scratch[..size]);
            words::put_bytes(strings, strings_to, &spare[..more]);
            return;
        }
    }
    // Copies, which the call is handed: so what the way above has need not lie in memory.
    let module = s;
    let grammar = rows;
    let entries = types;
    let guesses = hints;
    let tracker = p.tracker;
    let frame = Frame {
        at,
        words: d.words,
        opcode: d.opcode,
        place: d.place,
    };
    let used = unused(log_to, strings_to, 0, 0);
    // It was read before, so the answer is known.
    let _ = parse_body(
        module, grammar, entries, guesses, tracker, frame, log, strings, used,
    );
}

// Keeps the record and the type entry of an instruction that goes in: the load stands behind it.
pub fn keep_record(
    instructions: &mut [u32],
    types: &mut [u32],
    hints: &mut [u16],
    t: Taken,
) -> Progress
    requires bounded { Bounded t.from × Typed types.old hints.old t.from }
    requires moderate { Moderate t.read }
    requires record_size_in_bounds { record_size * t.from.instructions + record_size ≤ length instructions.old }
    requires types_in_bounds { entry_size * length (tracked t.read (entries_of t.from.tracker.count types.old)) ≤ length types.old }
    ensures { Recorded instructions.old types.old instructions.new types.new hints.new t result }
{
    let p = t.from;
    let d = t.read;
    let counted = numbers::count(t.tag as u32, p.numbers);
    let fields = fields_of(p, d, t.tag);
    records::put_record(instructions, RECORD * p.instructions, fields, counted.own);
    Progress {
        at: p.at + 4 * (d.words as usize),
        instructions: p.instructions + 1,
        log: p.log + d.log,
        strings: p.strings + d.strings,
        tracker: p.tracker.track(types, hints, told_of(d)),
        numbers: counted.begun,
        state: t.state,
        breaks: d.breaks,
    }
}
