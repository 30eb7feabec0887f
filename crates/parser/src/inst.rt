// One instruction.
ghost use Rattle.std.specs.Prelude.{◌≡◌, ◌*◌, ◌≤◌, length};
ghost use Rattle.spec.specs.Reader.{refusal, reader_at};
ghost use Rattle.spec.specs.Grammar.{grammar_of, row_of};
ghost use Rattle.spec.specs.Match.{read_instr};
ghost use Rattle.grammar.specs.Find.{place_found, row_found};
ghost use Rattle.tracker.specs.Entries.{entries_of};
ghost use Rattle.tracker.specs.Hints.{Hinted};
ghost use Rattle.used.specs.Fresh.{Fresh};
ghost use Rattle.parser.specs.Inst.{Ended, Decodes, DecodesOver, ShapeIs, RowIs};
ghost use Rattle.untyped.specs.Body.{Framed, body_read};

use crate::rows::parse_operands;
use decoder::Decoder;
use grammar::Rows;
use operand::Parts;
use simple::simple_operands;
use spec::{Refusal, refusals};
use tracker::TypeTracker;
use used::{Frame, Used};

// An instruction that was read: its opcode and word count, where its row's operands start, its results, how many
// operands, the first two, where log and strings go on after its records, and the lowest offset that breaks it, or 0.
#[derive(Clone, Copy)]
pub struct Decoded {
    pub opcode: u16,
    pub words: u16,
    pub place: usize,
    pub rtype: Option<u32>,
    pub rid: Option<u32>,
    pub operands: usize,
    pub first: Parts,
    pub second: Parts,
    pub log: usize,
    pub strings: usize,
    pub breaks: usize,
}

// An instruction that is refused.
fn no_inst(number: u32, place: usize, value: u32) -> Result<Decoded, Refusal>
    ensures { result ≡ Err (refusal number place value) }
{
    let refusal = Refusal {
        number,
        place,
        value,
    };
    Err(refusal)
}

// An instruction whose row was read: 7 where words are left over.
fn finished(frame: Frame, e: Decoder, u: Used) -> Result<Decoded, Refusal>
    ensures { Ended frame e u result }
{
    if e.limit_reached() {
        return Ok(Decoded {
            opcode: frame.opcode,
            words: frame.words,
            place: frame.place,
            rtype: u.rtype,
            rid: u.rid,
            operands: u.operands,
            first: Parts {
                kind: u.kind1,
                value: u.value1,
            },
            second: Parts {
                kind: u.kind2,
                value: u.value2,
            },
            log: u.log,
            strings: u.strings,
            breaks: u.breaks,
        });
    }
    no_inst(refusals::OPERAND_EXCEEDED, e.offset, 0)
}

// An instruction after its first word: the operands of its row, then 7 where words are left over.
pub fn parse_body(
    s: &[u8],
    rows: Rows,
    types: &[u32],
    hints: &[u16],
    tracker: TypeTracker,
    frame: Frame,
    log: &mut [u8],
    strings: &mut [u8],
    used: Used,
) -> Result<Decoded, Refusal>
    requires framed { Framed s.now rows.bytes.now frame × Fresh frame.at used }
    requires count_in_bounds { 3 * tracker.count ≤ length types.now }
    requires hinted { Hinted tracker types.now hints.now }
    ensures decodes { Decodes s.now frame.at (body_read rows.entry.bytes.now (entries_of tracker.count types.now) s.now frame) log.old strings.old log.new strings.new used result }
    ensures shape_is { ShapeIs frame result }
{
    let parsed = parse_operands(s, rows, types, hints, tracker, frame, log, strings, used);
    match parsed {
        Ok((u, e)) => finished(frame, e, u),
        Err((x, _)) => Err(x),
    }
}

// Where the operands of an opcode's row start: where the guess says, else by a search.
fn row_of(rows: Rows, opcode: u16) -> Option<usize>
    ensures result_value { row_found rows.entry.bytes.now result ≡ row_of opcode (grammar_of rows.entry.bytes.now).rows }
    ensures result_in_bounds { place_found result ≤ length rows.entry.bytes.now }
{
    match rows.guess_row(opcode) {
        Some(place) => Some(place),
        None => rows.find_row(opcode),
    }
}

// The instruction at a place, by the types known so far. Its operands' records go to the stores from where the others are in use on, each
// where it fits, and what else stands there may be written over.
pub fn parse_inst(
    s: &[u8],
    at: usize,
    rows: Rows,
    types: &[u32],
    hints: &[u16],
    tracker: TypeTracker,
    log: &mut [u8],
    strings: &mut [u8],
    used: Used,
) -> Result<Decoded, Refusal>
    requires s_len_bound { (length s.now ≤ 67108864) × (at ≤ length s.now) × Fresh at used }
    requires count_in_bounds { 3 * tracker.count ≤ length types.now }
    requires hinted { Hinted tracker types.now hints.now }
    ensures decodes_over { DecodesOver s.now at (read_instr (grammar_of rows.entry.bytes.now) (entries_of tracker.count types.now) (reader_at s.now at None)) log.new strings.new used result }
    ensures row_is { RowIs rows.entry.bytes.now (entries_of tracker.count types.now) s.now at (read_instr (grammar_of rows.entry.bytes.now) (entries_of tracker.count types.now) (reader_at s.now at None)) result }
{
    let start = Decoder {
        offset: at,
        limit: None,
    };
    match start.word(s) {
        Err((x, _)) => Err(x),
        Ok((w, _)) => {
            let words = (w / 65536) as u16;
            let opcode = (w % 65536) as u16;
            if words == 0 {
                return no_inst(refusals::NO_WORDS, at, 0);
            }
            let Some(place) = row_of(rows, opcode) else {
                return no_inst(refusals::OPCODE_UNKNOWN, at, opcode as u32);
            };
            let frame = Frame {
                at,
                words,
                opcode,
                place,
            };
            let simple = simple_operands(s, rows, types, hints, tracker, frame, log, strings, used);
            if let Some((u, e)) = simple {
                return finished(frame, e, u);
            }
            // Copies, which the call is handed: so the short walk's own need not lie in memory.
            let module = s;
            let grammar = rows;
            let entries = types;
            let guesses = hints;
            let known = tracker;
            let whole = frame;
            let from = used;
            parse_body(
                module, grammar, entries, guesses, known, whole, log, strings, from,
            )
        }
    }
}
