// Embedded operations: the row of an operation inside OpSpecConstantOp, each operand once.
#![tactic(auto)]

ghost use Rattle.std.specs.Prelude.{◌≡◌, true, ◌%◌, ◌≤◌, ltb, length, if◌then◌else◌};
ghost use Rattle.spec.specs.Base.{every};
ghost use Rattle.spec.specs.Plain.{first_break};
ghost use Rattle.spec.specs.Grammar.{grammar_of};
ghost use Rattle.spec.specs.Match.{embeds, read_once, read_embedded};
ghost use Rattle.decoder.specs.Answer.{reader_of};
ghost use Rattle.operand.specs.Parts.{parts};
ghost use Rattle.operand.specs.Log.{record_of, Laid};
ghost use Rattle.used.specs.Parse.{Pushed, Few, Parses, is_operand, is_inner, once_alone, slots_at};

use decoder::{Answer, Decoder};
use grammar::Rows;
use spec::{kinds, refusals};
use untyped::parse_operand;
use used::{Used, first_break, push, refused};

// Whether each operand of the row that starts at a place may stand in an embedded row.
fn may_embed(g: &[u8], place: usize) -> bool
    requires { (length g.now ≤ 65535) × (place ≤ length g.now) }
    ensures { result ≡ every embeds (slots_at g.now place) }
{
    let mut p = place;
    while let Some((k, _)) = grammar::slot_at(g, p) {
        if (k == kinds::EMBEDDED) | (k == kinds::TYPED_LITERAL) | (k == kinds::LITERAL_AND_ID) {
            return false;
        }
        p += 3;
    }
    true
}

// An operand of an embedded row: nothing for a result, else read once.
fn parse_inner(
    d: Decoder,
    s: &[u8],
    rows: Rows,
    kind: u8,
    log: &mut [u8],
    strings: &mut [u8],
    u: Used,
) -> Answer<Used>
    requires { Few s.now d u × (is_inner kind ≡ true) }
    ensures { Parses s.now d 0 (once_alone (grammar_of rows.entry.bytes.now) kind (reader_of s.now d)) log.old strings.old log.new strings.new u result }
{
    if grammar::is_result(kind) {
        return Ok((u, d));
    }
    parse_operand(d, s, rows, kind, log, strings, u)
}

// The operands of the row that starts at a place, each but the results read exactly once.
fn parse_once(
    start: Decoder,
    s: &[u8],
    rows: Rows,
    place: usize,
    log: &mut [u8],
    strings: &mut [u8],
    used: Used,
) -> Answer<Used>
    requires { Few s.now start used × (place ≤ length rows.bytes.now) × (every is_operand (slots_at rows.bytes.now place) ≡ true) × (every embeds (slots_at rows.bytes.now place) ≡ true) }
    ensures { Parses s.now start 0 (read_once (grammar_of rows.entry.bytes.now) (slots_at rows.entry.bytes.now place) (reader_of s.now start)) log.old strings.old log.new strings.new used result }
{
    let mut d = start;
    let mut u = used;
    let mut p = place;
    while let Some((kind, _)) = grammar::slot_at(rows.bytes, p) {
        let (n, e) = parse_inner(d, s, rows, kind, log, strings, u)?;
        d = e;
        u = n;
        p += 3;
    }
    Ok((u, d))
}

// What breaks the word of an embedded opcode: its offset, where it has something above its low sixteen bits.
fn opcode_break(word: u32, at: usize) -> usize
    ensures { result ≡ (if ltb 65535 word then at else 0) }
{
    if word / 65536 != 0 {
        return at;
    }
    0
}

// The record of an embedded opcode, the low sixteen bits of a word that stands at an offset, kept where it fits; and what breaks it.
fn push_opcode(log: &mut [u8], word: u32, at: usize, u: Used) -> Used
    requires { (u.log ≤ 1000000000) × (u.operands ≤ 1000000000) }
    ensures pushed { Pushed 39 (word % 65536) u result }
    ensures laid { Laid log.old u.log (record_of (parts 39 (word % 65536))) log.new }
    ensures breaks_value { result.breaks ≡ first_break u.breaks (if ltb 65535 word then at else 0) }
{
    let n = push(log, kinds::EMBEDDED, (word % 65536) as u64, u);
    Used {
        breaks: first_break(u.breaks, opcode_break(word, at)),
        ..n
    }
}

// An operation inside OpSpecConstantOp: 13 where it has no row, 14 where its row may not be embedded.
pub fn parse_spec_constant_op(
    d: Decoder,
    s: &[u8],
    rows: Rows,
    log: &mut [u8],
    strings: &mut [u8],
    u: Used,
) -> Answer<Used>
    requires { Few s.now d u }
    ensures { Parses s.now d 4 (read_embedded (grammar_of rows.entry.bytes.now) (reader_of s.now d)) log.old strings.old log.new strings.new u result }
{
    let at = d.offset;
    let (v, e) = d.word(s)?;
    let opcode = (v % 65536) as u16;
    let Some(p) = rows.find_row(opcode) else {
        return refused(refusals::EMBEDDED_OPCODE, e.offset, e);
    };
    if !may_embed(rows.bytes, p) {
        return refused(refusals::EMBEDDED_ROW, e.offset, e);
    }
    let n = push_opcode(log, v, at, u);
    parse_once(e, s, rows, p, log, strings, n)
}
