// Rows: the operands of an instruction, one after the other.
ghost use Rattle.std.specs.Prelude.{◌≡◌, true, false, List, ◌+◌, ◌*◌, ◌≤◌, length};
ghost use Rattle.spec.specs.Kinds.{is_result, may_be_operand};
ghost use Rattle.spec.specs.Records.{Entry};
ghost use Rattle.spec.specs.Grammar.{grammar_of};
ghost use Rattle.spec.specs.Match.{read_slot};
ghost use Rattle.decoder.specs.Answer.{reader_of};
ghost use Rattle.tracker.specs.Entries.{entries_of};
ghost use Rattle.tracker.specs.Hints.{Hinted};
ghost use Rattle.used.specs.Parse.{Few, Parses, Walks, SlotWalks, is_literal, literal_for, kind_alone};
ghost use Rattle.used.specs.Fresh.{Fresh};
ghost use Rattle.untyped.specs.Body.{Framed, start_of, row_read};

use crate::literals::{parse_literal, parse_literal_pair};
use decoder::{Answer, Decoder};
use embedded::parse_spec_constant_op;
use grammar::Rows;
use spec::{kinds, refusals};
use tracker::TypeTracker;
use untyped::{next_place, parse_operand, read_word};
use used::{Frame, Used, literal_for, refused, with_result};

// An operand that is no result, where a literal by type is of a kind.
fn parse_kind(
    d: Decoder,
    s: &[u8],
    rows: Rows,
    kind: u8,
    literal: Option<u8>,
    log: &mut [u8],
    strings: &mut [u8],
    u: Used,
) -> Answer<Used>
    requires { Few s.now d u × (may_be_operand kind ≡ true) × (is_result kind ≡ false) × (is_literal literal ≡ true) }
    ensures { Parses s.now d 4 (kind_alone (grammar_of rows.entry.bytes.now) literal kind (reader_of s.now d)) log.old strings.old log.new strings.new u result }
{
    if kind == kinds::TYPED_LITERAL {
        return parse_literal(d, s, rows, literal, log, strings, u);
    }
    if kind == kinds::LITERAL_AND_ID {
        return parse_literal_pair(d, s, rows, literal, log, strings, u);
    }
    if kind == kinds::EMBEDDED {
        return parse_spec_constant_op(d, s, rows, log, strings, u);
    }
    parse_operand(d, s, rows, kind, log, strings, u)
}

// An operand of a row, where a literal by type is of a kind.
fn parse_slot(
    d: Decoder,
    s: &[u8],
    rows: Rows,
    kind: u8,
    literal: Option<u8>,
    log: &mut [u8],
    strings: &mut [u8],
    u: Used,
) -> Answer<Used>
    requires { Few s.now d u × (may_be_operand kind ≡ true) × (is_literal literal ≡ true) }
    ensures { (types : List Entry) → literal ≡ literal_for types u kind → SlotWalks s.now d kind (λ x. read_slot (grammar_of rows.entry.bytes.now) types x kind (reader_of s.now d)) log.old strings.old log.new strings.new u result }
{
    if grammar::is_result(kind) {
        let (id, e) = d.word(s)?;
        return Ok((with_result(u, kind, Some(id)), e));
    }
    if (31 <= kind) & (kind <= 35) {
        return read_word(d, s, kind, log, u);
    }
    parse_kind(d, s, rows, kind, literal, log, strings, u)
}

// The operands of an instruction by its row, up to its end.
pub fn parse_operands(
    s: &[u8],
    rows: Rows,
    types: &[u32],
    hints: &[u16],
    tracker: TypeTracker,
    frame: Frame,
    log: &mut [u8],
    strings: &mut [u8],
    used: Used,
) -> Answer<Used>
    requires framed { Framed s.now rows.bytes.now frame × Fresh frame.at used }
    requires count_in_bounds { 3 * tracker.count ≤ length types.now }
    requires hinted { Hinted tracker types.now hints.now }
    ensures { Walks s.now (start_of frame) 0 (row_read rows.entry.bytes.now (entries_of tracker.count types.now) s.now (start_of frame) frame.place) log.old strings.old log.new strings.new used result }
{
    let mut d = Decoder {
        offset: frame.at + 4,
        limit: Some((frame.words as usize) - 1),
    };
    let mut u = used;
    let mut p = frame.place;
    while let Some((k, q)) = grammar::slot_at(rows.bytes, p) {
        if d.limit_reached() {
            if q == 0 {
                return refused(refusals::OPERAND_EXPECTED, d.offset, d);
            }
            return Ok((u, d));
        }
        let literal = literal_for(types, hints, tracker, k, u);
        let (n, e) = parse_slot(d, s, rows, k, literal, log, strings, u)?;
        d = e;
        u = n;
        p = next_place(p, q);
    }
    Ok((u, d))
}
