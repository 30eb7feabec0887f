// Rows of simple operands, which most instructions have: results, ids and numbers, values with their parameters, strings, and literals of
// one word. They are read in one short loop; an instruction with any other operand, or with a fault, is passed over.
#![tactic(auto)]

ghost use Rattle.std.specs.Prelude.{◌≡◌, true, List, ◌∷◌, [], ℕ, ◌*◌, ◌≤◌, length};
ghost use Rattle.spec.specs.Kinds.{is_enum, is_result};
ghost use Rattle.spec.specs.Records.{Entry};
ghost use Rattle.spec.specs.Grammar.{Grammar, grammar_of};
ghost use Rattle.spec.specs.Match.{read_each, read_operand, read_slot};
ghost use Rattle.decoder.specs.Answer.{reader_of, word_from};
ghost use Rattle.tracker.specs.Entries.{entries_of};
ghost use Rattle.tracker.specs.Hints.{Hinted};
ghost use Rattle.used.specs.Parse.{Few, Parses, Walks, SlotWalks, left_of, is_word, literal_alone};
ghost use Rattle.used.specs.Fresh.{Fresh};
ghost use Rattle.untyped.specs.Body.{Framed, start_of, row_read};
ghost use Rattle.simple.specs.Simple.{There, IfTaken};

use decoder::{Answer, Decoder};
use grammar::Rows;
use spec::kinds;
use tracker::TypeTracker;
use untyped::{next_place, parse_parameters};
use used::{Frame, Used, literal_kind, push, push_text, with_result};

// A word, and the decoder after it.
#[derive(Clone, Copy)]
pub struct Next {
    pub word: u32,
    pub after: Decoder,
}

// The words that a limit has left.
fn words_left(limit: Option<usize>) -> usize
    ensures { result ≡ left_of limit }
{
    match limit {
        None => 0,
        Some(n) => n,
    }
}

// The next word, which is there.
fn next_word(d: Decoder, s: &[u8]) -> Next
    requires { (length s.now ≤ 67108864) × There s.now d }
    ensures { Ok (result.word, result.after) ≡ word_from s.now d }
{
    let at = d.offset;
    let limit = d.limit;
    let left = words_left(limit);
    let word = words::word_at(s, at);
    let after = Decoder {
        offset: at + 4,
        limit: Some(left - 1),
    };
    Next { word, after }
}

// What was parsed, taken where it is good and breaks no more than was broken before: so the short walk has no new break to carry.
fn taken(r: Answer<Used>, breaks: usize) -> Option<(Used, Decoder)>
    ensures { IfTaken (λ v. r ≡ v) result }
{
    let Ok((n, e)) = r else {
        return None;
    };
    if n.breaks != breaks {
        return None;
    }
    let Some(left) = e.limit else {
        return None;
    };
    let after = Decoder {
        offset: e.offset,
        limit: Some(left),
    };
    Some((n, after))
}

// A result type or a result id.
fn simple_result(d: Decoder, s: &[u8], kind: u8, u: Used) -> Option<(Used, Decoder)>
    requires few { Few s.now d u × (is_result kind ≡ true) }
    requires there { There s.now d }
    ensures { (g : Grammar) (types : List Entry) (l t : List ℕ) → IfTaken (SlotWalks s.now d kind (λ x. read_slot g types x kind (reader_of s.now d)) l t l t u) result }
{
    let x = next_word(d, s);
    Some((with_result(u, kind, Some(x.word)), x.after))
}

// One record of a word.
fn simple_word(d: Decoder, s: &[u8], kind: u8, log: &mut [u8], u: Used) -> Option<(Used, Decoder)>
    requires few { Few s.now d u × (is_word kind ≡ true) }
    requires there { There s.now d }
    ensures { (g : Grammar) (t : List ℕ) → IfTaken (Parses s.now d 4 (read_each g (kind ∷ []) (reader_of s.now d)) log.old t log.new t u) result }
{
    let x = next_word(d, s);
    Some((push(log, kind, x.word as u64, u), x.after))
}

// A string.
fn simple_text(
    d: Decoder,
    s: &[u8],
    log: &mut [u8],
    strings: &mut [u8],
    u: Used,
) -> Option<(Used, Decoder)>
    requires { Few s.now d u }
    ensures { (g : Grammar) → IfTaken (Parses s.now d 4 (read_each g (40 ∷ []) (reader_of s.now d)) log.old strings.old log.new strings.new u) result }
{
    let t = d.string(s);
    let Ok((x, e)) = t else {
        return None;
    };
    let n = push_text(log, strings, s, x.start, x.length, x.breaks, u);
    taken(Ok((n, e)), u.breaks)
}

// A literal of a kind, where that is one word.
fn simple_literal(
    d: Decoder,
    s: &[u8],
    literal: Option<u8>,
    log: &mut [u8],
    u: Used,
) -> Option<(Used, Decoder)>
    requires few { Few s.now d u }
    requires there { There s.now d }
    ensures { (t : List ℕ) → IfTaken (Parses s.now d 4 (literal_alone literal (reader_of s.now d)) log.old t log.new t u) result }
{
    let kind = literal?;
    if (kind == kinds::INT32) | (kind == kinds::FLOAT32) {
        return simple_word(d, s, kind, log, u);
    }
    None
}

// A value where the guess says, with its parameters; of masks zero alone.
fn simple_value(
    d: Decoder,
    s: &[u8],
    rows: Rows,
    kind: u8,
    log: &mut [u8],
    strings: &mut [u8],
    u: Used,
) -> Option<(Used, Decoder)>
    requires few { Few s.now d u × (is_enum kind ≡ true) }
    requires there { There s.now d }
    ensures { IfTaken (Parses s.now d 4 (read_operand (grammar_of rows.entry.bytes.now) kind (reader_of s.now d)) log.old strings.old log.new strings.new u) result }
{
    let w = next_word(d, s);
    let value = w.word;
    let e = w.after;
    if grammar::is_mask(kind) {
        if value != 0 {
            return None;
        }
        return Some((push(log, kind, 0, u), e));
    }
    let place = rows.guess_enumerant(kind, value)?;
    let n = push(log, kind, value as u64, u);
    let Some(_) = grammar::parameter_at(rows.bytes, place) else {
        return Some((n, e));
    };
    taken(
        parse_parameters(e, s, rows, place, log, strings, n),
        u.breaks,
    )
}

// An operand of a row. Types, hints and tracker are handed down to its last line, so that only a literal asks for the kind that it is of;
// and the two results have a branch each, so that each is put in its place, where one branch for both has to choose and put both.
fn simple_slot(
    d: Decoder,
    s: &[u8],
    rows: Rows,
    types: &[u32],
    hints: &[u16],
    tracker: TypeTracker,
    kind: u8,
    log: &mut [u8],
    strings: &mut [u8],
    u: Used,
) -> Option<(Used, Decoder)>
    requires few { Few s.now d u }
    requires there { There s.now d }
    requires count_in_bounds { 3 * tracker.count ≤ length types.now }
    requires hinted { Hinted tracker types.now hints.now }
    ensures { IfTaken (SlotWalks s.now d kind (λ x. read_slot (grammar_of rows.entry.bytes.now) (entries_of tracker.count types.now) x kind (reader_of s.now d)) log.old strings.old log.new strings.new u) result }
{
    if kind == kinds::RESULT_TYPE {
        return simple_result(d, s, kind, u);
    }
    if kind == kinds::RESULT_ID {
        return simple_result(d, s, kind, u);
    }
    if (31 <= kind) & (kind <= 35) {
        return simple_word(d, s, kind, log, u);
    }
    if grammar::is_enum(kind) {
        return simple_value(d, s, rows, kind, log, strings, u);
    }
    if kind == kinds::STRING {
        return simple_text(d, s, log, strings, u);
    }
    if kind == kinds::TYPED_LITERAL {
        let literal = literal_kind(tracker.resolve(types, hints, u.rtype));
        return simple_literal(d, s, literal, log, u);
    }
    None
}

// The operands of an instruction by its row, up to its end, where all are simple.
pub fn simple_operands(
    s: &[u8],
    rows: Rows,
    types: &[u32],
    hints: &[u16],
    tracker: TypeTracker,
    frame: Frame,
    log: &mut [u8],
    strings: &mut [u8],
    used: Used,
) -> Option<(Used, Decoder)>
    requires framed { Framed s.now rows.bytes.now frame × Fresh frame.at used }
    requires count_in_bounds { 3 * tracker.count ≤ length types.now }
    requires hinted { Hinted tracker types.now hints.now }
    ensures { IfTaken (Walks s.now (start_of frame) 0 (row_read rows.entry.bytes.now (entries_of tracker.count types.now) s.now (start_of frame) frame.place) log.old strings.old log.new strings.new used) result }
{
    let mut d = Decoder {
        offset: frame.at + 4,
        limit: Some((frame.words as usize) - 1),
    };
    if s.len() - d.offset < 4 * ((frame.words as usize) - 1) {
        return None;
    }
    let mut u = used;
    let mut p = frame.place;
    // An operand has three bytes.
    while p + 3 <= rows.bytes.len() {
        let Some((k, q)) = grammar::slot_at(rows.bytes, p) else {
            return Some((u, d));
        };
        if d.limit_reached() {
            if q == 0 {
                return None;
            }
            return Some((u, d));
        }
        let (n, e) = simple_slot(d, s, rows, types, hints, tracker, k, log, strings, u)?;
        d = e;
        u = n;
        p = next_place(p, q);
    }
    Some((u, d))
}
