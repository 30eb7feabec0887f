// Operands: one record of a kind, enumerants with their parameters, and pairs.
#![tactic(auto)]

ghost use Rattle.std.specs.Prelude.{◌≡◌, true, false, List, ◌∷◌, [], ℕ, ◌≤◌, ◌+◌, ◌*◌, eqb, length, if◌then◌else◌};
ghost use Rattle.spec.specs.Base.{every};
ghost use Rattle.spec.specs.Kinds.{is_mask};
ghost use Rattle.spec.specs.Reader.{refusal};
ghost use Rattle.spec.specs.Words.{bits_of};
ghost use Rattle.spec.specs.Grammar.{Grammar, grammar_of, listed};
ghost use Rattle.spec.specs.Match.{read_each, read_operand};
ghost use Rattle.decoder.specs.Answer.{reader_of};
ghost use Rattle.untyped.specs.Enums.{EnumIs};
ghost use Rattle.used.specs.Parse.{Few, Parses, is_single, is_word, is_untyped, or_none, if_set, bit_parameters, parameters_are, parameters_at};

use decoder::{Answer, Decoder};
use grammar::Rows;
use spec::{Refusal, kinds, refusals};
use used::{Used, push, push_text};

// A refusal with a value.
fn no_enumerant(number: u32, place: usize, value: u32, d: Decoder) -> Answer<(u32, usize)>
    ensures { result ≡ Err (refusal number place value, d) }
{
    let refusal = Refusal {
        number,
        place,
        value,
    };
    Err((refusal, d))
}

// An enumerant's word: 9 on a spent limit, 10 where the value is not known.
fn read_enumerant(d: Decoder, s: &[u8], rows: Rows, kind: u8) -> Answer<(u32, usize)>
    ensures { EnumIs s.now rows.entry.bytes.now kind d result }
{
    let at = d.offset;
    if d.limit_reached() {
        return no_enumerant(refusals::STREAM_ENDED, at, 0, d);
    }
    let (v, e) = d.word(s)?;
    if grammar::is_mask(kind) {
        if rows.is_known(kind, v) {
            return Ok(((v, rows.bytes.len()), e));
        }
        return no_enumerant(refusals::ENUMERANT_UNKNOWN, at, v, e);
    }
    match rows.find_enumerant(kind, v) {
        Some(place) => Ok(((v, place), e)),
        None => no_enumerant(refusals::ENUMERANT_UNKNOWN, at, v, e),
    }
}

// One record of a word.
pub fn read_word(d: Decoder, s: &[u8], kind: u8, log: &mut [u8], u: Used) -> Answer<Used>
    requires { Few s.now d u × (is_word kind ≡ true) }
    ensures { (g : Grammar) (t : List ℕ) → Parses s.now d 4 (read_each g (kind ∷ []) (reader_of s.now d)) log.old t log.new t u result }
{
    let (v, e) = d.word(s)?;
    Ok((push(log, kind, v as u64, u), e))
}

// One record of a kind: an enumerant, a string, or one word.
pub fn read_one(
    d: Decoder,
    s: &[u8],
    rows: Rows,
    kind: u8,
    log: &mut [u8],
    strings: &mut [u8],
    u: Used,
) -> Answer<Used>
    requires { Few s.now d u × (is_single kind ≡ true) }
    ensures { Parses s.now d 4 (read_each (grammar_of rows.entry.bytes.now) (kind ∷ []) (reader_of s.now d)) log.old strings.old log.new strings.new u result }
{
    if grammar::is_enum(kind) {
        let ((v, _), e) = read_enumerant(d, s, rows, kind)?;
        return Ok((push(log, kind, v as u64, u), e));
    }
    if kind == kinds::STRING {
        let (x, e) = d.string(s)?;
        let n = push_text(log, strings, s, x.start, x.length, x.breaks, u);
        return Ok((n, e));
    }
    read_word(d, s, kind, log, u)
}

// The parameters that start at a place of the grammar, each as one record. In line, or a walk over a row keeps in memory what it would have
// handed over, for each value of an enumeration, with parameters or without.
#[inline(always)]
pub fn parse_parameters(
    start: Decoder,
    s: &[u8],
    rows: Rows,
    place: usize,
    log: &mut [u8],
    strings: &mut [u8],
    used: Used,
) -> Answer<Used>
    requires { Few s.now start used × (place ≤ length rows.bytes.now) × (every is_single (parameters_at rows.bytes.now place) ≡ true) }
    ensures { Parses s.now start 0 (read_each (grammar_of rows.entry.bytes.now) (parameters_at rows.entry.bytes.now place) (reader_of s.now start)) log.old strings.old log.new strings.new used result }
{
    let mut d = start;
    let mut u = used;
    let mut p = place;
    while let Some(k) = grammar::parameter_at(rows.bytes, p) {
        let (n, e) = read_one(d, s, rows, k, log, strings, u)?;
        d = e;
        u = n;
        p += 2;
    }
    Ok((u, d))
}

// The parameters of the enumerant of a kind and a value: none where it is not listed.
fn parse_listed(
    d: Decoder,
    s: &[u8],
    rows: Rows,
    kind: u8,
    value: u32,
    log: &mut [u8],
    strings: &mut [u8],
    u: Used,
) -> Answer<Used>
    requires { Few s.now d u }
    ensures { Parses s.now d 0 (read_each (grammar_of rows.entry.bytes.now) (or_none (listed kind value (grammar_of rows.entry.bytes.now).enumerants)) (reader_of s.now d)) log.old strings.old log.new strings.new u result }
{
    match rows.find_enumerant(kind, value) {
        Some(p) => parse_parameters(d, s, rows, p, log, strings, u),
        None => Ok((u, d)),
    }
}

// The parameters of a bit, where it is set: the lowest of what is left of a mask.
fn parse_bit(
    d: Decoder,
    s: &[u8],
    rows: Rows,
    kind: u8,
    bit: u32,
    rest: u32,
    log: &mut [u8],
    strings: &mut [u8],
    u: Used,
) -> Answer<Used>
    requires { Few s.now d u }
    ensures { Parses s.now d 0 (read_each (grammar_of rows.entry.bytes.now) (if_set kind bit rest (grammar_of rows.entry.bytes.now).enumerants) (reader_of s.now d)) log.old strings.old log.new strings.new u result }
{
    if rest % 2 != 1 {
        return Ok((u, d));
    }
    parse_listed(d, s, rows, kind, bit, log, strings, u)
}

// The parameters of each bit of a mask that is set, lowest first.
fn parse_bits(
    start: Decoder,
    s: &[u8],
    rows: Rows,
    kind: u8,
    value: u32,
    log: &mut [u8],
    strings: &mut [u8],
    used: Used,
) -> Answer<Used>
    requires { Few s.now start used }
    ensures { Parses s.now start 0 (read_each (grammar_of rows.entry.bytes.now) (bit_parameters kind (grammar_of rows.entry.bytes.now).enumerants (bits_of value)) (reader_of s.now start)) log.old strings.old log.new strings.new used result }
{
    let mut d = start;
    let mut u = used;
    let mut rest = value;
    let mut bit: u64 = 1;
    while rest != 0 {
        let (n, e) = parse_bit(d, s, rows, kind, bit as u32, rest, log, strings, u)?;
        d = e;
        u = n;
        rest = rest / 2;
        bit = 2 * bit;
    }
    Ok((u, d))
}

// The parameters of a value, which start at a place unless it is a mask.
fn parse_values(
    d: Decoder,
    s: &[u8],
    rows: Rows,
    kind: u8,
    value: u32,
    place: usize,
    log: &mut [u8],
    strings: &mut [u8],
    u: Used,
) -> Answer<Used>
    requires few { Few s.now d u × (place ≤ length rows.bytes.now) }
    requires place_value { is_mask kind ≡ false → parameters_at rows.bytes.now place ≡ or_none (listed kind value (grammar_of rows.bytes.now).enumerants) }
    ensures { Parses s.now d 0 (read_each (grammar_of rows.entry.bytes.now) (parameters_are kind value (grammar_of rows.entry.bytes.now)) (reader_of s.now d)) log.old strings.old log.new strings.new u result }
{
    if grammar::is_mask(kind) {
        return parse_bits(d, s, rows, kind, value, log, strings, u);
    }
    parse_parameters(d, s, rows, place, log, strings, u)
}

// A pair: an id, then a record of one word.
fn parse_pair(
    d: Decoder,
    s: &[u8],
    rows: Rows,
    second: u8,
    log: &mut [u8],
    strings: &mut [u8],
    u: Used,
) -> Answer<Used>
    requires { Few s.now d u × (is_single second ≡ true) }
    ensures { Parses s.now d 4 (read_each (grammar_of rows.entry.bytes.now) (33 ∷ second ∷ []) (reader_of s.now d)) log.old strings.old log.new strings.new u result }
{
    let (n, e) = read_one(d, s, rows, kinds::ID_REF, log, strings, u)?;
    read_one(e, s, rows, second, log, strings, n)
}

// An operand with its parameters.
pub fn parse_operand(
    d: Decoder,
    s: &[u8],
    rows: Rows,
    kind: u8,
    log: &mut [u8],
    strings: &mut [u8],
    u: Used,
) -> Answer<Used>
    requires { Few s.now d u × (is_untyped kind ≡ true) }
    ensures { Parses s.now d 4 (read_operand (grammar_of rows.entry.bytes.now) kind (reader_of s.now d)) log.old strings.old log.new strings.new u result }
{
    if grammar::is_enum(kind) {
        let ((v, place), e) = read_enumerant(d, s, rows, kind)?;
        let n = push(log, kind, v as u64, u);
        return parse_values(e, s, rows, kind, v, place, log, strings, n);
    }
    if kind == kinds::ID_AND_LITERAL {
        return parse_pair(d, s, rows, kinds::INT32, log, strings, u);
    }
    if kind == kinds::ID_AND_ID {
        return parse_pair(d, s, rows, kinds::ID_REF, log, strings, u);
    }
    read_one(d, s, rows, kind, log, strings, u)
}

// The place of the operand that comes next: ZeroOrMore stays.
pub fn next_place(place: usize, quantifier: u8) -> usize
    requires { place ≤ 65535 }
    ensures { result ≡ (if eqb quantifier 2 then place else place + 3) }
{
    if quantifier == 2 {
        return place;
    }
    place + 3
}
