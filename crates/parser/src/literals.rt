// Literals of a kind, read.
ghost use Rattle.std.specs.Prelude.{◌≡◌, true};
ghost use Rattle.decoder.specs.Answer.{reader_of};
ghost use Rattle.used.specs.Parse.{Few, Parses, is_literal, literal_alone, pair_alone};

use decoder::{Answer, Decoder};
use grammar::Rows;
use spec::{kinds, refusals};
use untyped::read_one;
use used::{Used, push, refused};

// A literal of a kind: 12 where there is none, before a word is read.
pub fn parse_literal(
    d: Decoder,
    s: &[u8],
    rows: Rows,
    literal: Option<u8>,
    log: &mut [u8],
    strings: &mut [u8],
    u: Used,
) -> Answer<Used>
    requires { Few s.now d u × (is_literal literal ≡ true) }
    ensures { Parses s.now d 4 (literal_alone literal (reader_of s.now d)) log.old strings.old log.new strings.new u result }
{
    let Some(kind) = literal else {
        return refused(refusals::WIDTH_UNSUPPORTED, d.offset, d);
    };
    if (kind == kinds::INT64) | (kind == kinds::FLOAT64) {
        let (v, e) = d.int64(s)?;
        return Ok((push(log, kind, v, u), e));
    }
    read_one(d, s, rows, kind, log, strings, u)
}

// A literal of a kind, then an id.
pub fn parse_literal_pair(
    d: Decoder,
    s: &[u8],
    rows: Rows,
    literal: Option<u8>,
    log: &mut [u8],
    strings: &mut [u8],
    u: Used,
) -> Answer<Used>
    requires { Few s.now d u × (is_literal literal ≡ true) }
    ensures { Parses s.now d 4 (pair_alone literal (reader_of s.now d)) log.old strings.old log.new strings.new u result }
{
    let (n, e) = parse_literal(d, s, rows, literal, log, strings, u)?;
    read_one(e, s, rows, kinds::ID_REF, log, strings, n)
}
