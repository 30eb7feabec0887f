// An enumerant's word, read with a decoder and any grammar.
#![tactic(auto)]

ghost use Rattle.std.specs.Prelude.{◌≡◌};
ghost use Rattle.spec.specs.Reader.{refusal};
ghost use Rattle.enumerant.specs.Read.{enumerant_from};

use decoder::{Answer, Decoder};
use formed::prepare;
use grammar::{Rows, SIZE};
use spec::{Refusal, refusals};

// A refusal, with the decoder after it.
fn refused(number: u32, place: usize, value: u32, d: Decoder) -> Answer<u32>
    ensures { result ≡ Err (refusal number place value, d) }
{
    let x = Refusal {
        number,
        place,
        value,
    };
    Err((x, d))
}

// An enumerant's word: 24 where the grammar is not well-formed, 9 on a spent limit, 10 at its word where the value is not known.
pub fn enumerant(d: Decoder, s: &[u8], g: &[u8], kind: u8) -> Answer<u32>
    ensures { result ≡ enumerant_from g.now s.now kind d }
{
    let mut index = [0u16; SIZE];
    if !prepare(g, &mut index) {
        return refused(refusals::BAD_GRAMMAR, 0, 0, d);
    }
    let rows = Rows::new(g, &index);
    let at = d.offset();
    if d.limit_reached() {
        return refused(refusals::STREAM_ENDED, at, 0, d);
    }
    let (value, next) = d.word(s)?;
    if rows.is_known(kind, value) {
        return Ok((value, next));
    }
    refused(refusals::ENUMERANT_UNKNOWN, at, value, next)
}
