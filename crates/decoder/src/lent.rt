// The decoder lent, and moved in place: thin calls of the by-value methods, and calls that lend one.
ghost use Rattle.std.specs.Prelude.{◌≡◌};
ghost use Rattle.decoder.specs.Answer.{decoder, word_from, long_from, text_from};
ghost use Rattle.decoder.specs.Lent.{given, next, answer_of, pair_from};

use crate::{Answer, Decoder, Text};
use spec::Refusal;

// What came of a word and of the string after it, and the place after both.
#[derive(Clone, Copy)]
pub struct Pair {
    pub word: Result<u32, Refusal>,
    pub text: Result<Text, Refusal>,
    pub next: usize,
}

// An answer without the decoder.
#[tactic(auto, unfolding(crate::specs::Lent::given))]
fn given<T: Copy>(answer: Answer<T>) -> Result<T, Refusal>
    ensures { result ≡ given answer }
{
    match answer {
        Ok((value, _)) => Ok(value),
        Err((refusal, _)) => Err(refusal),
    }
}

// The decoder after an answer.
#[tactic(auto, unfolding(crate::specs::Lent::next))]
fn next<T: Copy>(answer: Answer<T>) -> Decoder
    ensures { result ≡ next answer }
{
    match answer {
        Ok((_, d)) => d,
        Err((_, d)) => d,
    }
}

// What is given, with the decoder after it.
#[tactic(auto, unfolding(crate::specs::Lent::answer_of))]
fn answer_of<T: Copy>(given: Result<T, Refusal>, d: Decoder) -> Answer<T>
    ensures { result ≡ answer_of given d }
{
    match given {
        Ok(value) => Ok((value, d)),
        Err(refusal) => Err((refusal, d)),
    }
}

// A word; the decoder that is lent stands after it.
pub fn word_in(d: &mut Decoder, s: &[u8]) -> Result<u32, Refusal>
    ensures { (result ≡ given (word_from s.now d.old)) × (d.new ≡ next (word_from s.now d.old)) }
{
    let answer = Decoder::word(*d, s);
    *d = next(answer);
    given(answer)
}

// A 64-bit literal; the decoder that is lent stands after it.
pub fn int64_in(d: &mut Decoder, s: &[u8]) -> Result<u64, Refusal>
    ensures { (result ≡ given (long_from s.now d.old)) × (d.new ≡ next (long_from s.now d.old)) }
{
    let answer = Decoder::int64(*d, s);
    *d = next(answer);
    given(answer)
}

// A string; the decoder that is lent stands after it.
pub fn string_in(d: &mut Decoder, s: &[u8]) -> Result<Text, Refusal>
    ensures { (result ≡ given (text_from s.now d.old)) × (d.new ≡ next (text_from s.now d.old)) }
{
    let answer = Decoder::string(*d, s);
    *d = next(answer);
    given(answer)
}

// A word by a decoder that is lent: the same as by value.
#[tactic(auto, using(crate::proofs::Whole::whole))]
pub fn word_lent(d: Decoder, s: &[u8]) -> Answer<u32>
    ensures { result ≡ word_from s.now d }
{
    let mut e = d;
    let given = word_in(&mut e, s);
    answer_of(given, e)
}

// A 64-bit literal by a decoder that is lent: the same as by value.
#[tactic(auto, using(crate::proofs::Whole::whole))]
pub fn int64_lent(d: Decoder, s: &[u8]) -> Answer<u64>
    ensures { result ≡ long_from s.now d }
{
    let mut e = d;
    let given = int64_in(&mut e, s);
    answer_of(given, e)
}

// A string by a decoder that is lent: the same as by value.
#[tactic(auto, using(crate::proofs::Whole::whole))]
pub fn string_lent(d: Decoder, s: &[u8]) -> Answer<Text>
    ensures { result ≡ text_from s.now d }
{
    let mut e = d;
    let given = string_in(&mut e, s);
    answer_of(given, e)
}

// A word and the string after it, from a place, in so many words at most: as an id and its name stand.
pub fn word_and_string(s: &[u8], at: usize, words: usize) -> Pair
    ensures { result ≡ pair_from s.now (decoder at (Some words)) }
{
    let d = Decoder {
        offset: at,
        limit: Some(words),
    };
    let word = word_lent(d, s);
    let text = string_lent(next(word), s);
    Pair {
        word: given(word),
        text: given(text),
        next: next(text).offset,
    }
}
