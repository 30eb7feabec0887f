// The decoder: a position and a limit over bytes that are lent, as a value whose calls hand it back; and the header.
#![tactic(auto)]

ghost use Rattle.std.specs.Prelude.{◌≡◌, false, [], ◌∷◌, ◌+◌, ◌*◌, ◌<◌, ◌≤◌, ltb, length, take, drop};
ghost use Rattle.std.proofs.Math.Seq.{slice};
ghost use Rattle.spec.specs.Text.{text_words, text_break};
ghost use Rattle.spec.specs.Reader.{refusal};
ghost use Rattle.spec.specs.Header.{magic_fault, no_header, header_from};
ghost use Rattle.decoder.specs.Answer.{decoder, set_limit, clear_limit, has_limit, limit_reached, word_from, long_from, text_from};
ghost use Rattle.decoder.specs.Steps.{take_one, end_in};

mod lent;

pub use lent::{
    Pair, int64_in, int64_lent, string_in, string_lent, word_and_string, word_in, word_lent,
};
use spec::{HeaderRead, Refusal, refusals};
use words::word_at;

// A position in some bytes, and how many words may still be read: any number, or so many.
#[derive(Clone, Copy)]
pub struct Decoder {
    pub offset: usize,
    pub limit: Option<usize>,
}

// A value, or a refusal; each with the decoder after it.
pub type Answer<T> = Result<(T, Decoder), (Refusal, Decoder)>;

// A string: where its bytes start, how many there are, and where the first byte is that is not zero from its zero to the end of its
// last word, or 0.
#[derive(Clone, Copy)]
pub struct Text {
    pub start: usize,
    pub length: usize,
    pub breaks: usize,
}

// Whether the stream ends before the word at a place does.
fn stream_ends(s: &[u8], at: usize) -> bool
    ensures { result ≡ ltb (length s.now) (at + 4) }
{
    s.len() < 4 || s.len() - 4 < at
}

// A header that is refused.
fn no_header(number: u32, place: usize) -> HeaderRead
    ensures { result ≡ no_header number place }
{
    let refusal = Refusal {
        number,
        place,
        value: 0,
    };
    HeaderRead {
        refusal,
        words: [0; 5],
    }
}

// What is wrong with a magic number: nothing, or 3 where its bytes are swapped, else 2.
fn magic_fault(magic: u32) -> u32
    ensures { result ≡ magic_fault (magic ∷ []) }
{
    if magic == 0x07230203 {
        return refusals::ACCEPTED;
    }
    if magic == 0x03022307 {
        return refusals::HEADER_SWAPPED;
    }
    refusals::HEADER_INCORRECT
}

// The five header words together, or a refusal: 1 at the missing word, 2 or 3 by the magic number.
pub fn header(s: &[u8]) -> HeaderRead
    ensures { result ≡ header_from s.now }
{
    if s.len() < 20 {
        return no_header(refusals::HEADER_INCOMPLETE, 4 * (s.len() / 4));
    }
    let magic = word_at(s, 0);
    let fault = magic_fault(magic);
    if fault != refusals::ACCEPTED {
        return no_header(fault, 0);
    }
    let refusal = Refusal {
        number: refusals::ACCEPTED,
        place: 0,
        value: 0,
    };
    HeaderRead {
        refusal,
        words: [
            magic,
            word_at(s, 4),
            word_at(s, 8),
            word_at(s, 12),
            word_at(s, 16),
        ],
    }
}

// Why there is no string at the start of some bytes: no zero byte, or bytes before it that are not UTF-8.
#[derive(Clone, Copy)]
enum NoString {
    NoZero,
    NotUtf8,
}

// After how many bytes the string at the start of some bytes ends.
fn string_end(part: &[u8]) -> Result<usize, NoString>
    ensures { result ≡ end_in part.now }
{
    let found = text::zero(part);
    let Some(n) = found else {
        return Err(NoString::NoZero);
    };
    if text::utf8(&part[..n]) {
        return Ok(n);
    }
    Err(NoString::NotUtf8)
}

// Where the words of a string of `n` bytes end, or all bytes before them.
fn text_end(s: &[u8], at: usize, n: usize) -> usize
    requires { at + n < length s.now }
    ensures { (slice (at + n) result s.now ≡ drop n (take (4 * text_words n) (drop at s.now))) × (result ≤ length s.now) }
{
    (at + 4 * (n / 4 + 1)).min(s.len())
}

// Where the first byte is that is not zero, from the zero of a string of `n` bytes to the end of its last word or of all bytes; 0 for
// none.
fn text_break(s: &[u8], at: usize, n: usize) -> usize
    requires { at + n < length s.now }
    ensures { result ≡ text_break at n (drop at s.now) }
{
    let to = text_end(s, at, n);
    for i in at + n..to {
        if s[i] != 0 {
            return i;
        }
    }
    0
}

impl Decoder {
    // The start of some bytes, with no limit.
    pub fn new() -> Decoder
        ensures { result ≡ decoder 0 None }
    {
        Decoder {
            offset: 0,
            limit: None,
        }
    }

    // The offset of the byte to decode next.
    pub fn offset(self) -> usize
        ensures { result ≡ self.offset }
    {
        self.offset
    }

    // At most `n` words from here on.
    #[tactic(auto, unfolding(crate::specs::Answer::set_limit))]
    pub fn set_limit(self, n: usize) -> Decoder
        ensures { result ≡ set_limit n self }
    {
        Decoder {
            limit: Some(n),
            ..self
        }
    }

    // No limit from here on.
    #[tactic(auto, unfolding(crate::specs::Answer::clear_limit))]
    pub fn clear_limit(self) -> Decoder
        ensures { result ≡ clear_limit self }
    {
        Decoder {
            limit: None,
            ..self
        }
    }

    // Whether there is a limit.
    #[tactic(auto, unfolding(crate::specs::Answer::has_limit))]
    pub fn has_limit(self) -> bool
        ensures { result ≡ has_limit self }
    {
        self.limit.is_some()
    }

    // Whether there is a limit and no word is left of it.
    #[tactic(auto, unfolding(crate::specs::Answer::limit_reached))]
    pub fn limit_reached(self) -> bool
        ensures { result ≡ limit_reached self }
    {
        match self.limit {
            None => false,
            Some(n) => n == 0,
        }
    }

    // A refusal: nothing moves.
    fn refused<T>(self, number: u32, place: usize) -> Answer<T>
        ensures { result ≡ Err (refusal number place 0, self) }
    {
        let refusal = Refusal {
            number,
            place,
            value: 0,
        };
        Err((refusal, self))
    }

    // One word less in the limit, where there is one.
    fn take_one(self) -> Decoder
        requires { limit_reached self ≡ false }
        ensures { result ≡ take_one self }
    {
        match self.limit {
            None => self,
            Some(n) => Decoder {
                limit: Some(n - 1),
                ..self
            },
        }
    }

    // A word: the limit is tested first, then the stream; a stream refusal has taken one from the limit.
    pub fn word(self, s: &[u8]) -> Answer<u32>
        ensures { result ≡ word_from s.now self }
    {
        let at = self.offset;
        let spent = self.limit_reached();
        let ended = stream_ends(s, at);
        if spent {
            return self.refused(refusals::LIMIT_REACHED, at);
        }
        let taken = self.take_one();
        if ended {
            return taken.refused(refusals::STREAM_ENDED, taken.offset);
        }
        let next = Decoder {
            offset: at + 4,
            ..taken
        };
        Ok((word_at(s, at), next))
    }

    // A 64-bit literal: two words, low first.
    pub fn int64(self, s: &[u8]) -> Answer<u64>
        ensures { result ≡ long_from s.now self }
    {
        let (low, d) = self.word(s)?;
        let (high, e) = d.word(s)?;
        Ok(((low as u64) + 4294967296 * (high as u64), e))
    }

    // A string in all bytes from the position on: no zero byte is 9 at its start.
    fn free_string(mut self, s: &[u8]) -> Answer<Text>
        requires { (self.limit ≡ None) × (self.offset ≤ length s.now) }
        ensures { result ≡ text_from s.now self }
    {
        let at = self.offset;
        match string_end(&s[at..]) {
            Ok(n) => {
                let breaks = text_break(s, at, n);
                self.offset = at + 4 * (n / 4 + 1);
                let text = Text {
                    start: at,
                    length: n,
                    breaks,
                };
                Ok((text, self))
            }
            Err(NoString::NoZero) => self.refused(refusals::STREAM_ENDED, at),
            Err(NoString::NotUtf8) => self.refused(refusals::NOT_UTF8, at),
        }
    }

    // A string in the limit's `m` words: past the bytes is 9 at its start, no zero byte 8 at their end.
    fn limited_string(mut self, s: &[u8], m: usize) -> Answer<Text>
        requires { (self.limit ≡ Some m) × (self.offset ≤ length s.now) }
        ensures { result ≡ text_from s.now self }
    {
        let at = self.offset;
        if (s.len() - at) / 4 < m {
            return self.refused(refusals::STREAM_ENDED, at);
        }
        let to = at + 4 * m;
        match string_end(&s[at..to]) {
            Ok(n) => {
                let breaks = text_break(s, at, n);
                let words = n / 4 + 1;
                self = Decoder {
                    offset: at + 4 * words,
                    limit: Some(m - words),
                };
                let text = Text {
                    start: at,
                    length: n,
                    breaks,
                };
                Ok((text, self))
            }
            Err(NoString::NoZero) => self.refused(refusals::LIMIT_REACHED, to),
            Err(NoString::NotUtf8) => self.refused(refusals::NOT_UTF8, at),
        }
    }

    // A string; from beyond the bytes it is 9 at its start.
    pub fn string(mut self, s: &[u8]) -> Answer<Text>
        ensures { result ≡ text_from s.now self }
    {
        let at = self.offset;
        let limit = self.limit;
        if s.len() < at {
            return self.refused(refusals::STREAM_ENDED, at);
        }
        match limit {
            None => self.free_string(s),
            Some(m) => self.limited_string(s, m),
        }
    }
}
