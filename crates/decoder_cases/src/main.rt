// The decoder's doc example, and its words, 64-bit literals, strings, limits and header at their edges. A line for each call: the
// bytes, the position and the limit; then what came, a value or a refusal's number, place and value, and the position and limit after.
#![tactic(auto)]

use decoder::{Answer, Decoder, Text};
use spec::Refusal;
use std::io;

// Writes some bytes.
fn bytes(rt: &impl Print, s: &[u8]) -> io::Result<()> {
    for b in s {
        print!(rt; "{b:02x}")?;
    }
    Ok(())
}

// Writes a position and a limit.
fn place(rt: &impl Print, d: Decoder) -> io::Result<()> {
    let position = d.offset();
    match d.limit {
        None => print!(rt; " position {position} no limit"),
        Some(n) => print!(rt; " position {position} limit {n}"),
    }
}

// Starts a line: what is read, the bytes, the position and the limit.
fn asked(rt: &impl Print, what: &str, s: &[u8], d: Decoder) -> io::Result<()> {
    print!(rt; "{what} [")?;
    bytes(rt, s)?;
    print!(rt; "]")?;
    place(rt, d)?;
    print!(rt; ": ")
}

// Ends a line with the position and the limit, and hands the decoder on.
fn after(rt: &impl Print, d: Decoder) -> io::Result<Decoder> {
    place(rt, d)?;
    println!(rt;)?;
    Ok(d)
}

// Writes a refusal: its number, 0 for none, its place and its value.
fn refused(rt: &impl Print, x: Refusal) -> io::Result<()> {
    print!(rt; "number {} at {} value {}", x.number, x.place, x.value)
}

// Reads a word.
fn word(rt: &impl Print, s: &[u8], d: Decoder) -> io::Result<Decoder> {
    asked(rt, "word", s, d)?;
    match d.word(s) {
        Ok((w, e)) => {
            print!(rt; "{w:08x}")?;
            after(rt, e)
        }
        Err((x, e)) => {
            refused(rt, x)?;
            after(rt, e)
        }
    }
}

// Ends a line with a 64-bit literal, or why there is none.
fn long(rt: &impl Print, r: Answer<u64>) -> io::Result<Decoder> {
    match r {
        Ok((v, e)) => {
            print!(rt; "{v:016x}")?;
            after(rt, e)
        }
        Err((x, e)) => {
            refused(rt, x)?;
            after(rt, e)
        }
    }
}

// Reads a 64-bit literal.
fn int64(rt: &impl Print, s: &[u8], d: Decoder) -> io::Result<Decoder> {
    asked(rt, "64 bits", s, d)?;
    long(rt, d.int64(s))
}

// Reads a 64-bit literal by a decoder that is lent.
fn int64_lent(rt: &impl Print, s: &[u8], d: Decoder) -> io::Result<Decoder> {
    asked(rt, "64 bits lent", s, d)?;
    long(rt, decoder::int64_lent(d, s))
}

// Writes a string's length, where it starts, and what breaks its padding.
fn span(rt: &impl Print, t: Text) -> io::Result<()> {
    print!(rt; "length {} from {}", t.length, t.start)?;
    if t.breaks != 0 {
        print!(rt; " breaks at {}", t.breaks)?;
    }
    Ok(())
}

// Reads a string.
fn string(rt: &impl Print, s: &[u8], d: Decoder) -> io::Result<Decoder> {
    asked(rt, "string", s, d)?;
    match d.string(s) {
        Ok((t, e)) => {
            span(rt, t)?;
            after(rt, e)
        }
        Err((x, e)) => {
            refused(rt, x)?;
            after(rt, e)
        }
    }
}

// Reads a word and the string after it, each by a decoder that is lent.
fn pair(rt: &impl Print, s: &[u8], offset: usize, words: usize) -> io::Result<()> {
    asked(rt, "lent", s, at(offset).set_limit(words))?;
    let r = decoder::word_and_string(s, offset, words);
    match r.word {
        Ok(w) => print!(rt; "{w:08x}")?,
        Err(x) => refused(rt, x)?,
    }
    print!(rt; " then ")?;
    match r.text {
        Ok(t) => span(rt, t)?,
        Err(x) => refused(rt, x)?,
    }
    println!(rt; " position {}", r.next)
}

// Reads a header: the number, place and value, and the five words.
fn header(rt: &impl Print, s: &[u8]) -> io::Result<()> {
    print!(rt; "header [")?;
    bytes(rt, s)?;
    print!(rt; "]: ")?;
    let r = decoder::header(s);
    refused(rt, r.refusal)?;
    print!(rt; " words ")?;
    for w in r.words {
        print!(rt; "{w:08x}")?;
    }
    println!(rt;)
}

// Asks whether a decoder has a limit, and whether it is reached.
fn limit(rt: &impl Print, d: Decoder) -> io::Result<()> {
    print!(rt; "limit")?;
    place(rt, d)?;
    let there = if d.has_limit() { "there" } else { "none" };
    let reached = if d.limit_reached() {
        "reached"
    } else {
        "not reached"
    };
    println!(rt; ": {there}, {reached}")
}

// A position without a limit.
fn at(offset: usize) -> Decoder {
    Decoder {
        offset,
        limit: None,
    }
}

// The doc example of the crate's decoder.rs.
fn doc_example(rt: &impl Print) -> io::Result<()> {
    let s = b"\x12\x34\x56\x78\x90\xab\xcd\xef\x02\x00\x00\x00";
    let first = word(rt, s, Decoder::new())?;
    let second = word(rt, s, first)?;
    let third = word(rt, s, second)?;
    word(rt, s, third)?;
    Ok(())
}

// Words at the edges of the bytes.
fn words(rt: &impl Print) -> io::Result<()> {
    let s = b"\x00\x01\x02\x03\x04";
    word(rt, b"", at(0))?;
    word(rt, b"\x01\x02\x03", at(0))?;
    word(rt, s, at(1))?;
    word(rt, s, at(2))?;
    word(rt, s, at(18446744073709551612))?;
    word(rt, s, at(18446744073709551615))?;
    Ok(())
}

// Words under a limit: it is tested first, and a stream refusal has taken one from it.
fn limited_words(rt: &impl Print) -> io::Result<()> {
    let s = b"\x01\x00\x00\x00\x02\x00\x00\x00";
    word(rt, s, at(0).set_limit(0))?;
    word(rt, s, at(18446744073709551615).set_limit(0))?;
    word(rt, b"\x01\x02\x03", at(0).set_limit(1))?;
    let spent = word(rt, s, at(0).set_limit(1))?;
    let still = word(rt, s, spent)?;
    word(rt, s, still.clear_limit())?;
    word(rt, s, at(0).set_limit(18446744073709551615))?;
    Ok(())
}

// 64-bit literals: a second word that is missing leaves the position four bytes on.
fn longs(rt: &impl Print) -> io::Result<()> {
    let s = b"\x01\x00\x00\x00\x02\x00\x00\x80";
    let half = b"\x01\x02\x03\x04";
    int64(rt, s, at(0))?;
    int64(rt, b"\x01\x02\x03", at(0))?;
    int64(rt, half, at(0))?;
    int64(rt, s, at(18446744073709551608))?;
    int64(rt, s, at(0).set_limit(0))?;
    int64(rt, s, at(0).set_limit(1))?;
    int64(rt, half, at(0).set_limit(1))?;
    int64(rt, half, at(0).set_limit(2))?;
    int64(rt, s, at(0).set_limit(2))?;
    Ok(())
}

// Strings without a limit: the last word's padding may be missing.
fn strings(rt: &impl Print) -> io::Result<()> {
    string(rt, b"abcd\x00\x00\x00\x00", at(0))?;
    string(rt, b"abc\x00", at(0))?;
    string(rt, b"ab\x00", at(0))?;
    string(rt, b"a\x00", at(0))?;
    let past = string(rt, b"\x00", at(0))?;
    string(rt, b"\x00", past)?;
    string(rt, b"a\x00\x01", at(0))?;
    string(rt, b"a\x00\x00\x02", at(0))?;
    string(rt, b"\x00\x00\x00\x00\x03", at(0))?;
    string(rt, b"abcd\x00abc\x04", at(4).set_limit(1))?;
    string(rt, b"abcd", at(0))?;
    string(rt, b"abc\x00", at(1))?;
    string(rt, b"abc\x00", at(4))?;
    string(rt, b"abc\x00", at(5))?;
    string(rt, b"abc\x00", at(18446744073709551615))?;
    Ok(())
}

// Strings under a limit: only its bytes are searched; it may not run past the bytes, also where four times the limit would wrap.
fn limited_strings(rt: &impl Print) -> io::Result<()> {
    let s = b"abc\x00defg";
    string(rt, b"abc\x00", at(0).set_limit(1))?;
    string(rt, s, at(0).set_limit(2))?;
    string(rt, s, at(4).set_limit(1))?;
    string(rt, s, at(0).set_limit(0))?;
    string(rt, s, at(8).set_limit(0))?;
    string(rt, s, at(9).set_limit(0))?;
    string(rt, s, at(8).set_limit(1))?;
    string(rt, b"abc\x00def", at(0).set_limit(2))?;
    string(rt, s, at(0).set_limit(4611686018427387905))?;
    string(rt, s, at(0).set_limit(18446744073709551615))?;
    string(rt, s, at(18446744073709551615).set_limit(1))?;
    Ok(())
}

// Strings that are UTF-8 and that are not, at the edges of Unicode's table: overlong forms, surrogates, past the last character,
// a character cut short; and what stands after the zero byte, which is not looked at.
fn utf8(rt: &impl Print) -> io::Result<()> {
    string(rt, b"\xc2\x80\x00", at(0))?;
    string(rt, b"\xc1\xbf\x00", at(0))?;
    string(rt, b"\xe0\x9f\xbf\x00", at(0))?;
    string(rt, b"\xed\x9f\xbf\x00", at(0))?;
    string(rt, b"\xed\xa0\x80\x00", at(0))?;
    string(rt, b"\xf0\x8f\xbf\xbf\x00", at(0))?;
    string(rt, b"\xf4\x8f\xbf\xbf\x00", at(0))?;
    string(rt, b"\xf4\x90\x80\x80\x00", at(0))?;
    string(rt, b"\xe2\x82\x00\x00", at(0).set_limit(1))?;
    string(rt, b"abcd\x80\x00", at(4))?;
    string(rt, b"a\x00\xff\xff", at(0))?;
    Ok(())
}

// Limits set and cleared.
fn limits(rt: &impl Print) -> io::Result<()> {
    limit(rt, Decoder::new())?;
    limit(rt, at(4).set_limit(0))?;
    limit(rt, at(4).set_limit(1))?;
    limit(rt, at(4).set_limit(0).clear_limit())?;
    Ok(())
}

// The decoder lent: a word and a string; a word that spends the limit; a word that is refused and has taken one from the limit, as by
// value, so that the string finds it spent. A 64-bit literal; its second word missing, which leaves the position four bytes on; a limit
// of one word.
fn lent(rt: &impl Print) -> io::Result<()> {
    let s = b"\x07\x00\x00\x00main\x00\x00\x00\x00";
    let long = b"\x01\x00\x00\x00\x02\x00\x00\x80";
    pair(rt, s, 0, 3)?;
    pair(rt, s, 0, 1)?;
    pair(rt, b"\x01\x02\x03", 0, 1)?;
    int64_lent(rt, long, at(0).set_limit(2))?;
    int64_lent(rt, b"\x01\x02\x03\x04", at(0).set_limit(2))?;
    int64_lent(rt, long, at(0).set_limit(1))?;
    Ok(())
}

// Headers: too few bytes, also with a wrong magic number; a right one; a wrong one; one whose bytes are swapped.
fn headers(rt: &impl Print) -> io::Result<()> {
    header(rt, b"\x03\x02\x23\x07")?;
    header(
        rt,
        b"\x03\x02\x23\x07\x00\x05\x01\x00\x00\x00\x00\x00\x0a\x00\x00\x00\x00\x00\x00",
    )?;
    header(
        rt,
        b"\x04\x02\x23\x07\x00\x05\x01\x00\x00\x00\x00\x00\x0a\x00\x00\x00\x00\x00\x00",
    )?;
    header(
        rt,
        b"\x03\x02\x23\x07\x00\x05\x01\x00\x78\x56\x34\x12\x0a\x00\x00\x00\xff\x00\x00\x80",
    )?;
    header(
        rt,
        b"\x04\x02\x23\x07\x00\x05\x01\x00\x00\x00\x00\x00\x0a\x00\x00\x00\x00\x00\x00\x00",
    )?;
    header(
        rt,
        b"\x07\x23\x02\x03\x00\x05\x01\x00\x00\x00\x00\x00\x0a\x00\x00\x00\x00\x00\x00\x00",
    )?;
    Ok(())
}

fn main(rt: HostRuntime) -> io::Result<()> {
    doc_example(&rt)?;
    words(&rt)?;
    limited_words(&rt)?;
    longs(&rt)?;
    strings(&rt)?;
    limited_strings(&rt)?;
    utf8(&rt)?;
    limits(&rt)?;
    lent(&rt)?;
    headers(&rt)
}
