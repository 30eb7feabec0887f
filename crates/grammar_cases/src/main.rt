// Puts the rules of a well-formed grammar to the check, each with a smallest grammar that breaks only it and one that just meets it, and
// writes a line for each: the rule's case in words, and yes or no. The cases are read from standard input, a line each: the words, a
// colon, and the grammar's bytes, each as a space and three decimal digits. The two grammars of the rule on the length are made here.
#![tactic(auto)]

ghost use Rattle.std.specs.Prelude.{◌≡◌, ◌+◌, ◌*◌, ◌≤◌, length, IfOk};

use std::io;
use std::io::Write;

// Writes a case in words and what the check says of its grammar.
fn case(rt: &impl Print, words: &[u8], g: &[u8]) -> io::Result<()> {
    io::writer(rt).write_all(words)?;
    let answer = if formed::well_formed(g) { "yes" } else { "no" };
    println!(rt; ": {answer}")
}

// Rows without operands, three bytes each, with opcodes that rise from 23 on.
fn fill_rows(g: &mut [u8])
    ensures { length g.new ≡ length g.old }
{
    for (row, opcode) in g.chunks_exact_mut(3).zip(23u16..) {
        let [low, high] = opcode.to_le_bytes();
        row.copy_from_slice(&[1, low, high]);
    }
}

// An enumerant of kind 9 and two parameters of kind 33, in the last ten bytes.
fn put_tail(g: &mut [u8])
    requires { 10 ≤ length g.old }
    ensures { length g.new ≡ length g.old }
{
    let at = g.len() - 10;
    g[at..].copy_from_slice(b"\x03\x09\x01\x00\x00\x00\x04\x21\x04\x21");
}

// "at most 65,535 bytes": rows alone; then fewer rows, an enumerant and two parameters.
fn lengths(rt: &impl Print) -> io::Result<()> {
    let mut g = [0u8; 65536];
    fill_rows(&mut g);
    case(rt, b"65,535 bytes", &g[..65535])?;
    put_tail(&mut g);
    case(rt, b"65,536 bytes", &g)
}

// The byte in three decimal digits.
fn byte_of(a: u8, b: u8, c: u8) -> u8 {
    let n = 100 * u32::from(a % 16) + 10 * u32::from(b % 16) + u32::from(c % 16);
    (n % 256) as u8
}

// The bytes of a grammar from their digits, as many as there is room for: how many there are.
fn bytes_in(digits: &[u8], g: &mut [u8]) -> usize
    ensures { result ≤ length g.new }
{
    for (byte, d) in g.iter_mut().zip(digits.chunks_exact(4)) {
        *byte = byte_of(d[1], d[2], d[3]);
    }
    g.len().min(digits.len() / 4)
}

// The place of the first byte b from a place on, or the text's length.
fn find(text: &[u8], from: usize, b: u8) -> usize
    requires { from ≤ length text.now }
    ensures { (from ≤ result) × (result ≤ length text.now) }
{
    match text[from..].iter().position(|c| *c == b) {
        Some(i) => from + i,
        None => text.len(),
    }
}

// Tries the case of the line that starts at a place: where that line ends.
fn line(rt: &impl Print, text: &[u8], at: usize) -> io::Result<usize>
    requires { at ≤ length text.now }
    ensures { IfOk result (λ end. (at ≤ end) × (end ≤ length text.now)) }
{
    let colon = find(text, at, b':');
    let end = find(text, colon, b'\n');
    let mut g = [0u8; 64];
    let digits = text[colon..end].get(1..).unwrap_or(&[]);
    let n = bytes_in(digits, &mut g);
    case(rt, &text[at..colon], &g[..n])?;
    Ok(end)
}

// The cases on the length, then those of standard input.
fn main(rt: HostRuntime) -> io::Result<()> {
    lengths(&rt)?;
    let mut text = [0u8; 16384];
    let n = reading::read_full(&mut rt.reader(), &mut text)?;
    let mut at = 0;
    while at < n {
        at = line(&rt, &text[..n], at)? + 1;
    }
    Ok(())
}
