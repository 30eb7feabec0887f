// One instruction as bytes: its first word, its result words, its operands.
#![tactic(auto)]

ghost use Rattle.std.specs.Prelude.{◌≡◌, true, ◌+◌, ◌*◌, ◌≤◌, length, get_or};
ghost use Rattle.std.proofs.lemmas.List.Edits.{sets};
ghost use Rattle.spec.specs.Text.{padded};
ghost use Rattle.spec.specs.Records.{id_bytes, operand_bytes, instr_bytes};
ghost use Rattle.spec.specs.Check.{field_in};
ghost use Rattle.operand.specs.Parts.{is_two};
ghost use Rattle.records.specs.Good.{operand_at};
ghost use Rattle.records.specs.Steps.{word_if, result_words};
ghost use Rattle.spelled.specs.Spelled.{Readable, operand_after, head_bytes, said_by, Sound};
ghost use Rattle.spelled.specs.Placing.{GoodStores, good_stores_prop};

use operand::is_two;
use spec::{Fields, kinds};
use words::{put_bytes, put_word};

// OPERANDS

// A string: its bytes, its zero, and zeros to the end of the last word, which is zeroed first.
fn put_text(out: &mut [u8], s: &[u8]) -> usize
    requires { length (padded s.now) ≤ length out.old }
    ensures value { result ≡ length (padded s.now) }
    ensures out_after { out.new ≡ sets out.old 0 (padded s.now) }
{
    let n = s.len();
    let last = n - n % 4;
    put_word(out, last, 0);
    put_bytes(out, 0, s);
    last + 4
}

// The operand at a place of the log, where its kind has two words: a string, or a literal. How many bytes it is.
fn put_two(log: &[u8], strings: &[u8], a: usize, out: &mut [u8]) -> usize
    requires readable { Readable log.now strings.now a }
    requires a_value { is_two (get_or log.now a 0) ≡ true }
    requires a_in_bounds { length (operand_bytes (operand_at log.now strings.now a)) ≤ length out.old }
    ensures value { result ≡ length (operand_bytes (operand_at log.now strings.now a)) }
    ensures out_after { out.new ≡ sets out.old 0 (operand_bytes (operand_at log.now strings.now a)) }
{
    let low = words::word_at(log, a + 1);
    let high = words::word_at(log, a + 5);
    if log[a] == kinds::STRING {
        let start = low as usize;
        let end = start + (high as usize);
        return put_text(out, &strings[start..end]);
    }
    put_word(out, 0, low);
    put_word(out, 4, high);
    8
}

// Whether a kind has two words. None below 36 has, and most are: these are told by one test.
fn has_two(kind: u8) -> bool
    ensures { result ≡ is_two kind }
{
    if kind < kinds::INT64 {
        return false;
    }
    is_two(kind)
}

// The places that are reached in the log and in the output.
#[derive(Clone, Copy)]
struct Reached {
    log: usize,
    out: usize,
}

// The operand at a place of the log, at the start of the output: the places after both.
fn put_operand(log: &[u8], strings: &[u8], a: usize, out: &mut [u8]) -> Reached
    requires readable { Readable log.now strings.now a }
    requires a_in_bounds { length (operand_bytes (operand_at log.now strings.now a)) ≤ length out.old }
    ensures log_value { result.log ≡ operand_after log.now a }
    ensures out_value { result.out ≡ length (operand_bytes (operand_at log.now strings.now a)) }
    ensures out_after { out.new ≡ sets out.old 0 (operand_bytes (operand_at log.now strings.now a)) }
{
    if has_two(log[a]) {
        let n = put_two(log, strings, a, out);
        return Reached { log: a + 9, out: n };
    }
    put_word(out, 0, words::word_at(log, a + 1));
    Reached { log: a + 5, out: 4 }
}

// THE INSTRUCTION

// A result word that is there, stored at a place: the place after it.
fn put_result(out: &mut [u8], at: usize, word: u32, there: bool) -> usize
    requires at_bound { at ≤ 8 }
    requires there_in_bounds { at + 4 * word_if there ≤ length out.old }
    ensures value { result ≡ at + 4 * word_if there }
    ensures out_after { out.new ≡ sets out.old at (id_bytes (field_in there word)) }
{
    if there {
        put_word(out, at, word);
        return at + 4;
    }
    at
}

// First word and result words: how many bytes they are.
fn put_head(f: Fields, out: &mut [u8]) -> usize
    requires words_bound { f.words ≤ 65535 }
    requires f_in_bounds { 4 + 4 * result_words f ≤ length out.old }
    ensures value { result ≡ 4 + 4 * result_words f }
    ensures out_after { out.new ≡ sets out.old 0 (head_bytes f) }
{
    let bits = f.head / 65536;
    put_word(out, 0, f.head % 65536 + 65536 * f.words);
    let at = put_result(out, 4, f.rtype, bits % 2 == 1);
    put_result(out, at, f.rid, 2 <= bits)
}

// The instruction of a record, at the start of the output: each operand into the rest of it that follows the one before.
pub fn put_instruction(log: &[u8], strings: &[u8], f: Fields, out: &mut [u8])
    requires sound { Sound log.now strings.now f }
    requires words_in_bounds { 4 * f.words ≤ length out.old }
    ensures { out.new ≡ sets out.old 0 (instr_bytes (said_by log.now strings.now f).instr) }
{
    let mut at = put_head(f, out);
    let mut a = f.start as usize;
    for _ in 0..f.count {
        let next = put_operand(log, strings, a, &mut out[at..]);
        a = next.log;
        at += next.out;
    }
}

// GOOD RECORDS

// Records that passed the check, with the log and the strings that they name.
#[derive(Clone, Copy)]
pub struct Good<'a> {
    pub instructions: &'a [u32],
    pub log: &'a [u8],
    pub strings: &'a [u8],
    pub count: usize,
    pub ghost stores: { GoodStores instructions.now log.now strings.now count } by { good_stores_prop instructions.now log.now strings.now count },
}
