// Records in lent stores: the getters and the setters of an instruction record, the check behind refusal 30, and the operands of checked
// records.
#![tactic(auto)]

ghost use Rattle.std.specs.Prelude.{◌≡◌, true, ◌+◌, ◌*◌, ◌≤◌, length, drop};
ghost use Rattle.std.proofs.lemmas.List.Edits.{sets};
ghost use Rattle.spec.specs.Records.{field_size, field_words, fields_at, record_size, record_words};
ghost use Rattle.text.specs.AsciiText.{is_ascii_text};
ghost use Rattle.spec.specs.Check.{take_operand, take_operands, fault_of};
ghost use Rattle.records.specs.Steps.{given, end_answer, left_at, fields_hold, offset_after, result_words, is_string, text_passed, passed_one, passed_all, operands_after, tag_after, is_outside, at_most, fault_in};
ghost use Rattle.records.specs.Good.{numbers_at, Whole, Logged};

use operand::{Parts, is_two};
use reflect::Layout;
use spec::{Fields, Numbers, State, kinds};

// How many words the fields of an instruction record have, which were last season's whole record.
pub const FIELDS: usize = 8;

// How many words an instruction record has.
pub const RECORD: usize = 10;

// The fields of the record at a place: what its words mean is said here and in the setters alone.
#[tactic(auto, using(crate::proofs::Fields::fields_drop))]
pub fn fields_at(instructions: &[u32], at: usize) -> Fields
    requires { at + field_size ≤ length instructions.now }
    ensures { result ≡ fields_at (drop at instructions.now) }
{
    Fields {
        head: instructions[at],
        tag: instructions[at + 1],
        offset: instructions[at + 2],
        rtype: instructions[at + 3],
        rid: instructions[at + 4],
        start: instructions[at + 5],
        count: instructions[at + 6],
        words: instructions[at + 7],
    }
}

// The numbers of the record at a place, its words after the fields.
#[tactic(auto, using(crate::proofs::Fields::numbers_drop))]
pub fn numbers_at(instructions: &[u32], at: usize) -> Numbers
    requires { at + record_size ≤ length instructions.now }
    ensures { result ≡ numbers_at (drop at instructions.now) }
{
    Numbers {
        function: instructions[at + 8],
        block: instructions[at + 9],
    }
}

// The fields of the record of an index, the first being 0.
pub fn record_at(instructions: &[u32], i: usize) -> Fields
    requires { record_size * i + record_size ≤ length instructions.now }
    ensures { result ≡ fields_at (drop (record_size * i) instructions.now) }
{
    fields_at(instructions, RECORD * i)
}

// Fields, stored at a place.
pub fn put_fields(instructions: &mut [u32], at: usize, f: Fields)
    requires { at + field_size ≤ length instructions.old }
    ensures { instructions.new ≡ sets instructions.old at (field_words f) }
{
    instructions[at] = f.head;
    instructions[at + 1] = f.tag;
    instructions[at + 2] = f.offset;
    instructions[at + 3] = f.rtype;
    instructions[at + 4] = f.rid;
    instructions[at + 5] = f.start;
    instructions[at + 6] = f.count;
    instructions[at + 7] = f.words;
}

// A record, stored at a place: its fields, then its numbers.
pub fn put_record(instructions: &mut [u32], at: usize, f: Fields, n: Numbers)
    requires { at + record_size ≤ length instructions.old }
    ensures { instructions.new ≡ sets instructions.old at (record_words f n) }
{
    put_fields(instructions, at, f);
    instructions[at + 8] = n.function;
    instructions[at + 9] = n.block;
}

// THE CHECK

// 1. FIELDS AND OFFSETS

// Whether the presence bits are known, and no result field is there without its bit.
#[tactic(auto, unfolding(crate::specs::Steps::fields_hold))]
fn fields_hold(f: Fields) -> bool
    ensures { result ≡ fields_hold f }
{
    let bits = f.head / 65536;
    (bits <= 3) & (!(bits % 2 == 0) | (f.rtype == 0)) & (!(bits < 2) | (f.rid == 0))
}

// The offset after a record that should stand at one, where its fields are good.
fn offset_after(at: usize, f: Fields) -> Option<usize>
    ensures { result ≡ offset_after at f }
{
    if !fields_hold(f) {
        return None;
    }
    if (f.offset as usize) != at {
        return None;
    }
    if 65535 < f.words {
        return None;
    }
    Some(at + 4 * (f.words as usize))
}

// 2. LOG AND STRINGS

// Where log and strings go on after operands, and how many words they take.
#[derive(Clone, Copy)]
struct Passed {
    log: usize,
    strings: usize,
    words: usize,
}

// Whether the bytes may be a string: no zero byte, and UTF-8, as ASCII text is.
fn is_string(s: &[u8]) -> bool
    ensures { result ≡ is_string s.now }
{
    text::is_ascii_text(s) || (text::zero(s).is_none() && text::utf8(s))
}

// A string of the log: it starts where the strings go on, and lies in them. Where they all are ASCII text, so is it.
fn pass_text(
    ascii: bool,
    strings: &[u8],
    log_at: usize,
    strings_at: usize,
    start: u32,
    size: u32,
) -> Option<Passed>
    requires strings_at_in_bounds { strings_at ≤ length strings.now }
    requires log_at_bound { log_at + 9 ≤ 18446744073709551615 }
    requires strings_value { ascii ≡ true → is_ascii_text strings.now ≡ true }
    ensures { result ≡ text_passed strings.now log_at strings_at start size }
{
    if (start as usize) != strings_at {
        return None;
    }
    let n = size as usize;
    if strings.len() - strings_at < n {
        return None;
    }
    let end = strings_at + n;
    if ascii {
        return Some(Passed {
            log: log_at + 9,
            strings: end,
            words: n / 4 + 1,
        });
    }
    if is_string(&strings[strings_at..end]) {
        return Some(Passed {
            log: log_at + 9,
            strings: end,
            words: n / 4 + 1,
        });
    }
    None
}

// The operand at a place of the log.
fn pass_operand(
    ascii: bool,
    log: &[u8],
    strings: &[u8],
    log_at: usize,
    strings_at: usize,
) -> Option<Passed>
    requires log_at_in_bounds { (log_at ≤ length log.now) × (strings_at ≤ length strings.now) }
    requires strings_value { ascii ≡ true → is_ascii_text strings.now ≡ true }
    ensures { result ≡ passed_one (take_operand (left_at log.now strings.now log_at strings_at)) }
{
    let left = log.len() - log_at;
    if left < 5 {
        return None;
    }
    let kind = log[log_at];
    if kind < 1 {
        return None;
    }
    if kind < kinds::INT64 {
        return Some(Passed {
            log: log_at + 5,
            strings: strings_at,
            words: 1,
        });
    }
    if 45 < kind {
        return None;
    }
    if !is_two(kind) {
        return Some(Passed {
            log: log_at + 5,
            strings: strings_at,
            words: 1,
        });
    }
    if left < 9 {
        return None;
    }
    if kind == kinds::STRING {
        let start = words::word_at(log, log_at + 1);
        let size = words::word_at(log, log_at + 5);
        return pass_text(ascii, strings, log_at, strings_at, start, size);
    }
    Some(Passed {
        log: log_at + 9,
        strings: strings_at,
        words: 2,
    })
}

// So many operands from a place of the log on.
fn pass_operands(
    ascii: bool,
    log: &[u8],
    strings: &[u8],
    count: usize,
    log_at: usize,
    strings_at: usize,
) -> Option<Passed>
    requires log_at_in_bounds { (log_at ≤ length log.now) × (strings_at ≤ length strings.now) }
    requires strings_value { ascii ≡ true → is_ascii_text strings.now ≡ true }
    ensures { result ≡ passed_all 0 (take_operands count (left_at log.now strings.now log_at strings_at)) }
{
    let mut passed = Passed {
        log: log_at,
        strings: strings_at,
        words: 0,
    };
    for _ in 0..count {
        let next = pass_operand(ascii, log, strings, passed.log, passed.strings)?;
        passed = Passed {
            words: passed.words + next.words,
            ..next
        };
    }
    Some(passed)
}

// How many words the results of a record take.
#[tactic(auto, using(crate::proofs::Fields::word_few), unfolding(crate::specs::Steps::result_words, crate::specs::Steps::word_if))]
fn result_words(f: Fields) -> usize
    ensures { result ≡ result_words f }
{
    let bits = f.head / 65536;
    (bits % 2 == 1) as usize + (2 <= bits) as usize
}

// A record's operands, which start where the log goes on, and its word count.
fn operands_after(
    ascii: bool,
    log: &[u8],
    strings: &[u8],
    log_at: usize,
    strings_at: usize,
    f: Fields,
) -> Option<Passed>
    requires log_at_in_bounds { (log_at ≤ length log.now) × (strings_at ≤ length strings.now) }
    requires strings_value { ascii ≡ true → is_ascii_text strings.now ≡ true }
    ensures { result ≡ operands_after f (left_at log.now strings.now log_at strings_at) }
{
    if (f.start as usize) != log_at {
        return None;
    }
    let passed = pass_operands(ascii, log, strings, f.count as usize, log_at, strings_at)?;
    if (f.words as usize) == 1 + result_words(f) + passed.words {
        return Some(passed);
    }
    None
}

// 3. TAGS

// The state after a record that has the tag which the table gives for its opcode.
fn tag_after(layout: &Layout, s: State, f: Fields) -> Option<State>
    ensures { result ≡ tag_after s f }
{
    let Ok((tag, next)) = layout.place((f.head % 65536) as u16, s) else {
        return None;
    };
    if f.tag == (tag as u32) {
        return Some(next);
    }
    None
}

// THE PASS

// Whether a state is outside functions.
fn is_outside(s: State) -> bool
    ensures { result ≡ is_outside s }
{
    matches!(s, State::Outside)
}

// The answer where all records are passed: the end is good, or bad at an index.
#[tactic(auto, unfolding(crate::specs::Steps::end_answer))]
fn at_end(good: bool, index: usize) -> Option<usize>
    ensures { result ≡ end_answer good index }
{
    if good {
        return None;
    }
    Some(index)
}

// What is asked for: whether the records are to end outside functions, how many words a record has, how many records, log bytes and
// string bytes there are.
#[derive(Clone, Copy)]
struct Asked {
    whole: bool,
    size: usize,
    count: usize,
    log: usize,
    strings: usize,
}

// One pass over the records: each is held to its tag, its fields and offset, and its operands. Where all strings are ASCII text, no string
// is looked at by itself: that loop is short.
fn first_fault<const ASCII: bool>(
    layout: &Layout,
    asked: Asked,
    instructions: &[u32],
    log: &[u8],
    strings: &[u8],
) -> Option<usize>
    requires field_size_le_size { field_size ≤ asked.size }
    requires strings_value { ASCII ≡ true → is_ascii_text strings.now ≡ true }
    ensures { result ≡ fault_in asked instructions.now log.now strings.now }
{
    let there = instructions.len() / asked.size;
    let mut at = 20;
    let mut a = 0;
    let mut b = 0;
    let mut s = State::Outside;
    for i in 0..asked.count.min(there) {
        let f = fields_at(instructions, asked.size * i);
        let Some(next_s) = tag_after(layout, s, f) else {
            return Some(i + 1);
        };
        let Some(next_at) = offset_after(at, f) else {
            return Some(i + 1);
        };
        let Some(passed) = operands_after(ASCII, log, strings, a, b, f) else {
            return Some(i + 1);
        };
        at = next_at;
        a = passed.log;
        b = passed.strings;
        s = next_s;
    }
    if there < asked.count {
        return Some(there + 1);
    }
    let good = (a == asked.log) & (b == asked.strings) & (!asked.whole | is_outside(s));
    at_end(good, asked.count + 1)
}

// The lower of two numbers.
pub fn at_most(a: usize, b: usize) -> usize
    ensures { result ≡ at_most a b }
{
    a.min(b)
}

// Whether given records of a length keep the store layout, and in module order (whole) end outside functions. Their strings are seldom
// other than ASCII text.
pub fn check_of(
    size: usize,
    whole: bool,
    instructions: &[u32],
    log: &[u8],
    strings: &[u8],
    count: usize,
    log_count: usize,
    string_count: usize,
) -> Option<usize>
    requires { field_size ≤ size }
    ensures { result ≡ fault_of size whole (given instructions.now log.now strings.now count log_count string_count) }
{
    let log_end = log_count.min(log.len());
    let strings_end = string_count.min(strings.len());
    let layout = Layout::new();
    let log = &log[..log_end];
    let strings = &strings[..strings_end];
    let asked = Asked {
        whole,
        size,
        count,
        log: log_count,
        strings: string_count,
    };
    if text::is_ascii_text(strings) {
        return first_fault::<true>(&layout, asked, instructions, log, strings);
    }
    first_fault::<false>(&layout, asked, instructions, log, strings)
}

// Whether given records do, those of a load.
pub fn check(
    whole: bool,
    instructions: &[u32],
    log: &[u8],
    strings: &[u8],
    count: usize,
    log_count: usize,
    string_count: usize,
) -> Option<usize>
    ensures { result ≡ fault_of record_size whole (given instructions.now log.now strings.now count log_count string_count) }
{
    check_of(
        RECORD,
        whole,
        instructions,
        log,
        strings,
        count,
        log_count,
        string_count,
    )
}

// GOOD RECORDS

// The operand at a place of the log: its kind and its value.
pub fn operand_at(log: &[u8], at: usize) -> Parts
    requires { Whole log.now at }
    ensures { Logged log.now at result }
{
    let kind = log[at];
    let low = words::word_at(log, at + 1);
    if is_two(kind) {
        let high = words::word_at(log, at + 5);
        return Parts {
            kind,
            value: (low as u64) + 4294967296 * (high as u64),
        };
    }
    Parts {
        kind,
        value: low as u64,
    }
}
