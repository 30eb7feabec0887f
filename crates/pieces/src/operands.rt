// The text of operands.
ghost use Rattle.std.specs.Prelude.{◌≡◌, true, false, ◌<◌, get_or};
ghost use Rattle.spec.specs.Words.{bits_of};
ghost use Rattle.spec.specs.Disassembly.{byte_text, string_text, name_text, names_in, set_of_kind, barred, narrow_text, operand_text, spaced};
ghost use Rattle.operand.specs.Parts.{is_two};
ghost use Rattle.records.specs.Good.{Whole, operand_at};
ghost use Rattle.spelled.specs.Spelled.{Readable, AllReadable, operand_after, operands_from};
ghost use Rattle.pieces.specs.Putting.{Room, Wrote, bit_text, has_bits};

use crate::pieces::{put_byte, put_bytes, put_hex, put_id, put_number};
use lookup::Names;
use operand::is_two;
use spec::kinds;

// STRINGS

// A byte of a string.
fn put_string_byte(out: &mut [u8], at: usize, b: u8, keep: bool) -> usize
    requires { Room keep out.old at (byte_text b) }
    ensures { Wrote keep out.old at (byte_text b) result out.new }
{
    if (b == 34) | (b == 92) {
        let next = put_byte(out, at, 92, keep);
        return put_byte(out, next, b, keep);
    }
    if (0x20 <= b) & (b <= 0x7E) {
        return put_byte(out, at, b, keep);
    }
    let next = put_bytes(out, at, b"\\x", keep);
    put_hex(out, next, 2, b as u64, keep)
}

// A string.
fn put_string(out: &mut [u8], start: usize, s: &[u8], keep: bool) -> usize
    requires { Room keep out.old start (string_text s.now) }
    ensures { Wrote keep out.old start (string_text s.now) result out.new }
{
    let mut at = put_byte(out, start, 34, keep);
    for b in s {
        at = put_string_byte(out, at, *b, keep);
    }
    put_byte(out, at, 34, keep)
}

// NAMES

// The name of a number in a set.
pub fn put_name(names: Names, set: u8, number: u32, out: &mut [u8], at: usize, keep: bool) -> usize
    requires { Room keep out.old at (name_text set number) }
    ensures { Wrote keep out.old at (name_text set number) result out.new }
{
    let found = names.find(set, number);
    let Some((start, end)) = found else {
        return at;
    };
    put_bytes(out, at, &names.run[start..end], keep)
}

// A bit's name, where it is set, with a bar before it where there is one before.
fn put_bit(
    names: Names,
    kind: u8,
    set: u32,
    bit: u32,
    bar: bool,
    out: &mut [u8],
    at: usize,
    keep: bool,
) -> usize
    requires { Room keep out.old at (bit_text kind set bit bar) }
    ensures { Wrote keep out.old at (bit_text kind set bit bar) result out.new }
{
    if set != 1 {
        return at;
    }
    if bar {
        let next = put_byte(out, at, b'|', keep);
        return put_name(names, kind, bit, out, next, keep);
    }
    put_name(names, kind, bit, out, at, keep)
}

// The names of a mask's bits that are set, lowest first.
fn put_bits(names: Names, kind: u8, mask: u32, out: &mut [u8], start: usize, keep: bool) -> usize
    requires { Room keep out.old start (barred kind (bits_of mask)) }
    ensures { Wrote keep out.old start (barred kind (bits_of mask)) result out.new }
{
    let mut rest = mask;
    let mut bit: u64 = 1;
    let mut bar = false;
    let mut at = start;
    while rest != 0 {
        at = put_bit(names, kind, rest % 2, bit as u32, bar, out, at, keep);
        bar = bar | (rest % 2 == 1);
        rest = rest / 2;
        bit = 2 * bit;
    }
    at
}

// The set that has the names of a kind.
pub fn set_of_kind(kind: u8) -> u8
    ensures { result ≡ set_of_kind kind }
{
    if kind == kinds::EMBEDDED {
        return lookup::OPCODES;
    }
    kind
}

// Whether a value's text is that of its bits.
pub fn has_bits(kind: u8, value: u32) -> bool
    ensures { result ≡ has_bits kind value }
{
    grammar::is_mask(kind) & (value != 0)
}

// An operand by name: a mask by its bits, any other by its value.
fn put_named(names: Names, kind: u8, value: u32, out: &mut [u8], at: usize, keep: bool) -> usize
    requires { Room keep out.old at (barred (set_of_kind kind) (names_in kind value)) }
    ensures { Wrote keep out.old at (barred (set_of_kind kind) (names_in kind value)) result out.new }
{
    if has_bits(kind, value) {
        return put_bits(names, kind, value, out, at, keep);
    }
    put_name(names, set_of_kind(kind), value, out, at, keep)
}

// OPERANDS

// An operand of one word.
fn put_narrow(names: Names, kind: u8, value: u32, out: &mut [u8], at: usize, keep: bool) -> usize
    requires { Room keep out.old at (narrow_text kind value) }
    ensures { Wrote keep out.old at (narrow_text kind value) result out.new }
{
    if (31 <= kind) & (kind <= 33) {
        return put_id(out, at, value, keep);
    }
    if (34 <= kind) & (kind <= 35) {
        return put_number(out, at, value as u64, keep);
    }
    if kind == kinds::FLOAT32 {
        let next = put_bytes(out, at, b"0x", keep);
        return put_hex(out, next, 8, value as u64, keep);
    }
    put_named(names, kind, value, out, at, keep)
}

// The operand at a place of the log, where its kind has two words.
fn put_two(log: &[u8], strings: &[u8], a: usize, out: &mut [u8], at: usize, keep: bool) -> usize
    requires readable { Readable log.now strings.now a }
    requires a_value { is_two (get_or log.now a 0) ≡ true }
    requires room { Room keep out.old at (operand_text (operand_at log.now strings.now a)) }
    ensures { Wrote keep out.old at (operand_text (operand_at log.now strings.now a)) result out.new }
{
    let low = words::word_at(log, a + 1);
    let high = words::word_at(log, a + 5);
    if log[a] == kinds::STRING {
        let start = low as usize;
        let end = start + (high as usize);
        return put_string(out, at, &strings[start..end], keep);
    }
    let value = (low as u64) + 4294967296 * (high as u64);
    if log[a] == kinds::INT64 {
        return put_number(out, at, value, keep);
    }
    let next = put_bytes(out, at, b"0x", keep);
    put_hex(out, next, 16, value, keep)
}

// The operand at a place of the log.
fn put_operand(
    names: Names,
    log: &[u8],
    strings: &[u8],
    a: usize,
    out: &mut [u8],
    at: usize,
    keep: bool,
) -> usize
    requires readable { Readable log.now strings.now a }
    requires room { Room keep out.old at (operand_text (operand_at log.now strings.now a)) }
    ensures { Wrote keep out.old at (operand_text (operand_at log.now strings.now a)) result out.new }
{
    if is_two(log[a]) {
        return put_two(log, strings, a, out, at, keep);
    }
    put_narrow(names, log[a], words::word_at(log, a + 1), out, at, keep)
}

// The place after the operand at a place of the log.
pub fn after(log: &[u8], a: usize) -> usize
    requires { Whole log.now a }
    ensures { result ≡ operand_after log.now a }
{
    if is_two(log[a]) {
        return a + 9;
    }
    a + 5
}

// So many operands from a place of the log on, a blank before each.
pub fn put_operands(
    names: Names,
    log: &[u8],
    strings: &[u8],
    first: usize,
    count: usize,
    out: &mut [u8],
    start: usize,
    keep: bool,
) -> usize
    requires all_readable { AllReadable count log.now strings.now first }
    requires room { Room keep out.old start (spaced (operands_from count log.now strings.now first)) }
    ensures { Wrote keep out.old start (spaced (operands_from count log.now strings.now first)) result out.new }
{
    let mut a = first;
    let mut at = start;
    for _ in 0..count {
        let next = put_byte(out, at, b' ', keep);
        at = put_operand(names, log, strings, a, out, next, keep);
        a = after(log, a);
    }
    at
}
