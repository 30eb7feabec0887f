// Whether instructions have every name that their text is made of.
ghost use Rattle.std.specs.Prelude.{◌≡◌};
ghost use Rattle.spec.specs.Base.{every};
ghost use Rattle.spec.specs.Words.{bits_of};
ghost use Rattle.spec.specs.Records.{narrow};
ghost use Rattle.spec.specs.Names.{name_of};
ghost use Rattle.spec.specs.Disassembly.{is_there, operand_named, is_named as named_of};
ghost use Rattle.records.specs.Good.{operand_at};
ghost use Rattle.spelled.specs.Spelled.{Readable, AllReadable, operands_from, said_by};
ghost use Rattle.pieces.specs.Putting.{bit_named};
ghost use Rattle.disassemble.specs.Listed.{said_from, Told, named_count};

use lookup::Names;
use operand::is_two;
use pieces::{after, has_bits, set_of_kind};
use records::record_at;
use spec::Fields;

// Whether a number has a name in a set.
fn has_name(names: Names, set: u8, number: u32) -> bool
    ensures { result ≡ is_there (name_of set number) }
{
    names.find(set, number).is_some()
}

// Whether a bit has a name, where it is set.
fn bit_named(names: Names, kind: u8, set: u32, bit: u32) -> bool
    ensures { result ≡ bit_named kind set bit }
{
    if set == 1 {
        return has_name(names, kind, bit);
    }
    true
}

// Whether each bit that is set in a mask has a name.
fn bits_named(names: Names, kind: u8, mask: u32) -> bool
    ensures { result ≡ every (λ n. is_there (name_of kind n)) (bits_of mask) }
{
    let mut rest = mask;
    let mut bit: u64 = 1;
    while rest != 0 {
        if !bit_named(names, kind, rest % 2, bit as u32) {
            return false;
        }
        rest = rest / 2;
        bit = 2 * bit;
    }
    true
}

// Whether an operand of one word has its names.
fn narrow_named(names: Names, kind: u8, value: u32) -> bool
    ensures { result ≡ operand_named (narrow kind value) }
{
    if (31 <= kind) & (kind <= 38) {
        return true;
    }
    if has_bits(kind, value) {
        return bits_named(names, kind, value);
    }
    has_name(names, set_of_kind(kind), value)
}

// Whether the operand at a place of the log has its names.
fn operand_named(names: Names, log: &[u8], strings: &[u8], a: usize) -> bool
    requires { Readable log.now strings.now a }
    ensures { result ≡ operand_named (operand_at log.now strings.now a) }
{
    if is_two(log[a]) {
        return true;
    }
    narrow_named(names, log[a], words::word_at(log, a + 1))
}

// Whether each of so many operands from a place of the log on has its names.
fn operands_named(names: Names, log: &[u8], strings: &[u8], first: usize, count: usize) -> bool
    requires { AllReadable count log.now strings.now first }
    ensures { result ≡ every operand_named (operands_from count log.now strings.now first) }
{
    let mut a = first;
    for _ in 0..count {
        if !operand_named(names, log, strings, a) {
            return false;
        }
        a = after(log, a);
    }
    true
}

// Whether the instruction of a record has its names.
fn is_named(names: Names, log: &[u8], strings: &[u8], f: Fields) -> bool
    requires { AllReadable f.count log.now strings.now f.start }
    ensures { result ≡ named_of (said_by log.now strings.now f) }
{
    if has_name(names, lookup::OPCODES, f.head % 65536) {
        return operands_named(names, log, strings, f.start as usize, f.count as usize);
    }
    false
}

// How many of the first records have their names, up to the first that lacks one.
pub fn named_count(
    names: Names,
    instructions: &[u32],
    log: &[u8],
    strings: &[u8],
    count: usize,
) -> usize
    requires { Told count instructions.now log.now strings.now }
    ensures { result ≡ named_count (said_from count instructions.now log.now strings.now) }
{
    for i in 0..count {
        if !is_named(names, log, strings, record_at(instructions, i)) {
            return i;
        }
    }
    count
}
