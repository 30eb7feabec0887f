// The line of an instruction.
#![tactic(auto)]

ghost use Rattle.std.specs.Prelude.{◌≡◌, ◌++◌, ◌≤◌, length};
ghost use Rattle.spec.specs.Base.{ascii};
ghost use Rattle.spec.specs.Check.{field_in};
ghost use Rattle.spec.specs.Disassembly.{result_text, operands_text, instr_text};
ghost use Rattle.lookup.specs.Find.{text_found, Inside};
ghost use Rattle.spelled.specs.Spelled.{AllReadable, said_by};
ghost use Rattle.spelled.specs.Said.{said};
ghost use Rattle.pieces.specs.Putting.{Room, Wrote, type_by};
ghost use Rattle.imports.specs.Imports.{ImportsEnd};
ghost use Rattle.line.specs.Named.{name_in};

use imports::set_of;
use lookup::Names;
use pieces::{put_byte, put_bytes, put_id, put_name, put_operands};
use spec::{Fields, kinds, opcodes, tags};
use spelled::Good;

// What is asked for: where the imports among the records end, and whether the text is kept.
#[derive(Clone, Copy)]
pub struct Asked {
    pub imports: usize,
    pub keep: bool,
}

// A result id that is there.
fn put_result(out: &mut [u8], at: usize, id: u32, there: bool, keep: bool) -> usize
    requires { Room keep out.old at (result_text (field_in there id)) }
    ensures { Wrote keep out.old at (result_text (field_in there id)) result out.new }
{
    if there {
        let next = put_id(out, at, id, keep);
        return put_bytes(out, next, b" = ", keep);
    }
    at
}

// A result type that is there, before operands or none.
fn put_type(out: &mut [u8], at: usize, id: u32, there: bool, more: bool, keep: bool) -> usize
    requires { Room keep out.old at (type_by (field_in there id) more) }
    ensures { Wrote keep out.old at (type_by (field_in there id) more) result out.new }
{
    if !there {
        return at;
    }
    let next = put_bytes(out, at, b"  ", keep);
    let end = put_id(out, next, id, keep);
    if more {
        return put_byte(out, end, b' ', keep);
    }
    end
}

// The name that takes the place of the second operand: where it stands in the run of names.
fn ext_name(names: Names, good: Good, asked: Asked, f: Fields) -> Option<(usize, usize)>
    requires imports_le_count { (asked.imports ≤ good.count) × ImportsEnd good.instructions.now good.count asked.imports }
    requires all_readable { AllReadable f.count good.log.now good.strings.now f.start }
    ensures result_value { text_found names.entry.run.now result ≡ name_in (said good.entry) (said_by good.entry.log.now good.entry.strings.now f) }
    ensures inside { Inside result (length names.entry.run.now) }
{
    if (((f.head % 65536) as u16) != opcodes::EXT_INST) | (f.tag != tags::BLOCK) | (f.count < 2) {
        return None;
    }
    let a = f.start as usize;
    if (good.log[a] != kinds::ID_REF) | (good.log[a + 5] != kinds::EXT_INST) {
        return None;
    }
    let set = set_of(good, asked.imports, words::word_at(good.log, a + 1));
    if set == 0 {
        return None;
    }
    names.find(set, words::word_at(good.log, a + 6))
}

// An instruction's operands.
fn put_all(names: Names, good: Good, asked: Asked, f: Fields, out: &mut [u8], at: usize) -> usize
    requires imports_le_count { (asked.imports ≤ good.count) × ImportsEnd good.instructions.now good.count asked.imports }
    requires all_readable { AllReadable f.count good.log.now good.strings.now f.start }
    requires room { Room asked.keep out.old at (operands_text (said good) (said_by good.log.now good.strings.now f)) }
    ensures { Wrote asked.keep out.old at (operands_text (said good.entry) (said_by good.entry.log.now good.entry.strings.now f)) result out.new }
{
    let a = f.start as usize;
    let n = f.count as usize;
    let name = ext_name(names, good, asked, f);
    let Some((start, end)) = name else {
        return put_operands(names, good.log, good.strings, a, n, out, at, asked.keep);
    };
    let third = a + 10;
    let first = put_operands(names, good.log, good.strings, a, 1, out, at, asked.keep);
    let blank = put_byte(out, first, b' ', asked.keep);
    let second = put_bytes(out, blank, &names.run[start..end], asked.keep);
    put_operands(
        names,
        good.log,
        good.strings,
        third,
        n - 2,
        out,
        second,
        asked.keep,
    )
}

// An instruction's line, behind a line feed.
pub fn put_line(
    names: Names,
    good: Good,
    asked: Asked,
    f: Fields,
    out: &mut [u8],
    at: usize,
) -> usize
    requires imports_le_count { (asked.imports ≤ good.count) × ImportsEnd good.instructions.now good.count asked.imports }
    requires all_readable { AllReadable f.count good.log.now good.strings.now f.start }
    requires room { Room asked.keep out.old at (ascii "\n" ++ instr_text (said good) (said_by good.log.now good.strings.now f)) }
    ensures { Wrote asked.keep out.old at (ascii "\n" ++ instr_text (said good.entry) (said_by good.entry.log.now good.entry.strings.now f)) result out.new }
{
    let bits = f.head / 65536;
    let feed = put_byte(out, at, b'\n', asked.keep);
    let id = put_result(out, feed, f.rid, 2 <= bits, asked.keep);
    let op = put_bytes(out, id, b"Op", asked.keep);
    let name = put_name(names, lookup::OPCODES, f.head % 65536, out, op, asked.keep);
    let ty = put_type(out, name, f.rtype, bits % 2 == 1, 0 < f.count, asked.keep);
    put_all(names, good, asked, f, out, ty)
}
