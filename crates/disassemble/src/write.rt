// The call: first the check of the records and their names (30), then the text's length against the output (32), then the text.
ghost use Rattle.std.specs.Prelude.{◌≡◌, ◌∷◌, [], ◌≤◌};
ghost use Rattle.spec.specs.Write.{module_order};
ghost use Rattle.spec.specs.Disassembly.{header_text, lines_text, module_text, disassemble as disassemble_of};
ghost use Rattle.records.specs.Steps.{given};
ghost use Rattle.spelled.specs.Said.{said};
ghost use Rattle.assemble.specs.Writes.{Writes};
ghost use Rattle.pieces.specs.Putting.{Room, Wrote};
ghost use Rattle.imports.specs.Imports.{ImportsEnd};
ghost use Rattle.disassemble.specs.Listed.{BadFromOne, before_bad, text_over};

use crate::named::named_count;
use crate::walk::{Cursor, advance};
use imports::imports_end;
use line::{Asked, put_line};
use lookup::Names;
use pieces::{put_bytes, put_number};
use records::{at_most, record_at};
use spec::{Written, refusals};
use spelled::Good;

// The four lines of the header, by its version and bound.
fn put_header(version: u32, bound: u32, out: &mut [u8], at: usize, keep: bool) -> usize
    requires { Room keep out.old at (header_text (0 ∷ version ∷ 0 ∷ bound ∷ 0 ∷ [])) }
    ensures { Wrote keep out.old at (header_text (0 ∷ version ∷ 0 ∷ bound ∷ 0 ∷ [])) result out.new }
{
    let a = put_bytes(out, at, b"; SPIR-V\n; Version: ", keep);
    let b = put_number(out, a, (version / 65536 % 256) as u64, keep);
    let c = put_bytes(out, b, b".", keep);
    let d = put_number(out, c, (version / 256 % 256) as u64, keep);
    let e = put_bytes(out, d, b"\n; Generator: rspirv\n; Bound: ", keep);
    put_number(out, e, bound as u64, keep)
}

// The lines of all instructions, in module order.
fn put_lines(names: Names, good: Good, asked: Asked, out: &mut [u8], start: usize) -> usize
    requires imports_le_count { (asked.imports ≤ good.count) × ImportsEnd good.instructions.now good.count asked.imports }
    requires room { Room asked.keep out.old start (lines_text (said good) (module_order (said good))) }
    ensures { Wrote asked.keep out.old start (lines_text (said good.entry) (module_order (said good.entry))) result out.new }
{
    let mut c = Cursor {
        tag: 1,
        at: 0,
        back: 0,
    };
    let mut at = start;
    while let Some((i, after)) = advance(good, c) {
        at = put_line(names, good, asked, record_at(good.instructions, i), out, at);
        c = after;
    }
    at
}

// The whole text, kept or only measured.
fn put_text(names: Names, header: [u32; 5], good: Good, asked: Asked, out: &mut [u8]) -> usize
    requires imports_le_count { (asked.imports ≤ good.count) × ImportsEnd good.instructions.now good.count asked.imports }
    requires room { Room asked.keep out.old 0 (module_text header (said good)) }
    ensures { Wrote asked.keep out.old 0 (module_text header (said good.entry)) result out.new }
{
    let at = put_header(header[1], header[3], out, 0, asked.keep);
    put_lines(names, good, asked, out, at)
}

// Good records that have their names: measured against the output, then written.
fn write_good(names: Names, header: [u32; 5], good: Good, out: &mut [u8]) -> Written
    ensures { Writes (text_over out.old (module_text header (said good.entry))) out.new result }
{
    let imports = imports_end(good.instructions, good.count);
    let measured = Asked {
        imports,
        keep: false,
    };
    let need = put_text(names, header, good, measured, out);
    if out.len() < need {
        return Written {
            number: refusals::TEXT_LONG,
            index: 0,
            bytes: 0,
        };
    }
    let kept = Asked {
        imports,
        keep: true,
    };
    let bytes = put_text(names, header, good, kept, out);
    Written {
        number: refusals::ACCEPTED,
        index: 0,
        bytes,
    }
}

// A record that is bad.
fn bad_record(index: usize) -> Written
    ensures { result ≡ record { number = 30; index = index; bytes = 0 } }
{
    Written {
        number: refusals::BAD_RECORDS,
        index,
        bytes: 0,
    }
}

// How many records there are before the first that is bad.
fn before_bad(checked: Option<usize>, count: usize) -> usize
    requires { BadFromOne checked }
    ensures { result ≡ before_bad checked count }
{
    match checked {
        None => count,
        Some(index) => index - 1,
    }
}

// Records as text: header, sections, functions.
pub fn disassemble(
    header: [u32; 5],
    instructions: &[u32],
    log: &[u8],
    strings: &[u8],
    instruction_count: usize,
    log_count: usize,
    string_count: usize,
    out: &mut [u8],
) -> Written
    ensures { Writes (disassemble_of header (given instructions.now log.now strings.now instruction_count log_count string_count) out.old) out.new result }
{
    let names = Names::new(names::bytes(), names::prepared());
    let checked = records::check(
        true,
        instructions,
        log,
        strings,
        instruction_count,
        log_count,
        string_count,
    );
    let count = before_bad(checked, instruction_count);
    let log_end = at_most(log_count, log.len());
    let strings_end = at_most(string_count, strings.len());
    let log = &log[..log_end];
    let strings = &strings[..strings_end];
    let named = named_count(names, instructions, log, strings, count);
    if named < count {
        return bad_record(named + 1);
    }
    let Some(first) = checked else {
        let good = Good {
            instructions,
            log,
            strings,
            count: instruction_count,
        };
        return write_good(names, header, good, out);
    };
    bad_record(first)
}
