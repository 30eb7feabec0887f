// Extended instruction sets: the last import of an id that is recognised.
#![tactic(auto)]

ghost use Rattle.std.specs.Prelude.{◌≡◌, ◌*◌, ◌≤◌, length};
ghost use Rattle.spec.specs.Base.{or_zero};
ghost use Rattle.spec.specs.Records.{record_size};
ghost use Rattle.spec.specs.Disassembly.{set_named, import_of, set_of};
ghost use Rattle.spelled.specs.Spelled.{AllReadable, said_by};
ghost use Rattle.spelled.specs.Said.{said};
ghost use Rattle.imports.specs.Imports.{ImportsEnd};

use records::record_at;
use spec::{Fields, kinds, tags};
use spelled::Good;

// Where the imports end: behind the last.
pub fn imports_end(instructions: &[u32], count: usize) -> usize
    requires { record_size * count ≤ length instructions.now }
    ensures { (result ≤ count) × ImportsEnd instructions.now count result }
{
    for i in (0..count).rev() {
        if record_at(instructions, i).tag == tags::EXT_INST_IMPORT {
            return i + 1;
        }
    }
    0
}

// The set of a name, or 0.
fn set_named(s: &[u8]) -> u8
    ensures { result ≡ or_zero (set_named s.now) }
{
    if s == b"GLSL.std.450".as_slice() {
        return lookup::GLSL;
    }
    if s == b"OpenCL.std".as_slice() {
        return lookup::OPENCL;
    }
    0
}

// The set that a record imports under an id, or 0.
fn import_of(log: &[u8], strings: &[u8], f: Fields, id: u32) -> u8
    requires { AllReadable f.count log.now strings.now f.start }
    ensures { result ≡ or_zero (import_of id (said_by log.now strings.now f)) }
{
    if f.tag != tags::EXT_INST_IMPORT {
        return 0;
    }
    if (f.head / 65536 < 2) | (f.rid != id) | (f.count == 0) {
        return 0;
    }
    let a = f.start as usize;
    if log[a] != kinds::STRING {
        return 0;
    }
    let start = words::word_at(log, a + 1) as usize;
    let end = start + (words::word_at(log, a + 5) as usize);
    set_named(&strings[start..end])
}

// The set of an id, or 0: from the last import back.
pub fn set_of(good: Good, end: usize, id: u32) -> u8
    requires { (end ≤ good.count) × ImportsEnd good.instructions.now good.count end }
    ensures { result ≡ or_zero (set_of id (said good.entry)) }
{
    for i in (0..end).rev() {
        let set = import_of(good.log, good.strings, record_at(good.instructions, i), id);
        if set != 0 {
            return set;
        }
    }
    0
}
