// The answer to a module, compared with the one kept.
use crate::parts::Entry;
use crate::stores::{BYTE, WORD, holds, holds_words};
use spec::{Loaded, Written, refusals};

// Whether all that a load says is as kept: number, offset, index and value; the counts; the header words.
fn same_said(l: Loaded, head: [u32; 16]) -> bool {
    let c = l.counts;
    l.number == head[1]
        && l.offset == head[2] as usize
        && l.index == head[3] as usize
        && l.value == head[4]
        && c.instructions == head[5] as usize
        && c.log == head[6] as usize
        && c.strings == head[7] as usize
        && c.types == head[8] as usize
        && l.header.as_slice() == &head[10..15]
}

// Whether a writer of the records of an accepted module gives the bytes kept, and nothing past them changed. For a module that is refused
// there are none.
fn same_written<F: FnOnce(&mut [u8]) -> Written>(
    l: Loaded,
    kept: &[u8],
    out: &mut [u8],
    write: F,
) -> bool
    requires { F.IsAlwaysCallable write }
{
    if l.number != refusals::ACCEPTED {
        return kept.is_empty();
    }
    let w = write(out);
    w.number == refusals::ACCEPTED && w.bytes == kept.len() && holds(out, kept)
}

// Whether the answer to a module is the one kept: what the load says, its stores, the records in module order, and their text.
pub fn same(entry: &Entry) -> bool {
    let mut instructions = [WORD; 640];
    let mut log = [BYTE; 576];
    let mut strings = [BYTE; 256];
    let mut types = [WORD; 192];
    let l = loader::load_builtin(
        entry.module,
        &mut instructions,
        &mut log,
        &mut strings,
        &mut types,
    );
    let c = l.counts;
    same_said(l, entry.head)
        && holds_words(&instructions, entry.instructions)
        && holds(&log, entry.log)
        && holds(&strings, entry.strings)
        && holds_words(&types, entry.types)
        && same_written(l, entry.order, &mut [BYTE; 320], |out| {
            assemble::write_module_order(
                l.header,
                &instructions,
                &log,
                &strings,
                c.instructions,
                c.log,
                c.strings,
                out,
            )
        })
        && same_written(l, entry.text, &mut [BYTE; 1024], |out| {
            disassemble::disassemble(
                l.header,
                &instructions,
                &log,
                &strings,
                c.instructions,
                c.log,
                c.strings,
                out,
            )
        })
}
