// The writers: first the check of the records (30), then the bytes needed against the output (29), then the bytes.
ghost use Rattle.std.specs.Prelude.{◌≡◌, true, false, ◌≤◌, length};
ghost use Rattle.std.proofs.lemmas.List.Edits.{sets};
ghost use Rattle.spec.specs.Base.{joined};
ghost use Rattle.spec.specs.Words.{bytes_of};
ghost use Rattle.spec.specs.Write.{module_header, write_parse, write_module};
ghost use Rattle.records.specs.Steps.{given};
ghost use Rattle.spelled.specs.Placing.{written_over, order_bytes, write_order};
ghost use Rattle.spelled.specs.Said.{said};
ghost use Rattle.assemble.specs.Writes.{Writes};

use order::{put_module, put_read};
use ranges::{Ranges, TAGS, end_of, module_end, survey};
use spec::{Written, refusals, tags};
use spelled::Good;
use words::put_word;

// The five header words.
fn put_header(header: [u32; 5], out: &mut [u8])
    requires { 20 ≤ length out.old }
    ensures { out.new ≡ sets out.old 0 (joined bytes_of header) }
{
    put_word(out, 0, header[0]);
    put_word(out, 4, header[1]);
    put_word(out, 8, header[2]);
    put_word(out, 12, header[3]);
    put_word(out, 16, header[4]);
}

// The header in module order: magic, generator and reserved constants, a version word of major and minor alone, the bound.
fn module_header(header: [u32; 5]) -> [u32; 5]
    ensures { result ≡ module_header header }
{
    let mut words = header;
    let version = words[1];
    words[0] = 0x07230203;
    words[1] = 65536 * (version / 65536 % 256) + 256 * (version / 256 % 256);
    words[2] = 0x000F0000;
    words[4] = 0;
    words
}

// An output that is too short.
fn too_short() -> Written
    ensures { result ≡ record { number = 29; index = 0; bytes = 0 } }
{
    Written {
        number: refusals::OUTPUT_SHORT,
        index: 0,
        bytes: 0,
    }
}

// Good stores, as read: each record says where its instruction goes.
fn write_read(header: [u32; 5], good: Good, out: &mut [u8]) -> Written
    ensures { Writes (written_over out.old (order_bytes false header (said good.entry))) out.new result }
{
    let bytes = end_of(good);
    if out.len() < bytes {
        return too_short();
    }
    put_header(header, out);
    put_read(good, out);
    Written {
        number: refusals::ACCEPTED,
        index: 0,
        bytes,
    }
}

// Good stores in module order: each section from the range that the survey finds.
fn write_whole(header: [u32; 5], good: Good, out: &mut [u8]) -> Written
    ensures { Writes (written_over out.old (order_bytes true header (said good.entry))) out.new result }
{
    let mut ranges = Ranges {
        first: [0; TAGS],
        end: [0; TAGS],
    };
    survey(good, &mut ranges);
    let model = ranges.first[tags::MEMORY_MODEL as usize];
    let need = module_end(good, model);
    if out.len() < need {
        return too_short();
    }
    put_header(header, out);
    put_module(good, &ranges, out);
    Written {
        number: refusals::ACCEPTED,
        index: 0,
        bytes: need,
    }
}

// Good stores, in module order (whole) or as read.
fn write_good(whole: bool, header: [u32; 5], good: Good, out: &mut [u8]) -> Written
    ensures { Writes (written_over out.old (order_bytes whole header (said good.entry))) out.new result }
{
    if whole {
        return write_whole(header, good, out);
    }
    write_read(header, good, out)
}

// The records checked, then written under a header.
fn write_order(
    whole: bool,
    header: [u32; 5],
    instructions: &[u32],
    log: &[u8],
    strings: &[u8],
    count: usize,
    log_end: usize,
    strings_end: usize,
    out: &mut [u8],
) -> Written
    ensures { Writes (write_order whole header (given instructions.now log.now strings.now count log_end strings_end) out.old) out.new result }
{
    let checked = records::check(
        whole,
        instructions,
        log,
        strings,
        count,
        log_end,
        strings_end,
    );
    let Some(index) = checked else {
        let good = Good {
            instructions,
            log: &log[..log_end],
            strings: &strings[..strings_end],
            count,
        };
        return write_good(whole, header, good, out);
    };
    Written {
        number: refusals::BAD_RECORDS,
        index,
        bytes: 0,
    }
}

// Header words and instructions as read.
pub fn write_parse_order(
    header: [u32; 5],
    instructions: &[u32],
    log: &[u8],
    strings: &[u8],
    instruction_count: usize,
    log_count: usize,
    string_count: usize,
    out: &mut [u8],
) -> Written
    ensures { Writes (write_parse header (given instructions.now log.now strings.now instruction_count log_count string_count) out.old) out.new result }
{
    write_order(
        false,
        header,
        instructions,
        log,
        strings,
        instruction_count,
        log_count,
        string_count,
        out,
    )
}

// The header in module order, sections 1 to 11, then the functions.
pub fn write_module_order(
    header: [u32; 5],
    instructions: &[u32],
    log: &[u8],
    strings: &[u8],
    instruction_count: usize,
    log_count: usize,
    string_count: usize,
    out: &mut [u8],
) -> Written
    ensures { Writes (write_module header (given instructions.now log.now strings.now instruction_count log_count string_count) out.old) out.new result }
{
    write_order(
        true,
        module_header(header),
        instructions,
        log,
        strings,
        instruction_count,
        log_count,
        string_count,
        out,
    )
}
