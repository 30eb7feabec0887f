// Runs the table of fittings through both loads. Each module comes on standard input as a byte that is its length, then its bytes. A
// line for each: its number in the table; number, offset, index and value; the header words; the counts; the four stores up to their
// counts. Where the two loads differ, the line says so.
#![tactic(auto)]

ghost use Rattle.std.specs.Prelude.{◌≤◌, length};
ghost use Rattle.spec.specs.Load.{lent, room_in, enough, Covers};
ghost use Rattle.spec.specs.Fittings.{fittings, room_for};
ghost use Rattle.fittings.specs.Told.{Told, Shows};

use spec::Loaded;
use std::fmt::Display;
use std::io;

// How many words a type entry has.
const ENTRY: usize = 3;

// A fitting of 255 bytes has so many whole words after its header.
const WORDS: usize = 58;

// THE LOADS: where the table has the module, each shows what the table says. The stores come one by one, as in the contract of a load.

// By the bytes of the built-in grammar.
fn by_bytes(
    module: &[u8],
    instructions: &mut [u32],
    log: &mut [u8],
    strings: &mut [u8],
    types: &mut [u32],
) -> Loaded
    requires { Covers (room_in (lent instructions.old log.old strings.old types.old)) (room_for «module».now) }
    ensures { Told fittings «module».now (λ x. Shows x
        (lent instructions.old log.old strings.old types.old)
        (lent instructions.new log.new strings.new types.new) result) }
{
    let table = builtin::table();
    loader::load(module, &table, instructions, log, strings, types)
}

// By the built-in grammar, prepared.
fn prepared(
    module: &[u8],
    instructions: &mut [u32],
    log: &mut [u8],
    strings: &mut [u8],
    types: &mut [u32],
) -> Loaded
    requires { Covers (room_in (lent instructions.old log.old strings.old types.old)) (room_for «module».now) }
    ensures { Told fittings «module».now (λ x. Shows x
        (lent instructions.old log.old strings.old types.old)
        (lent instructions.new log.new strings.new types.new) result) }
{
    loader::load_builtin(module, instructions, log, strings, types)
}

// THE STORES

// Stores that suffice for a module of 255 bytes.
#[derive(Drop, PartialEq)]
struct Stores {
    instructions: [u32; records::RECORD * WORDS],
    log: [u8; 9 * WORDS],
    strings: [u8; 4 * WORDS],
    types: [u32; ENTRY * WORDS],
}

impl Stores {
    // Empty ones.
    #[tactic(auto, unfolding(spec::specs::Load::enough, spec::specs::Load::room_in, spec::specs::Load::room_of))]
    fn empty() -> Stores
        ensures { Covers (room_in (lent result.instructions result.log result.strings result.types)) (enough WORDS) }
    {
        Stores {
            instructions: [0; records::RECORD * WORDS],
            log: [0; 9 * WORDS],
            strings: [0; 4 * WORDS],
            types: [0; ENTRY * WORDS],
        }
    }
}

// WHETHER THEY AGREE

// Whether two answers are the same.
fn same_answer(a: Loaded, b: Loaded) -> bool {
    let c = a.counts;
    let d = b.counts;
    a.number == b.number
        && a.offset == b.offset
        && a.index == b.index
        && a.value == b.value
        && a.header == b.header
        && c.instructions == d.instructions
        && c.log == d.log
        && c.strings == d.strings
        && c.types == d.types
        && a.plain == b.plain
        && a.breaks == b.breaks
}

// Whether the prepared load of a module gives the same answer, and the same stores from empty ones.
fn agrees(module: &[u8], x: Loaded, stores: &Stores) -> bool
    requires { length «module».now ≤ 255 }
{
    let mut others = Stores::empty();
    let y = prepared(
        module,
        &mut others.instructions,
        &mut others.log,
        &mut others.strings,
        &mut others.types,
    );
    same_answer(x, y) && *stores == others
}

// A LINE

// Writes the first n records of a store, each of so many words or bytes.
fn records_of<T: Display>(rt: &impl Print, store: &[T], size: usize, n: usize) -> io::Result<()>
    requires { 1 ≤ size }
{
    print!(rt; " |")?;
    for record in store.chunks(size).take(n) {
        for x in record {
            print!(rt; " {x}")?;
        }
    }
    Ok(())
}

// Writes an answer: number, offset, index, value; header words; counts; 1 for plain, and what breaks it.
fn answer(rt: &impl Print, x: Loaded) -> io::Result<()> {
    print!(rt; " {} {} {} {} |", x.number, x.offset, x.index, x.value)?;
    for w in x.header {
        print!(rt; " {w}")?;
    }
    let c = x.counts;
    print!(rt; " | {} {} {} {}", c.instructions, c.log, c.strings, c.types)?;
    print!(rt; " | {} {}", u8::from(x.plain), x.breaks)
}

// Writes an answer, and the stores up to its counts.
fn show(rt: &impl Print, x: Loaded, stores: &Stores) -> io::Result<()> {
    answer(rt, x)?;
    records_of(
        rt,
        &stores.instructions,
        records::RECORD,
        x.counts.instructions,
    )?;
    records_of(rt, &stores.log, 1, x.counts.log)?;
    records_of(rt, &stores.strings, 1, x.counts.strings)?;
    records_of(rt, &stores.types, ENTRY, x.counts.types)
}

// Loads a module of at most 255 bytes in both ways, and writes its line.
fn line(rt: &impl Print, index: usize, module: &[u8]) -> io::Result<()>
    requires { length «module».now ≤ 255 }
{
    let mut stores = Stores::empty();
    let x = by_bytes(
        module,
        &mut stores.instructions,
        &mut stores.log,
        &mut stores.strings,
        &mut stores.types,
    );
    print!(rt; "{index}:")?;
    show(rt, x, &stores)?;
    if !agrees(module, x, &stores) {
        print!(rt; " differ")?;
    }
    println!(rt;)
}

// The modules of standard input; one that is cut short is left out.
fn main(rt: HostRuntime) -> io::Result<()> {
    let mut text = [0u8; 4096];
    let n = reading::read_full(&mut rt.reader(), &mut text)?;
    let mut rest = &text[..n];
    let mut index = 1;
    while let Some((size, after)) = rest.split_first() {
        let Some((module, after)) = after.split_at_checked(usize::from(*size)) else {
            break;
        };
        line(&rt, index, module)?;
        rest = after;
        index += 1;
    }
    Ok(())
}
