// The library as other languages call it (include/kollafrin.h; `kollafrin_c` exports it): each function is a thin call over a proved one.
// An answer is written into words that the caller lends.
//
// A word of an answer is the number itself, never its low bits. Offsets, index and counts of a load fit 32 bits, since a module has at
// most 67,108,864 bytes. So does the index of a bad record, for stores and counts of any size: the offset of a good record is a word
// of 32 bits and each good record moves it by four bytes or more, so that no more than 2^30 records are good.
// The bytes written may be more, and take two words; the records that a book is turned into are good ones, and few.
//
// Each call has a name of its own and takes its stores one by one, with their counts beside them, since C calls it so.
#![tactic(auto)]

ghost use Rattle.std.specs.Prelude.{◌≡◌, ◌<◌, length};
ghost use Rattle.spec.specs.Builtin.{builtin};
ghost use Rattle.spec.specs.Load.{lent, Small};
ghost use Rattle.spec.specs.Write.{write_parse, write_module, standing as standing_of};
ghost use Rattle.spec.specs.Disassembly.{disassemble as disassemble_of};
ghost use Rattle.spec.specs.Books.{new_book, old_book};
ghost use Rattle.records.specs.Steps.{given};
ghost use Rattle.kollafrin.specs.Answers.{version, load_answer, LoadAnswers, write_answer, WriteAnswers, StandAnswers, turn_answer, TurnAnswers, join_answer, JoinAnswers, laid_in};

use spec::{Joined, Loaded, Stands, Turned, Written};

// The version of the layouts and calls: KOLLAFRIN_VERSION of the header.
const VERSION: u32 = 3;

// A load's answer into words.
#[tactic(auto, unfolding(crate::specs::Answers::load_answer))]
fn say_loaded(x: Loaded, answer: &mut [u32; 16]) -> u32
    requires { Small x }
    ensures value { result ≡ x.number }
    ensures answer_after { answer.new ≡ load_answer x }
{
    let c = x.counts;
    let h = x.header;
    *answer = [
        x.number,
        x.offset as u32,
        x.index as u32,
        x.value,
        c.instructions as u32,
        c.log as u32,
        c.strings as u32,
        c.types as u32,
        h[0],
        h[1],
        h[2],
        h[3],
        h[4],
        u32::from(x.plain),
        x.breaks as u32,
        0,
    ];
    x.number
}

// A writer's answer into words: the bytes written take two.
#[tactic(auto, unfolding(crate::specs::Answers::write_answer))]
fn say_written(x: Written, answer: &mut [u32; 4]) -> u32
    requires { x.index < 4294967296 }
    ensures value { result ≡ x.number }
    ensures answer_after { answer.new ≡ write_answer x }
{
    *answer = [
        x.number,
        x.index as u32,
        (x.bytes % 4294967296) as u32,
        (x.bytes / 4294967296) as u32,
    ];
    x.number
}

// The answer of standing into words.
#[tactic(auto, unfolding(crate::specs::Answers::stand_answer))]
fn say_standing(x: Stands, answer: &mut [u32; 4]) -> u32
    requires { x.index < 4294967296 }
    ensures { StandAnswers x answer.new result }
{
    *answer = [x.number, x.index as u32, u32::from(x.yes), 0];
    x.number
}

// The answer of turning a book into words.
#[tactic(auto, unfolding(crate::specs::Answers::turn_answer))]
fn say_turned(x: Turned, answer: &mut [u32; 4]) -> u32
    requires { (x.index < 4294967296) × (x.records < 4294967296) }
    ensures value { result ≡ x.number }
    ensures answer_after { answer.new ≡ turn_answer x }
{
    *answer = [x.number, x.index as u32, x.records as u32, 0];
    x.number
}

// The answer of joining into words.
#[tactic(auto, unfolding(crate::specs::Answers::join_answer))]
fn say_joined(x: Joined, answer: &mut [u32; 4]) -> u32
    requires { x.bytes < 4294967296 }
    ensures value { result ≡ x.number }
    ensures answer_after { answer.new ≡ join_answer x }
{
    *answer = [x.number, x.place, x.value, x.bytes as u32];
    x.number
}

// Bytes at the start of `out` where they fit, and their length.
fn put_where_fits(bytes: &[u8], out: &mut [u8]) -> usize
    ensures value { result ≡ length bytes.now }
    ensures out_after { out.new ≡ laid_in out.old bytes.now }
{
    if bytes.len() <= out.len() {
        words::put_bytes(out, 0, bytes);
    }
    bytes.len()
}

// The version, for a caller to compare with that of the header it was compiled with.
#[tactic(auto, unfolding(crate::specs::Answers::version))]
pub fn kollafrin_version() -> u32
    ensures { result ≡ version }
{
    VERSION
}

// The length of the built-in grammar; its bytes go to the start of `out` where they fit, else `out` stays.
pub fn kollafrin_builtin(out: &mut [u8]) -> usize
    ensures value { result ≡ length builtin }
    ensures out_after { out.new ≡ laid_in out.old builtin }
{
    let table = builtin::table();
    put_where_fits(&table, out)
}

// Loads a module by the bytes of a grammar: the number, and the whole answer in `answer`.
pub fn kollafrin_load(
    module: &[u8],
    grammar: &[u8],
    instructions: &mut [u32],
    log: &mut [u8],
    strings: &mut [u8],
    types: &mut [u32],
    answer: &mut [u32; 16],
) -> u32
    ensures { LoadAnswers «module».now grammar.now
        (lent instructions.old log.old strings.old types.old)
        (lent instructions.new log.new strings.new types.new)
        answer.new result }
{
    let x = loader::load(module, grammar, instructions, log, strings, types);
    say_loaded(x, answer)
}

// Loads a module by the built-in grammar.
pub fn kollafrin_load_builtin(
    module: &[u8],
    instructions: &mut [u32],
    log: &mut [u8],
    strings: &mut [u8],
    types: &mut [u32],
    answer: &mut [u32; 16],
) -> u32
    ensures { LoadAnswers «module».now builtin
        (lent instructions.old log.old strings.old types.old)
        (lent instructions.new log.new strings.new types.new)
        answer.new result }
{
    let x = loader::load_builtin(module, instructions, log, strings, types);
    say_loaded(x, answer)
}

// Writes the header words and the instructions as read: the number, and the whole answer in `answer`.
pub fn kollafrin_write_parse_order(
    header: &[u32; 5],
    instructions: &[u32],
    log: &[u8],
    strings: &[u8],
    instruction_count: usize,
    log_count: usize,
    string_count: usize,
    out: &mut [u8],
    answer: &mut [u32; 4],
) -> u32
    ensures { WriteAnswers
        (write_parse header.now (given instructions.now log.now strings.now
        instruction_count log_count string_count) out.old)
        out.new answer.new result }
{
    let x = assemble::write_parse_order(
        *header,
        instructions,
        log,
        strings,
        instruction_count,
        log_count,
        string_count,
        out,
    );
    say_written(x, answer)
}

// Writes in module order.
pub fn kollafrin_write_module_order(
    header: &[u32; 5],
    instructions: &[u32],
    log: &[u8],
    strings: &[u8],
    instruction_count: usize,
    log_count: usize,
    string_count: usize,
    out: &mut [u8],
    answer: &mut [u32; 4],
) -> u32
    ensures { WriteAnswers
        (write_module header.now (given instructions.now log.now strings.now
        instruction_count log_count string_count) out.old)
        out.new answer.new result }
{
    let x = assemble::write_module_order(
        *header,
        instructions,
        log,
        strings,
        instruction_count,
        log_count,
        string_count,
        out,
    );
    say_written(x, answer)
}

// Writes the records of a module as text, for people.
pub fn kollafrin_disassemble(
    header: &[u32; 5],
    instructions: &[u32],
    log: &[u8],
    strings: &[u8],
    instruction_count: usize,
    log_count: usize,
    string_count: usize,
    out: &mut [u8],
    answer: &mut [u32; 4],
) -> u32
    ensures { WriteAnswers
        (disassemble_of header.now (given instructions.now log.now strings.now
        instruction_count log_count string_count) out.old)
        out.new answer.new result }
{
    let x = disassemble::disassemble(
        *header,
        instructions,
        log,
        strings,
        instruction_count,
        log_count,
        string_count,
        out,
    );
    say_written(x, answer)
}

// Whether the records of a module are standing: the number, and the whole answer in `answer`.
pub fn kollafrin_standing(
    instructions: &[u32],
    log: &[u8],
    strings: &[u8],
    instruction_count: usize,
    log_count: usize,
    string_count: usize,
    answer: &mut [u32; 4],
) -> u32
    ensures { StandAnswers
        (standing_of (given instructions.now log.now strings.now
        instruction_count log_count string_count))
        answer.new result }
{
    let x = standing::standing(
        instructions,
        log,
        strings,
        instruction_count,
        log_count,
        string_count,
    );
    say_standing(x, answer)
}

// Turns last season's records, of eight words, into records of ten, written to `out`: the number, and the whole answer in `answer`.
pub fn kollafrin_new_book(
    records: &[u32],
    log: &[u8],
    strings: &[u8],
    instruction_count: usize,
    log_count: usize,
    string_count: usize,
    out: &mut [u32],
    answer: &mut [u32; 4],
) -> u32
    ensures { TurnAnswers
        (new_book (given records.now log.now strings.now
        instruction_count log_count string_count) out.old)
        out.new answer.new result }
{
    let x = books::new_book(
        records,
        log,
        strings,
        instruction_count,
        log_count,
        string_count,
        out,
    );
    say_turned(x, answer)
}

// Turns records of ten words into last season's.
pub fn kollafrin_old_book(
    records: &[u32],
    log: &[u8],
    strings: &[u8],
    instruction_count: usize,
    log_count: usize,
    string_count: usize,
    out: &mut [u32],
    answer: &mut [u32; 4],
) -> u32
    ensures { TurnAnswers
        (old_book (given records.now log.now strings.now
        instruction_count log_count string_count) out.old)
        out.new answer.new result }
{
    let x = books::old_book(
        records,
        log,
        strings,
        instruction_count,
        log_count,
        string_count,
        out,
    );
    say_turned(x, answer)
}

// Joins two grammars into one, written to `out`: the number, and the whole answer in `answer`.
pub fn kollafrin_join(first: &[u8], second: &[u8], out: &mut [u8], answer: &mut [u32; 4]) -> u32
    ensures { JoinAnswers first.now second.now out.old out.new answer.new result }
{
    let x = join::join(first, second, out);
    say_joined(x, answer)
}
