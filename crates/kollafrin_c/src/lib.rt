// The functions of `kollafrin` for C (include/kollafrin.h), by the names that C calls: a static library. A slice passes as its pointer and
// its length, a store as the words or bytes that it is, and an answer is written into words that the caller lends.
#![tactic(auto)]

ghost use Rattle.std.specs.Prelude.{◌≡◌, length};
ghost use Rattle.spec.specs.Builtin.{builtin};
ghost use Rattle.spec.specs.Load.{lent};
ghost use Rattle.spec.specs.Write.{write_parse, write_module, standing as standing_of};
ghost use Rattle.spec.specs.Disassembly.{disassemble as disassemble_of};
ghost use Rattle.spec.specs.Books.{new_book, old_book};
ghost use Rattle.records.specs.Steps.{given};
ghost use Rattle.kollafrin.specs.Answers.{version, LoadAnswers, WriteAnswers, StandAnswers, TurnAnswers, JoinAnswers, laid_in};

// The version, for a caller to compare with that of the header it was compiled with.
#[unsafe(no_mangle)]
pub extern "C" fn kollafrin_version() -> u32
    ensures { result ≡ version }
{
    kollafrin::kollafrin_version()
}

// The length of the built-in grammar; its bytes go to the start of `out` where they fit, else `out` stays.
#[unsafe(no_mangle)]
pub extern "C" fn kollafrin_builtin(out: &mut [u8]) -> usize
    ensures value { result ≡ length builtin }
    ensures out_after { out.new ≡ laid_in out.old builtin }
{
    kollafrin::kollafrin_builtin(out)
}

// Loads a module by the bytes of a grammar: the number, and the whole answer in `answer`.
#[unsafe(no_mangle)]
pub extern "C" fn kollafrin_load(
    module: &[u8],
    grammar: &[u8],
    instructions: &mut [u32],
    log: &mut [u8],
    strings: &mut [u8],
    types: &mut [u32],
    answer: &mut [u32; 16],
) -> u32
    ensures { LoadAnswers «module».now grammar.now
        (lent instructions.old log.old strings.old types.old)
        (lent instructions.new log.new strings.new types.new)
        answer.new result }
{
    kollafrin::kollafrin_load(module, grammar, instructions, log, strings, types, answer)
}

// Loads a module by the built-in grammar.
#[unsafe(no_mangle)]
pub extern "C" fn kollafrin_load_builtin(
    module: &[u8],
    instructions: &mut [u32],
    log: &mut [u8],
    strings: &mut [u8],
    types: &mut [u32],
    answer: &mut [u32; 16],
) -> u32
    ensures { LoadAnswers «module».now builtin
        (lent instructions.old log.old strings.old types.old)
        (lent instructions.new log.new strings.new types.new)
        answer.new result }
{
    kollafrin::kollafrin_load_builtin(module, instructions, log, strings, types, answer)
}

// Writes the header words and the instructions as read: the number, and the whole answer in `answer`.
#[unsafe(no_mangle)]
pub extern "C" fn kollafrin_write_parse_order(
    header: &[u32; 5],
    instructions: &[u32],
    log: &[u8],
    strings: &[u8],
    instruction_count: usize,
    log_count: usize,
    string_count: usize,
    out: &mut [u8],
    answer: &mut [u32; 4],
) -> u32
    ensures { WriteAnswers
        (write_parse header.now (given instructions.now log.now strings.now
        instruction_count log_count string_count) out.old)
        out.new answer.new result }
{
    kollafrin::kollafrin_write_parse_order(
        header,
        instructions,
        log,
        strings,
        instruction_count,
        log_count,
        string_count,
        out,
        answer,
    )
}

// Writes in module order.
#[unsafe(no_mangle)]
pub extern "C" fn kollafrin_write_module_order(
    header: &[u32; 5],
    instructions: &[u32],
    log: &[u8],
    strings: &[u8],
    instruction_count: usize,
    log_count: usize,
    string_count: usize,
    out: &mut [u8],
    answer: &mut [u32; 4],
) -> u32
    ensures { WriteAnswers
        (write_module header.now (given instructions.now log.now strings.now
        instruction_count log_count string_count) out.old)
        out.new answer.new result }
{
    kollafrin::kollafrin_write_module_order(
        header,
        instructions,
        log,
        strings,
        instruction_count,
        log_count,
        string_count,
        out,
        answer,
    )
}

// Writes the records of a module as text, for people.
#[unsafe(no_mangle)]
pub extern "C" fn kollafrin_disassemble(
    header: &[u32; 5],
    instructions: &[u32],
    log: &[u8],
    strings: &[u8],
    instruction_count: usize,
    log_count: usize,
    string_count: usize,
    out: &mut [u8],
    answer: &mut [u32; 4],
) -> u32
    ensures { WriteAnswers
        (disassemble_of header.now (given instructions.now log.now strings.now
        instruction_count log_count string_count) out.old)
        out.new answer.new result }
{
    kollafrin::kollafrin_disassemble(
        header,
        instructions,
        log,
        strings,
        instruction_count,
        log_count,
        string_count,
        out,
        answer,
    )
}

// Whether the records of a module are standing: the number, and the whole answer in `answer`.
#[unsafe(no_mangle)]
pub extern "C" fn kollafrin_standing(
    instructions: &[u32],
    log: &[u8],
    strings: &[u8],
    instruction_count: usize,
    log_count: usize,
    string_count: usize,
    answer: &mut [u32; 4],
) -> u32
    ensures { StandAnswers
        (standing_of (given instructions.now log.now strings.now
        instruction_count log_count string_count))
        answer.new result }
{
    kollafrin::kollafrin_standing(
        instructions,
        log,
        strings,
        instruction_count,
        log_count,
        string_count,
        answer,
    )
}

// Turns last season's records, of eight words, into records of ten, written to `out`: the number, and the whole answer in `answer`.
#[unsafe(no_mangle)]
pub extern "C" fn kollafrin_new_book(
    records: &[u32],
    log: &[u8],
    strings: &[u8],
    instruction_count: usize,
    log_count: usize,
    string_count: usize,
    out: &mut [u32],
    answer: &mut [u32; 4],
) -> u32
    ensures { TurnAnswers
        (new_book (given records.now log.now strings.now
        instruction_count log_count string_count) out.old)
        out.new answer.new result }
{
    kollafrin::kollafrin_new_book(
        records,
        log,
        strings,
        instruction_count,
        log_count,
        string_count,
        out,
        answer,
    )
}

// Turns records of ten words into last season's.
#[unsafe(no_mangle)]
pub extern "C" fn kollafrin_old_book(
    records: &[u32],
    log: &[u8],
    strings: &[u8],
    instruction_count: usize,
    log_count: usize,
    string_count: usize,
    out: &mut [u32],
    answer: &mut [u32; 4],
) -> u32
    ensures { TurnAnswers
        (old_book (given records.now log.now strings.now
        instruction_count log_count string_count) out.old)
        out.new answer.new result }
{
    kollafrin::kollafrin_old_book(
        records,
        log,
        strings,
        instruction_count,
        log_count,
        string_count,
        out,
        answer,
    )
}

// Joins two grammars into one, written to `out`: the number, and the whole answer in `answer`.
#[unsafe(no_mangle)]
pub extern "C" fn kollafrin_join(
    first: &[u8],
    second: &[u8],
    out: &mut [u8],
    answer: &mut [u32; 4],
) -> u32
    ensures { JoinAnswers first.now second.now out.old out.new answer.new result }
{
    kollafrin::kollafrin_join(first, second, out, answer)
}
