// From a module to records and back.
#![tactic(auto)]

ghost use Rattle.std.specs.Prelude.{◌≡◌, ◌&&◌, eqb};
ghost use Rattle.spec.specs.Load.{lent};
ghost use Rattle.round_trip.specs.Trip.{RoundTrip};

// Whether three numbers are 0.
fn all_zero(a: u32, b: u32, c: u32) -> bool
    ensures { result ≡ (eqb a 0 && eqb b 0 && eqb c 0) }
{
    a == 0 && b == 0 && c == 0
}

// Loads a module, writes its records in the order read, and loads what was written into other stores: whether the module came back.
// The stores come one by one, as a load and its contract take them.
pub fn round_trip(
    module: &[u8],
    grammar: &[u8],
    instructions: &mut [u32],
    log: &mut [u8],
    strings: &mut [u8],
    types: &mut [u32],
    out: &mut [u8],
    instructions_back: &mut [u32],
    log_back: &mut [u8],
    strings_back: &mut [u8],
    types_back: &mut [u32],
) -> bool
    ensures { RoundTrip grammar.now «module».now
        (lent instructions.old log.old strings.old types.old)
        out.old
        (lent instructions_back.old log_back.old strings_back.old types_back.old)
        result
        (lent instructions.new log.new strings.new types.new)
        out.new
        (lent instructions_back.new log_back.new strings_back.new types_back.new) }
{
    let first = loader::load(module, grammar, instructions, log, strings, types);
    let counts = first.counts;
    let written = assemble::write_parse_order(
        first.header,
        instructions,
        log,
        strings,
        counts.instructions,
        counts.log,
        counts.strings,
        out,
    );
    let second = loader::load(
        &out[..written.bytes],
        grammar,
        instructions_back,
        log_back,
        strings_back,
        types_back,
    );
    all_zero(first.number, written.number, second.number)
}
