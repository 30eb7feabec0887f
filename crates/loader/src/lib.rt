// Loading: a module's instructions into lent stores, each decoded, placed in the layout and given room, or the first fault.
#![tactic(auto)]

ghost use Rattle.spec.specs.Builtin.{builtin};
ghost use Rattle.spec.specs.Load.{lent};
ghost use Rattle.loader.specs.Loading.{Loads};

mod run;

use grammar::Rows;
use run::load_indexed;
use spec::{Loaded, refusals};
use steps::no_instruction;

// Loads a module by the bytes of a grammar.
pub fn load(
    module: &[u8],
    grammar: &[u8],
    instructions: &mut [u32],
    log: &mut [u8],
    strings: &mut [u8],
    types: &mut [u32],
) -> Loaded
    ensures { Loads «module».now grammar.now
        (lent instructions.old log.old strings.old types.old)
        (lent instructions.new log.new strings.new types.new) result }
{
    let mut index = [0u16; grammar::SIZE];
    if !formed::prepare(grammar, &mut index) {
        return no_instruction(refusals::BAD_GRAMMAR, 0);
    }
    let rows = Rows::new(grammar, &index);
    load_indexed(module, rows, instructions, log, strings, types)
}

// Loads a module by the built-in grammar, for which nothing is checked or indexed at run time.
pub fn load_builtin(
    module: &[u8],
    instructions: &mut [u32],
    log: &mut [u8],
    strings: &mut [u8],
    types: &mut [u32],
) -> Loaded
    ensures { Loads «module».now builtin
        (lent instructions.old log.old strings.old types.old)
        (lent instructions.new log.new strings.new types.new) result }
{
    let rows = Rows::new(builtin::bytes(), builtin::prepared());
    load_indexed(module, rows, instructions, log, strings, types)
}
