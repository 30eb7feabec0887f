// Room: what lent stores have room for, and the first of them that lacks it.
#![tactic(auto)]

ghost use Rattle.std.specs.Prelude.{◌≡◌};
ghost use Rattle.spec.specs.Load.{room_of, room_fault};

use records::RECORD;
use spec::{Counts, refusals};

// How many words a type entry has.
const ENTRY: usize = 3;

// The room in stores of so many words, bytes, bytes and words.
#[tactic(auto, unfolding(spec::specs::Load::room_of))]
pub fn room_in(instructions: usize, log: usize, strings: usize, types: usize) -> Counts
    ensures { result ≡ room_of instructions log strings types }
{
    Counts {
        instructions: instructions / RECORD,
        log,
        strings,
        types: types / ENTRY,
    }
}

// The first store that lacks room: 25, 26, 27, 28 in that order, or 0.
#[tactic(auto, unfolding(spec::specs::Load::room_fault))]
pub fn room_fault(room: Counts, need: Counts) -> u32
    ensures { result ≡ room_fault room need }
{
    if room.instructions < need.instructions {
        return refusals::INSTRUCTIONS_FULL;
    }
    if room.log < need.log {
        return refusals::LOG_FULL;
    }
    if room.strings < need.strings {
        return refusals::STRINGS_FULL;
    }
    if room.types < need.types {
        return refusals::TYPES_FULL;
    }
    refusals::ACCEPTED
}
