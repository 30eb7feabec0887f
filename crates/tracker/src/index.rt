// Where an id's entry stands, by hints, so that no well-meant module is searched.
//
// The hints are one run of numbers of 16 bits. The first of them are marks, a bit for each id below 16 times their number: set where the
// id has an entry. The others are slots. An id has a slot of its own where there are enough, else it shares one: 0 where no id of the
// slot has an entry, else one more than the index at which such an entry may stand, which is tested before it is believed. What neither
// tells is looked for among all entries.
ghost use Rattle.std.specs.Prelude.{◌≡◌, false, ◌+◌, ◌*◌, ◌/◌, ◌<◌, ◌≤◌, length};
ghost use Rattle.tracker.specs.Entries.{entries_of, place_of};
ghost use Rattle.tracker.specs.Hints.{is_marked, marks_for, slot_of, guess_for, is_own, marked_for, guessed_for, noted, Alone, Hinted};

use crate::TypeTracker;

// An id without a slot of its own shares one of so many.
const SHARED: usize = 2048;

// A guess has 16 bits: no greater one is made.
const LAST: usize = 65535;

// How many marks are made of some hints, for a module whose ids lie below a bound: none where each id can have a slot of its own, else
// as many as leave the slots that are shared.
pub fn marks_for(bound: u32, hints: usize) -> usize
    requires { 2048 ≤ hints }
    ensures { result ≡ marks_for bound hints }
{
    if (bound as usize) <= hints {
        return 0;
    }
    hints - SHARED
}

// Whether the mark of an id is set.
fn is_marked(hints: &[u16], id: usize) -> bool
    requires { id / 16 < length hints.now }
    ensures { result ≡ is_marked hints.now id }
{
    (hints[id / 16] >> (id % 16)) % 2 == 1
}

// Sets the mark of an id, where it has one.
fn mark(hints: &mut [u16], marks: usize, id: usize)
    requires marks_in_bounds { marks ≤ length hints.old }
    requires id_value { id / 16 < marks → is_marked hints.old id ≡ false }
    ensures { hints.new ≡ marked_for marks hints.old id }
{
    let at = id / 16;
    if at < marks {
        let bit = 1u16 << (id % 16);
        hints[at] += bit;
    }
}

// The place of an id's slot among the hints: one of its own behind the marks, or one of the last, which are shared.
fn slot_of(hints: usize, marks: usize, id: usize) -> usize
    requires { marks + 2048 ≤ hints }
    ensures { (result ≡ slot_of hints marks id) × (result < hints) }
{
    let shared = hints - SHARED;
    if id < shared - marks {
        return marks + id;
    }
    shared + id % SHARED
}

// The guess for an index.
#[tactic(auto, unfolding(crate::specs::Hints::guess_for))]
fn guess_for(index: usize) -> u16
    ensures { result ≡ guess_for index }
{
    index.saturating_add(1).min(LAST) as u16
}

// Whether the entry of a guess is the id's.
#[tactic(auto, unfolding(crate::specs::Hints::is_own))]
fn is_own(types: &[u32], count: usize, guess: usize, id: u32) -> bool
    requires { (3 * count ≤ length types.now) × (1 ≤ guess) }
    ensures { result ≡ is_own count types.now guess id }
{
    guess <= count && types[3 * (guess - 1)] == id
}

// Where an id's entry stands, by a look at each, the first and the last before those between: types come first, and values are used
// soon.
fn scan(types: &[u32], count: usize, id: u32) -> Option<usize>
    requires { (3 * count ≤ length types.now) × Alone count types.now }
    ensures { result ≡ place_of id (entries_of count types.now) }
{
    // A `while`: two places move towards each other, and a `for` has one.
    let mut i = 0;
    let mut end = count;
    while i < end {
        if types[3 * i] == id {
            return Some(i);
        }
        end -= 1;
        if types[3 * end] == id {
            return Some(end);
        }
        i += 1;
    }
    None
}

// Where an id's entry stands: an id above the greatest has none, nor has one whose mark is not set or whose slot is empty.
pub fn find(t: TypeTracker, types: &[u32], hints: &[u16], id: u32) -> Option<usize>
    requires count_in_bounds { 3 * t.count ≤ length types.now }
    requires hinted { Hinted t types.now hints.now }
    ensures { result ≡ place_of id (entries_of t.count types.now) }
{
    if t.greatest < id {
        return None;
    }
    let at = id as usize;
    let marks = t.marks;
    if at / 16 < marks {
        if !is_marked(hints, at) {
            return None;
        }
    }
    let slot = slot_of(hints.len(), marks, at);
    let guess = hints[slot] as usize;
    if guess == 0 {
        return None;
    }
    if is_own(types, t.count, guess, id) {
        return Some(guess - 1);
    }
    scan(types, t.count, id)
}

// Puts the guess for an index into the slot of an id, where that is empty.
fn guess(hints: &mut [u16], marks: usize, id: usize, index: usize)
    requires { marks + 2048 ≤ length hints.old }
    ensures { hints.new ≡ guessed_for marks hints.old id index }
{
    let slot = slot_of(hints.len(), marks, id);
    if hints[slot] == 0 {
        hints[slot] = guess_for(index);
    }
}

// Notes the index of the entry of an id that had none.
pub fn note(hints: &mut [u16], marks: usize, id: u32, index: usize)
    requires marks_in_bounds { marks + 2048 ≤ length hints.old }
    requires id_value { id / 16 < marks → is_marked hints.old id ≡ false }
    ensures { hints.new ≡ noted marks hints.old id index }
{
    let at = id as usize;
    mark(hints, marks, at);
    guess(hints, marks, at, index);
}
