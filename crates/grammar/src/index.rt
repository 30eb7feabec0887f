// The index of a grammar: the places of its rows and enumerants in their order, behind guesses at where to look first.
ghost use Rattle.std.specs.Prelude.{◌≡◌, [], ◌∷◌, ◌++◌, ◌+◌, ◌<◌, length, get_or};
ghost use Rattle.spec.specs.Grammar.{rises};
ghost use Rattle.grammar.specs.Items.{item_is};
ghost use Rattle.grammar.specs.Index.{mark_of, marks_of, mark_at, places_in, Indexed};

use crate::items::{Item, item_at};

// The guesses come first: for a kind and a value, the rank to look at first. A guess is tested before it is believed, so a wrong one costs
// time alone. The count of rows and enumerants follows, and then their places.
pub const GUESSES: usize = 1536;

const PLACES: usize = 1537;

// As many numbers as the index of any grammar takes: no row or enumerant has fewer than 3 of 65,535 bytes.
pub const SIZE: usize = 23382;

// A row (kind 0, its opcode as value) or an enumerant, and the place of its item.
#[derive(Clone, Copy)]
pub struct Mark {
    pub kind: u8,
    pub value: u32,
    pub place: usize,
}

// "(kind, value) strictly rising"
pub fn rises_to(j: u8, u: u32, k: u8, v: u32) -> bool
    ensures { result ≡ rises j u k v }
{
    (j, u) < (k, v)
}

// Where the guess for a kind and a value stands: one place for each opcode below 512, and 1,024 that the others share.
fn guess_place(kind: u8, value: u32) -> usize
    ensures { result < 1536 }
{
    if kind == 0 && value < 512 {
        return value as usize;
    }
    512 + ((kind as usize) * 116 + (value as usize)) % 1024
}

// Puts the place of the next row or enumerant, and its rank as a guess.
pub fn put(index: &mut [u16], rank: usize, kind: u8, value: u32, place: usize)
    requires { (1537 + rank < length index.old) × (rank < 65536) × (place < 65536) }
    ensures { places_in (rank + 1) index.new ≡ places_in rank index.old ++ (place ∷ []) }
{
    let guess = guess_place(kind, value);
    index[PLACES + rank] = place as u16;
    index[guess] = rank as u16;
}

// How many rows and enumerants there are.
pub fn mark_count(index: &[u16]) -> usize
    requires { 1536 < length index.now }
    ensures { result ≡ get_or index.now 1536 0 }
{
    index[GUESSES] as usize
}

// The guess for a kind and a value.
pub fn guess_at(index: &[u16], kind: u8, value: u32) -> usize
    requires { 1536 < length index.now }
{
    index[guess_place(kind, value)] as usize
}

// The mark of an item at a place.
pub fn mark_of(x: Item, place: usize) -> Mark
    ensures { result ≡ mark_of (item_is x) place }
{
    match x {
        Item::Row(opcode) => Mark {
            kind: 0,
            value: opcode as u32,
            place,
        },
        Item::Enumerant(kind, value) => Mark { kind, value, place },
        _ => Mark {
            kind: 0,
            value: 0,
            place,
        },
    }
}

// The row or enumerant of a rank.
pub fn mark_at(g: &[u8], index: &[u16], rank: usize) -> Mark
    requires indexed { Indexed g.now index.now }
    requires rank_in_bounds { rank < length (marks_of g.now) }
    ensures { result ≡ mark_at (marks_of g.now) rank }
{
    let place = index[PLACES + rank] as usize;
    mark_of(item_at(g, place), place)
}
