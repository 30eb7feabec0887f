// From an opcode to its row, from a kind and a value to the enumerant, and on from operand to operand, parameter to parameter.
ghost use Rattle.std.specs.Prelude.{◌≡◌, ◌+◌, ◌-◌, ◌≤◌, length, drop};
ghost use Rattle.spec.specs.Grammar.{items, slots_of, parameters_of, row_of, listed, bits_listed, parameters_for, grammar_of};
ghost use Rattle.spec.specs.Words.{bits_of};
ghost use Rattle.grammar.specs.Index.{marks_of, found, Indexed};
ghost use Rattle.grammar.specs.Find.{Sure, place_found, row_found, parameters_found, slots_then, slot_bytes, parameters_then, parameter_bytes, is_listed, bit_listed};

use crate::index::{guess_at, mark_at, mark_count, rises_to};
use crate::items::{Item, item_at};
use crate::kinds::is_mask;

// A well-formed grammar's bytes, with an index of them.
#[derive(Clone, Copy)]
pub struct Rows<'a> {
    pub bytes: &'a [u8],
    pub index: &'a [u16],
    pub ghost indexed: { Indexed bytes.now index.now },
}

impl<'a> Rows<'a> {
    // The rows of a grammar and its index.
    pub fn new(bytes: &'a [u8], index: &'a [u16]) -> Rows<'a>
        requires { Indexed bytes.now index.now }
        ensures { (result.bytes.now ≡ bytes.now) × (result.index.now ≡ index.now) }
    {
        Rows { bytes, index }
    }

    // Searches the rows and enumerants by halves.
    fn search(self, kind: u8, value: u32) -> Option<usize>
        ensures { result ≡ found kind value (marks_of self.entry.bytes.now) }
    {
        let mut low: usize = 0;
        let mut high = mark_count(self.index);
        while low < high {
            let middle = low + (high - low) / 2;
            let m = mark_at(self.bytes, self.index, middle);
            if rises_to(m.kind, m.value, kind, value) {
                low = middle + 1;
            } else {
                if rises_to(kind, value, m.kind, m.value) {
                    high = middle;
                } else {
                    return Some(m.place);
                }
            }
        }
        None
    }

    // Looks where the guess says.
    fn guessed(self, kind: u8, value: u32) -> Option<usize>
        ensures { Sure result → result ≡ found kind value (marks_of self.entry.bytes.now) }
    {
        let guess = guess_at(self.index, kind, value);
        if guess < mark_count(self.index) {
            let m = mark_at(self.bytes, self.index, guess);
            if m.kind == kind {
                if m.value == value {
                    return Some(m.place);
                }
            }
        }
        None
    }

    // Looks where the guess says, and else searches.
    fn look(self, kind: u8, value: u32) -> Option<usize>
        ensures { result ≡ found kind value (marks_of self.entry.bytes.now) }
    {
        match self.guessed(kind, value) {
            Some(place) => Some(place),
            None => self.search(kind, value),
        }
    }

    // Where the operands of an opcode's row start.
    pub fn find_row(self, opcode: u16) -> Option<usize>
        ensures result_value { row_found self.entry.bytes.now result ≡ row_of opcode (grammar_of self.entry.bytes.now).rows }
        ensures result_in_bounds { place_found result ≤ length self.entry.bytes.now }
    {
        let place = self.look(0, opcode as u32)?;
        Some(place + 3)
    }

    // The same where the guess says it, or nothing: short enough to stand where it is called.
    pub fn guess_row(self, opcode: u16) -> Option<usize>
        ensures result_value { Sure result → row_found self.entry.bytes.now result ≡ row_of opcode (grammar_of self.entry.bytes.now).rows }
        ensures result_in_bounds { place_found result ≤ length self.entry.bytes.now }
    {
        let place = self.guessed(0, opcode as u32)?;
        Some(place + 3)
    }

    // Where the parameters of the enumerant of a kind and a value start.
    pub fn find_enumerant(self, kind: u8, value: u32) -> Option<usize>
        ensures result_value { parameters_found self.entry.bytes.now result ≡ listed kind value (grammar_of self.entry.bytes.now).enumerants }
        ensures result_in_bounds { place_found result ≤ length self.entry.bytes.now }
    {
        if kind == 0 {
            return None;
        }
        let place = self.look(kind, value)?;
        Some(place + 6)
    }

    // The same where the guess says it, or nothing.
    pub fn guess_enumerant(self, kind: u8, value: u32) -> Option<usize>
        ensures result_value { Sure result → parameters_found self.entry.bytes.now result ≡ listed kind value (grammar_of self.entry.bytes.now).enumerants }
        ensures result_in_bounds { place_found result ≤ length self.entry.bytes.now }
    {
        if kind == 0 {
            return None;
        }
        let place = self.guessed(kind, value)?;
        Some(place + 6)
    }

    // Whether the enumerant of a kind and a value is listed.
    fn is_listed(self, kind: u8, value: u32) -> bool
        ensures { result ≡ is_listed (listed kind value (grammar_of self.entry.bytes.now).enumerants) }
    {
        self.find_enumerant(kind, value).is_some()
    }

    // Whether a bit is listed, where it is set.
    fn bit_listed(self, kind: u8, set: u32, bit: u32) -> bool
        ensures { result ≡ bit_listed (grammar_of self.entry.bytes.now).enumerants kind set bit }
    {
        if set == 1 {
            return self.is_listed(kind, bit);
        }
        true
    }

    // Whether each bit that is set in a mask is listed, lowest first.
    fn bits_listed(self, kind: u8, mask: u32) -> bool
        ensures { result ≡ is_listed (bits_listed kind (bits_of mask) (grammar_of self.entry.bytes.now).enumerants) }
    {
        let mut rest = mask;
        let mut bit: u64 = 1;
        while rest != 0 {
            if !self.bit_listed(kind, rest % 2, bit as u32) {
                return false;
            }
            rest = rest / 2;
            bit = 2 * bit;
        }
        true
    }

    // "A value must be listed. A mask is known when each set bit is listed; zero always is."
    pub fn is_known(self, kind: u8, value: u32) -> bool
        ensures { result ≡ is_listed (parameters_for kind value (grammar_of self.entry.bytes.now)) }
    {
        if is_mask(kind) {
            return self.bits_listed(kind, value);
        }
        self.is_listed(kind, value)
    }
}

// The operand that starts at a place, or the end of the row.
pub fn slot_at(g: &[u8], at: usize) -> Option<(u8, u8)>
    ensures g_value { slots_of (items (drop at g.now)) ≡ slots_then result (slots_of (items (drop (at + 3) g.now))) }
    ensures result_in_bounds { slot_bytes result ≤ length g.now - at }
{
    if g.len() <= at {
        return None;
    }
    let x = item_at(g, at);
    let Item::Operand(kind, quantifier) = x else {
        return None;
    };
    Some((kind, quantifier))
}

// The parameter that starts at a place, or the end of the enumerant.
pub fn parameter_at(g: &[u8], at: usize) -> Option<u8>
    ensures g_value { parameters_of (items (drop at g.now)) ≡ parameters_then result (parameters_of (items (drop (at + 2) g.now))) }
    ensures result_in_bounds { parameter_bytes result ≤ length g.now - at }
{
    if g.len() <= at {
        return None;
    }
    let x = item_at(g, at);
    let Item::Parameter(kind) = x else {
        return None;
    };
    Some(kind)
}
