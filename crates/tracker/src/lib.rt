// Type tracking: ids and their types, kept as entries of three words in a lent store.
#![tactic(auto)]

ghost use Rattle.std.specs.Prelude.{◌≡◌, List, ◌∷◌, [], ℕ, ◌+◌, ◌*◌, ◌<◌, ◌≤◌, length};
ghost use Rattle.std.proofs.lemmas.List.Edits.{sets};
ghost use Rattle.spec.specs.Records.{Entry};
ghost use Rattle.spec.specs.Types.{define};
ghost use Rattle.operand.specs.Parts.{Fits};
ghost use Rattle.tracker.specs.Entries.{entries_of, type_at, known_of};
ghost use Rattle.tracker.specs.Hints.{marks_for, greater_of, Hinted};
ghost use Rattle.tracker.specs.Track.{literal_of, FirstFit, int_of, float_of, type_of, told_with, told_of, defined, Tracked};

mod index;

use index::{find, marks_for, note};
use operand::{Operand, Parts, operand_of};
use spec::opcodes;

// What is known of an id's type: its width, and its sort: 1 unsigned, 2 signed, 3 float.
#[derive(Clone, Copy)]
pub struct Scalar {
    pub width: u32,
    pub sort: u32,
}

// What type tracking is told of an instruction: its opcode, its results, how many operands, and kind and value of the first two.
#[derive(Clone, Copy)]
pub struct Told {
    pub opcode: u16,
    pub rtype: Option<u32>,
    pub rid: Option<u32>,
    pub operands: usize,
    pub first: Parts,
    pub second: Parts,
}

// How many entries there are in the store, which is lent to each call; an id above which none has an entry; and how many of the hints,
// which are lent too, are marks.
#[derive(Clone, Copy)]
pub struct TypeTracker {
    pub count: usize,
    pub greatest: u32,
    pub marks: usize,
}

// The greater of two ids.
fn greater(a: u32, b: u32) -> u32
    ensures { result ≡ greater_of a b }
{
    if a < b {
        return b;
    }
    a
}

// The type that the entry at an index says.
fn type_at(types: &[u32], index: usize) -> Scalar
    requires { 3 * index + 3 ≤ length types.now }
    ensures { result ≡ type_at types.now index }
{
    Scalar {
        width: types[3 * index + 1],
        sort: types[3 * index + 2],
    }
}

// An entry, stored at an index.
fn put_entry(types: &mut [u32], index: usize, id: u32, width: u32, sort: u32)
    requires { 3 * index + 3 ≤ length types.old }
    ensures { types.new ≡ sets types.old (3 * index) (id ∷ width ∷ sort ∷ []) }
{
    let at = 3 * index;
    types[at] = id;
    types[at + 1] = width;
    types[at + 2] = sort;
}

// OpTypeInt: "an operand record that is no LiteralInt32 sets no width".
fn track_int(count: usize, first: Parts, second: Parts) -> Option<Scalar>
    requires { FirstFit count first second }
    ensures { (id : ℕ) (es : List Entry) → defined id result es ≡ int_of id count (literal_of first) (literal_of second) es }
{
    if count < 2 {
        return None;
    }
    let Operand::LiteralInt32(width) = operand_of(first.kind, first.value) else {
        return None;
    };
    let Operand::LiteralInt32(sign) = operand_of(second.kind, second.value) else {
        return None;
    };
    if sign == 1 {
        return Some(Scalar { width, sort: 2 });
    }
    Some(Scalar { width, sort: 1 })
}

// OpTypeFloat: the same, with a width alone.
fn track_float(count: usize, only: Parts) -> Option<Scalar>
    requires { 1 ≤ count → Fits only.kind only.value }
    ensures { (id : ℕ) (es : List Entry) → defined id result es ≡ float_of id count (literal_of only) es }
{
    if count < 1 {
        return None;
    }
    let Operand::LiteralInt32(width) = operand_of(only.kind, only.value) else {
        return None;
    };
    Some(Scalar { width, sort: 3 })
}

// A result that is a type: integers and floats alone are tracked.
fn track_type(opcode: u16, count: usize, first: Parts, second: Parts) -> Option<Scalar>
    requires { FirstFit count first second }
    ensures { (id : ℕ) (es : List Entry) → defined id result es ≡ type_of opcode id count (literal_of first) (literal_of second) es }
{
    match opcode {
        opcodes::TYPE_INT => track_int(count, first, second),
        opcodes::TYPE_FLOAT => track_float(count, first),
        _ => None,
    }
}

// The type that the result of an instruction has, where it is tracked, by the type of its result type.
fn typed(told: Told, known: Option<Scalar>) -> Option<Scalar>
    requires { FirstFit told.operands told.first told.second }
    ensures { (es : List Entry) → known ≡ known_of told.rtype es → (id : ℕ) → defined id result es ≡ told_with told (Some id) es }
{
    if reflect::is_type(told.opcode) {
        return track_type(told.opcode, told.operands, told.first, told.second);
    }
    known
}

impl TypeTracker {
    // No entries, for a module whose ids lie below a bound, with so many hints.
    pub fn new(bound: u32, hints: usize) -> TypeTracker
        requires { 2048 ≤ hints }
        ensures { result ≡ record { count = 0; greatest = 0; marks = marks_for bound hints } }
    {
        TypeTracker {
            count: 0,
            greatest: 0,
            marks: marks_for(bound, hints),
        }
    }

    // The type of an id, where it is there and known.
    pub fn resolve(self, types: &[u32], hints: &[u16], id: Option<u32>) -> Option<Scalar>
        requires count_in_bounds { 3 * self.count ≤ length types.now }
        requires hinted { Hinted self types.now hints.now }
        ensures { result ≡ known_of id (entries_of self.count types.now) }
    {
        let index = find(self, types, hints, id?)?;
        Some(type_at(types, index))
    }

    // How many entries there are after an instruction, before anything is stored.
    pub fn after(self, types: &[u32], hints: &[u16], told: Told) -> usize
        requires count_in_bounds { 3 * self.count ≤ length types.now }
        requires hinted { Hinted self types.now hints.now }
        requires first_fit { FirstFit told.operands told.first told.second }
        ensures { result ≡ length (told_of told (entries_of self.count types.now)) }
    {
        let Some(id) = told.rid else {
            return self.count;
        };
        let known = self.resolve(types, hints, told.rtype);
        let Some(_) = typed(told, known) else {
            return self.count;
        };
        let Some(_) = find(self, types, hints, id) else {
            return self.count + 1;
        };
        self.count
    }

    // "The last definition of an id holds, in the same entry"; a new id's entry comes last.
    fn define(
        mut self,
        types: &mut [u32],
        hints: &mut [u16],
        id: u32,
        width: u32,
        sort: u32,
    ) -> TypeTracker
        requires count_in_bounds { 3 * self.count ≤ length types.old }
        requires hinted { Hinted self types.old hints.old }
        requires types_in_bounds { 3 * length (define id width sort (entries_of self.count types.old)) ≤ length types.old }
        ensures { Tracked self types.old hints.old types.new hints.new (define id width sort (entries_of self.count types.old)) result }
    {
        let Some(i) = find(self, types, hints, id) else {
            put_entry(types, self.count, id, width, sort);
            note(hints, self.marks, id, self.count);
            self.greatest = greater(self.greatest, id);
            self.count += 1;
            return self;
        };
        put_entry(types, i, id, width, sort);
        self
    }

    // Tracks an instruction: the entries after it, where there is room for them.
    pub fn track(self, types: &mut [u32], hints: &mut [u16], told: Told) -> TypeTracker
        requires hinted { Hinted self types.old hints.old }
        requires types_in_bounds { 3 * length (told_of told (entries_of self.count types.old)) ≤ length types.old }
        requires first_fit { FirstFit told.operands told.first told.second }
        ensures { Tracked self types.old hints.old types.new hints.new (told_of told (entries_of self.count types.old)) result }
    {
        let Some(id) = told.rid else {
            return self;
        };
        let known = self.resolve(types, hints, told.rtype);
        let Some(x) = typed(told, known) else {
            return self;
        };
        self.define(types, hints, id, x.width, x.sort)
    }
}
