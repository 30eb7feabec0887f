// Two grammars joined into one: a walk over both, lowest row or enumerant first, which measures the union and then writes it.
#![tactic(auto)]

ghost use Rattle.std.specs.Prelude.{◌≡◌, true, ◌||◌, ◌+◌, ◌-◌, ◌≤◌, ◌<◌, ltb, length};
ghost use Rattle.spec.specs.Words.{AllBytes};
ghost use Rattle.spec.specs.Grammar.{well_formed};
ghost use Rattle.spec.specs.Join.{key_of, pieces, clash, union, join as join_of};
ghost use Rattle.grammar.specs.Items.{item_is, item_at};
ghost use Rattle.operand.specs.Log.{kept};
ghost use Rattle.join.specs.Steps.{is_part, Starts, Stretch, taken, Stepped, Walked, MayKeep, flat_both, Joins};

use grammar::Item;
use spec::{Joined, refusals};

// What the kind of an enumerant is worth in a key; a row's key is its opcode.
const KIND: u64 = 4294967296;

// Whether an item is an operand or a parameter.
fn is_part(x: Item) -> bool
    ensures { result ≡ is_part (item_is x) }
{
    match x {
        Item::Row(_) => false,
        Item::Operand(_, _) => true,
        Item::Enumerant(_, _) => false,
        Item::Parameter(_) => true,
        Item::Broken => false,
    }
}

// The key of a row or an enumerant: its kind and value as one number, 0 being the kind of rows.
fn key_of(x: Item) -> u64
    ensures { result ≡ key_of (item_is x) }
{
    match x {
        Item::Row(opcode) => opcode as u64,
        Item::Operand(_, _) => 0,
        Item::Enumerant(kind, value) => (kind as u64) * KIND + (value as u64),
        Item::Parameter(_) => 0,
        Item::Broken => 0,
    }
}

// Where the row or enumerant that starts at a place ends: after its operands or parameters.
fn piece_end(g: &[u8], at: usize) -> usize
    requires { (at < length g.now) × Starts g.now at }
    ensures { Stretch g.now at result }
{
    let mut end = at + grammar::item_length(g, at);
    // Items differ in length: the place moves by each one's, which no `for` counts.
    while end < g.len() {
        if !is_part(grammar::item_at(g, end)) {
            return end;
        }
        end = end + grammar::item_length(g, end);
    }
    end
}

// The step where both grammars have a piece with the same key: over both, where they are equal in every byte, else their key.
fn step_both(
    first: &[u8],
    i: usize,
    second: &[u8],
    j: usize,
    key: u64,
) -> Result<(usize, usize), u64>
    requires i_in_bounds { (i < length first.now) × Starts first.now i }
    requires j_in_bounds { (j < length second.now) × Starts second.now j }
    requires key_value { (key ≡ key_of (item_is (item_at first.now i))) × (key ≡ key_of (item_is (item_at second.now j))) }
    ensures { Stepped first.now i second.now j result }
{
    let i_end = piece_end(first, i);
    let j_end = piece_end(second, j);
    if first[i..i_end] == second[j..j_end] {
        return Ok((i_end, j_end));
    }
    Err(key)
}

// The step over the lowest piece of two grammars, from a place in each on: where it goes in both, or the key of two pieces that differ.
fn step_at(first: &[u8], i: usize, second: &[u8], j: usize) -> Result<(usize, usize), u64>
    requires starts { Starts first.now i × Starts second.now j }
    requires second_value { (ltb i (length first.now) || ltb j (length second.now)) ≡ true }
    ensures { Stepped first.now i second.now j result }
{
    if second.len() <= j {
        return Ok((piece_end(first, i), j));
    }
    if first.len() <= i {
        return Ok((i, piece_end(second, j)));
    }
    let x = key_of(grammar::item_at(first, i));
    let y = key_of(grammar::item_at(second, j));
    if x < y {
        return Ok((piece_end(first, i), j));
    }
    if y < x {
        return Ok((i, piece_end(second, j)));
    }
    step_both(first, i, second, j, x)
}

// Bytes stored at a place, where they are to be kept; where they end.
fn put(out: &mut [u8], at: usize, bytes: &[u8], keep: bool) -> usize
    requires bytes_in_bounds { keep ≡ true → at + length bytes.now ≤ length out.old }
    requires bytes_bound { at + length bytes.now ≤ 131070 }
    ensures { (result ≡ at + length bytes.now) × (out.new ≡ kept keep out.old at bytes.now) }
{
    if !keep {
        return at + bytes.len();
    }
    words::put_bytes(out, at, bytes);
    at + bytes.len()
}

// The bytes of the piece that a step took, the first's where its place moved, stored at a place where they are to be kept; where they end.
fn put_taken(
    first: &[u8],
    i: usize,
    i2: usize,
    second: &[u8],
    j: usize,
    j2: usize,
    out: &mut [u8],
    at: usize,
    keep: bool,
) -> usize
    requires i_le_i2 { (i ≤ i2) × (i2 ≤ length first.now) × (j ≤ j2) × (j2 ≤ length second.now) }
    requires j2_in_bounds { keep ≡ true → at + length (taken first.now i i2 second.now j j2) ≤ length out.old }
    requires j2_bound { at + length (taken first.now i i2 second.now j j2) ≤ 131070 }
    ensures value { result ≡ at + length (taken first.now i i2 second.now j j2) }
    ensures out_after { out.new ≡ kept keep out.old at (taken first.now i i2 second.now j j2) }
{
    if i < i2 {
        return put(out, at, &first[i..i2], keep);
    }
    put(out, at, &second[j..j2], keep)
}

// Walks over two grammars, lowest piece first: the lowest key that clashes, or the length of the union, which is stored where it is to be kept.
fn merge(first: &[u8], second: &[u8], out: &mut [u8], keep: bool) -> Result<usize, u64>
    requires first_value { (well_formed first.now ≡ true) × (well_formed second.now ≡ true) }
    requires may_keep { keep ≡ true → MayKeep first.now second.now out.old }
    ensures { Walked first.now second.now keep out.old out.new result }
{
    let mut i = 0;
    let mut j = 0;
    let mut at = 0;
    while (i < first.len()) | (j < second.len()) {
        let (i2, j2) = step_at(first, i, second, j)?;
        at = put_taken(first, i, i2, second, j, j2, out, at, keep);
        i = i2;
        j = j2;
    }
    Ok(at)
}

// A refusal: nothing is written.
fn refused(number: u32, place: u32, value: u32) -> Joined
    ensures { result ≡ record { number = number; place = place; value = value; bytes = 0 } }
{
    Joined {
        number,
        place,
        value,
        bytes: 0,
    }
}

// The union of so many bytes, written where it meets the rules and fits.
fn put_union(first: &[u8], second: &[u8], flat: bool, bytes: usize, out: &mut [u8]) -> Joined
    requires first_value { (well_formed first.now ≡ true) × (well_formed second.now ≡ true) × (flat ≡ flat_both first.now second.now) }
    requires second_value { (clash (pieces first.now) (pieces second.now) ≡ None) × (bytes ≡ length (union first.now second.now)) }
    ensures { Joins (join_of first.now second.now out.old) result out.new }
{
    if 65535 < bytes {
        return refused(refusals::BAD_GRAMMAR, 0, 0);
    }
    if !flat {
        return refused(refusals::BAD_GRAMMAR, 0, 0);
    }
    if out.len() < bytes {
        return refused(refusals::JOINED_SHORT, 0, 0);
    }
    let _kept = merge(first, second, out, true);
    Joined {
        number: refusals::ACCEPTED,
        place: 0,
        value: 0,
        bytes,
    }
}

// Joins two grammars into one, written to the output in document 01's layout; a refusal leaves the output as it was.
pub fn join(first: &[u8], second: &[u8], out: &mut [u8]) -> Joined
    ensures joins { Joins (join_of first.now second.now out.old) result out.new }
    ensures all_bytes { AllBytes first.now × AllBytes second.now }
{
    let mut first_owners = [false; 256];
    let mut first_used = [false; 256];
    if !formed::note_kinds(first, &mut first_owners, &mut first_used) {
        return refused(refusals::BAD_GRAMMAR, 0, 0);
    }
    let mut second_owners = [false; 256];
    let mut second_used = [false; 256];
    if !formed::note_kinds(second, &mut second_owners, &mut second_used) {
        return refused(refusals::BAD_GRAMMAR, 0, 0);
    }
    let flat = rules::are_apart(&second_owners, &first_used)
        & rules::are_apart(&first_owners, &second_used);
    match merge(first, second, out, false) {
        Err(key) => refused(
            refusals::GRAMMARS_CLASH,
            (key / KIND) as u32,
            (key % KIND) as u32,
        ),
        Ok(bytes) => put_union(first, second, flat, bytes, out),
    }
}
