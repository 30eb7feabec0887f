// One pass over a grammar that checks it and fills its index: row by row with its operands, enumerant by enumerant with its parameters.
#![tactic(auto)]

ghost use Rattle.std.specs.Prelude.{◌≡◌, true, false, List, ◌≤◌, ◌<◌, length, replicate};
ghost use Rattle.spec.specs.Grammar.{Slot, row_end, well_formed};
ghost use Rattle.grammar.specs.Items.{item_is, item_at};
ghost use Rattle.rules.specs.Rules.{passed_of};
ghost use Rattle.grammar.specs.Index.{mark_of, Indexed};
ghost use Rattle.formed.specs.Check.{ends_where, Operands, Parameters, Noted, Checking, Entered};

use grammar::{GUESSES, Item, Mark, SIZE, item_at, mark_of, put};
use rules::{
    NO_LEAD, Passed, are_apart, enumerant_rule, may_follow, note, operand_rule, parameter_rule,
    row_end, with_one,
};

// Where a row's operands end, if it is whole.
fn end_of_row(op: u16, p: Passed, at: usize) -> Option<usize>
    ensures { (before : List Slot) → p ≡ passed_of before → result ≡ ends_where (row_end op before) at }
{
    if row_end(op, p) { Some(at) } else { None }
}

// Where the operands of a row end that start at a place; nothing where a rule is broken.
fn operands_end(g: &[u8], op: u16, from: usize) -> Option<usize>
    requires { (length g.now ≤ 65535) × (from ≤ length g.now) }
    ensures { Operands g.now op from result }
{
    let mut p = Passed {
        count: 0,
        typed: false,
        lead: NO_LEAD,
    };
    let mut at = from;
    // Items are looked at, and not operands alone: what follows the last is what a row must be followed by.
    while at < g.len() {
        let x = item_at(g, at);
        let Item::Operand(k, q) = x else {
            return end_of_row(op, p, at);
        };
        if !operand_rule(op, p, k, q) {
            return None;
        }
        p = with_one(p, k, q);
        at = at + 3;
    }
    end_of_row(op, p, at)
}

// Where the parameters of an enumerant end that start at a place, with its kind noted where it has any, and theirs; nothing where a rule is
// broken.
fn parameters_end(
    g: &[u8],
    kind: u8,
    value: u32,
    from: usize,
    owners: &mut [bool; 256],
    used: &mut [bool; 256],
) -> Option<usize>
    requires { (length g.now ≤ 65535) × (from ≤ length g.now) × (1 ≤ kind) × (length owners.old ≡ 256) × (length used.old ≡ 256) }
    ensures { Parameters g.now kind value from owners.old owners.new used.old used.new result }
{
    let mut at = from;
    while at < g.len() {
        let x = item_at(g, at);
        let Item::Parameter(k) = x else {
            return Some(at);
        };
        if !parameter_rule(kind, value, k) {
            return None;
        }
        note(owners, kind);
        note(used, k);
        at = at + 2;
    }
    Some(at)
}

// Enters the row or enumerant at a place, with its operands or parameters: where they end; nothing where a rule is broken.
fn enter(
    g: &[u8],
    index: &mut [u16],
    count: usize,
    last: Mark,
    x: Item,
    at: usize,
    owners: &mut [bool; 256],
    used: &mut [bool; 256],
) -> Option<usize>
    requires checking { Checking g.now index.old owners.old used.old count last at }
    requires g_len_bound { (length g.now ≤ 65535) × (at < length g.now) × (x ≡ item_at g.now at) × (23382 ≤ length index.old) }
    ensures { Entered g.now index.new owners.new used.new count (mark_of (item_is x) at) at result }
{
    match x {
        Item::Row(opcode) => {
            let value = opcode as u32;
            if !may_follow(count, last, 0, value) {
                return None;
            }
            let operands = at + 3;
            put(index, count, 0, value, at);
            operands_end(g, opcode, operands)
        }
        Item::Enumerant(kind, value) => {
            if !(may_follow(count, last, kind, value) & enumerant_rule(kind, value)) {
                return None;
            }
            let parameters = at + 6;
            put(index, count, kind, value, at);
            parameters_end(g, kind, value, parameters, owners, used)
        }
        _ => None,
    }
}

// Checks a grammar, fills its index and notes its kinds, in one pass over its items: whether it is well-formed.
fn pass(g: &[u8], index: &mut [u16], owners: &mut [bool; 256], used: &mut [bool; 256]) -> bool
    requires { (23382 ≤ length index.old) × (owners.old ≡ replicate 256 false) × (used.old ≡ replicate 256 false) }
    ensures value { result ≡ well_formed g.now }
    ensures indexed { result ≡ true → Indexed g.now index.new }
    ensures noted { result ≡ true → Noted g.now owners.new used.new }
{
    if 65535 < g.len() {
        return false;
    }
    let mut last = Mark {
        kind: 0,
        value: 0,
        place: 0,
    };
    let mut count: usize = 0;
    let mut at: usize = 0;
    // Rows and enumerants differ in length: the place moves by each one's, which no `for` counts.
    while at < g.len() {
        let x = item_at(g, at);
        let end = enter(g, index, count, last, x, at, owners, used);
        let Some(next) = end else {
            return false;
        };
        last = mark_of(x, at);
        count = count + 1;
        at = next;
    }
    index[GUESSES] = count as u16;
    are_apart(owners, used)
}

// Checks a grammar and fills its index: whether it is well-formed.
pub fn prepare(g: &[u8], index: &mut [u16]) -> bool
    requires { 23382 ≤ length index.old }
    ensures value { result ≡ well_formed g.now }
    ensures indexed { result ≡ true → Indexed g.now index.new }
{
    let mut owners = [false; 256];
    let mut used = [false; 256];
    pass(g, index, &mut owners, &mut used)
}

// Checks a grammar and notes the kinds that have parameters, and the kinds of these: whether it is well-formed.
pub fn note_kinds(g: &[u8], owners: &mut [bool; 256], used: &mut [bool; 256]) -> bool
    requires { (owners.old ≡ replicate 256 false) × (used.old ≡ replicate 256 false) }
    ensures value { result ≡ well_formed g.now }
    ensures noted { result ≡ true → Noted g.now owners.new used.new }
{
    let mut index = [0u16; SIZE];
    pass(g, &mut index, owners, used)
}

// "Well-formed: at most 65,535 bytes", and every rule.
pub fn well_formed(g: &[u8]) -> bool
    ensures { result ≡ well_formed g.now }
{
    let mut index = [0u16; SIZE];
    prepare(g, &mut index)
}
