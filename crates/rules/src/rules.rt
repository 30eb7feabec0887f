// The rules that make a grammar well-formed: what may stand where, by what the check keeps of what went before.
ghost use Rattle.std.specs.Prelude.{◌≡◌, List, [], ◌∷◌, ◌++◌, eqb};
ghost use Rattle.spec.specs.Grammar.{Slot, slot, result_rule, literal_rule, fixed_row, fixed_next, operand_rule, row_end, enumerant_rule, parameter_rule};
ghost use Rattle.rules.specs.Rules.{more, lead_with, fixed_kind, passed_of, is_free, is_fixed, follows};

use grammar::{Mark, is_enum, is_mask, is_result, may_be_operand, may_be_parameter, rises_to};
use spec::{kinds, opcodes};

// Two of the quantifiers; ZeroOrOne stands between them.
const ONE: u8 = 0;

const ZERO_OR_MORE: u8 = 2;

// The first operand that is no result: none so far, one of 33 and One, another.
pub const NO_LEAD: u8 = 0;

const SELECTOR: u8 = 1;

const OTHER_LEAD: u8 = 2;

// What the check keeps of a row's operands so far: how many (4: four or more), whether the first is 46 and One, and what the first is that
// is no result.
#[derive(Clone, Copy)]
pub struct Passed {
    pub count: u8,
    pub typed: bool,
    pub lead: u8,
}

// "46 only first and One; 47 only first or just after 46, One."
fn result_rule(p: Passed, k: u8, q: u8) -> bool
    ensures { (before : List Slot) → p ≡ passed_of before → result ≡ result_rule before k q }
{
    if !is_result(k) {
        return true;
    }
    if q != ONE {
        return false;
    }
    if p.count == 0 {
        return true;
    }
    (k == kinds::RESULT_ID) & (p.count == 1) & p.typed
}

// "48 only in rows 43 and 50, One, after 46. 49 only in row 251, ZeroOrMore, after a first non-result operand of kind 33 and One. 39 only in
// row 52, One."
fn literal_rule(op: u16, p: Passed, k: u8, q: u8) -> bool
    ensures { (before : List Slot) → p ≡ passed_of before → result ≡ literal_rule op before k q }
{
    ((k != kinds::TYPED_LITERAL)
        | (matches!(op, opcodes::CONSTANT | opcodes::SPEC_CONSTANT) & (q == ONE) & p.typed))
        & ((k != kinds::LITERAL_AND_ID)
            | ((op == opcodes::SWITCH) & (q == ZERO_OR_MORE) & (p.lead == SELECTOR)))
        & ((k != kinds::EMBEDDED) | ((op == opcodes::SPEC_CONSTANT_OP) & (q == ONE)))
}

// The kind that stands after so many operands in a row of n: 47, then 34; 0 past its end.
fn fixed_kind(count: u8, n: u8) -> u8
    ensures { result ≡ fixed_kind count n }
{
    if n <= count {
        return 0;
    }
    if count == 0 {
        kinds::RESULT_ID
    } else {
        kinds::INT32
    }
}

// "Rows 21 and 22, where present, are 47, 34, 34 and 47, 34, all One": the next operand.
fn fixed_rule(op: u16, p: Passed, k: u8, q: u8) -> bool
    ensures { (before : List Slot) → p ≡ passed_of before → result ≡ fixed_next (fixed_row op) before k q }
{
    if op == opcodes::TYPE_INT {
        return (q == ONE) & (k == fixed_kind(p.count, 3));
    }
    if op == opcodes::TYPE_FLOAT {
        return (q == ONE) & (k == fixed_kind(p.count, 2));
    }
    true
}

// Rows 21 and 22 end where all their operands are there.
pub fn row_end(op: u16, p: Passed) -> bool
    ensures { (before : List Slot) → p ≡ passed_of before → result ≡ row_end op before }
{
    if op == opcodes::TYPE_INT {
        return p.count == 3;
    }
    if op == opcodes::TYPE_FLOAT {
        return p.count == 2;
    }
    true
}

// A kind that no rule on kinds is about: one that a parameter may have, or a pair that starts with an id.
#[tactic(auto, unfolding(crate::specs::Rules::is_free))]
fn is_free(k: u8) -> bool
    ensures { result ≡ is_free k }
{
    may_be_parameter(k) | matches!(k, 50..=51)
}

// A row that is fixed: 21 or 22.
#[tactic(auto, unfolding(crate::specs::Rules::is_fixed))]
fn is_fixed(op: u16) -> bool
    ensures { result ≡ is_fixed op }
{
    matches!(op, opcodes::TYPE_INT | opcodes::TYPE_FLOAT)
}

// The next operand of a row, after those before it: most are results or of kinds that are free, in rows that are not fixed.
pub fn operand_rule(op: u16, p: Passed, k: u8, q: u8) -> bool
    ensures { (before : List Slot) → p ≡ passed_of before → result ≡ operand_rule op before k q }
{
    if !is_fixed(op) {
        if is_result(k) {
            return result_rule(p, k, q);
        }
        if is_free(k) {
            return q <= ZERO_OR_MORE;
        }
    }
    may_be_operand(k)
        & (q <= ZERO_OR_MORE)
        & result_rule(p, k, q)
        & literal_rule(op, p, k, q)
        & fixed_rule(op, p, k, q)
}

// A kind that has enumerants; "for masks .. the value is zero or one bit".
pub fn enumerant_rule(k: u8, v: u32) -> bool
    ensures { result ≡ enumerant_rule k v }
{
    is_enum(k) & (!is_mask(k) | (u32::count_ones(v) <= 1))
}

// A row or an enumerant may come here: as the first, or after one that it rises from.
pub fn may_follow(count: usize, last: Mark, kind: u8, value: u32) -> bool
    ensures { result ≡ follows (eqb count 0) last.kind last.value kind value }
{
    (count == 0) | rises_to(last.kind, last.value, kind, value)
}

// A parameter's kind; "and zero has no parameters".
pub fn parameter_rule(j: u8, u: u32, k: u8) -> bool
    ensures { result ≡ parameter_rule j u k }
{
    may_be_parameter(k) & (!is_mask(j) | (0 < u))
}

// One more operand; 4 stays.
fn one_more(count: u8) -> u8
    ensures { result ≡ more count }
{
    if count < 4 { count + 1 } else { count }
}

// The first operand that is no result, with one more that is none.
fn lead_with(lead: u8, k: u8, q: u8) -> u8
    ensures { result ≡ lead_with lead k q }
{
    if lead != NO_LEAD {
        return lead;
    }
    if (k == kinds::ID_REF) & (q == ONE) {
        SELECTOR
    } else {
        OTHER_LEAD
    }
}

// What is kept of a row's operands with one more.
pub fn with_one(p: Passed, k: u8, q: u8) -> Passed
    ensures { (before : List Slot) → p ≡ passed_of before → result ≡ passed_of (before ++ (slot k q ∷ [])) }
{
    let count = one_more(p.count);
    if is_result(k) {
        let first = (p.count == 0) & ((k == kinds::RESULT_TYPE) & (q == ONE));
        return Passed {
            count,
            typed: p.typed | first,
            ..p
        };
    }
    Passed {
        count,
        lead: lead_with(p.lead, k, q),
        ..p
    }
}
