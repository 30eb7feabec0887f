// The rules that make a grammar well-formed: on operands, enumerants and parameters, on their order, and on kinds that are noted.
#![tactic(auto)]

mod noted;
mod rules;

pub use noted::{are_apart, note};
pub use rules::{
    NO_LEAD, Passed, enumerant_rule, may_follow, operand_rule, parameter_rule, row_end, with_one,
};
