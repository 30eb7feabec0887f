// A grammar as bytes: its items, the tests on operand kinds, its index, and the lookups.
#![tactic(auto)]

mod find;
mod index;
mod items;
mod kinds;

pub use find::{Rows, parameter_at, slot_at};
pub use index::{GUESSES, Mark, SIZE, mark_of, put, rises_to};
pub use items::{Item, item_at, item_length};
pub use kinds::{is_enum, is_mask, is_result, may_be_operand, may_be_parameter};
