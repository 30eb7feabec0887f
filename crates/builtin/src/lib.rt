// The built-in grammar: one constant run of bytes, equal to the definition's items and well-formed by one computation over the whole,
// and its index, prepared.
#![tactic(auto)]

mod index;
mod run;

pub use index::prepared;
pub use run::{bytes, table};
