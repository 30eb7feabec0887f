// Names: of opcodes, enumerants, mask bits and extended instructions, as one run of bytes, and its index, prepared.
#![tactic(auto)]

mod index;
mod run;

pub use index::prepared;
pub use run::{bytes, table};
