// What an instruction has come to: its frame, the results and operands in use, one record more, and of which kind a literal by type is.
#![tactic(auto)]

mod literals;
mod used;

pub use literals::{literal_for, literal_kind};
pub use used::{Frame, Used, first_break, push, push_text, refused, unused, with_result};
