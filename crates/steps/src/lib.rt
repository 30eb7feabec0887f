// A load by steps: where it stands, the next instruction decoded, placed in the layout, given room and kept, and what it answers.
#![tactic(auto)]

mod parts;
mod step;

pub use parts::{Ended, Progress, Taken, end_number, no_instruction, stopped};
pub use step::{admit, decode, keep_operands, keep_record};
