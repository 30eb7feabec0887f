// The parser: an instruction's operands matched against the row of its opcode, in one walk that keeps their records where they fit.
#![tactic(auto)]

mod inst;
mod literals;
mod rows;

pub use inst::{Decoded, parse_body, parse_inst};
