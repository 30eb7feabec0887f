// Pieces of text in an output, kept or only measured: bytes, numbers, ids, names and operands.
#![tactic(auto)]

mod operands;
mod pieces;

pub use operands::{after, has_bits, put_name, put_operands, set_of_kind};
pub use pieces::{put_byte, put_bytes, put_id, put_number};
