// The listing for the cutters: the instructions of checked records as text, in module order.
#![tactic(auto)]

mod named;
mod walk;
mod write;

pub use write::disassemble;
