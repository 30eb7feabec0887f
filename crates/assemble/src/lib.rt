// Writing: the instructions of checked records as bytes, in the order read or in module order.
#![tactic(auto)]

mod write;

pub use write::{write_module_order, write_parse_order};
