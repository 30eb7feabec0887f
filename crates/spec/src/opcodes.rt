// The opcodes that code outside the layout table names: those of types that are tracked, and those whose rows have rules of their own. Numbers,
// and no enum: a module and a grammar may have any.

pub const EXT_INST: u16 = 12;

pub const TYPE_INT: u16 = 21;

pub const TYPE_FLOAT: u16 = 22;

pub const CONSTANT: u16 = 43;

pub const SPEC_CONSTANT: u16 = 50;

pub const SPEC_CONSTANT_OP: u16 = 52;

pub const SWITCH: u16 = 251;
