// The section tags that code names, as they stand in the records. Numbers, and no enum: C reads and writes them as words, and any word may
// stand there.

pub const EXT_INST_IMPORT: u32 = 3;

pub const MEMORY_MODEL: u32 = 4;

// Types and constants, the last of the sections.
pub const LAST_SECTION: u32 = 11;

pub const FUNCTION: u32 = 12;

pub const PARAMETER: u32 = 13;

pub const LABEL: u32 = 14;

// Every other instruction of a block.
pub const BLOCK: u32 = 15;

pub const FUNCTION_END: u32 = 16;
