// The refusal numbers, by name. 15 and 17 to 23 stand in the layout table alone, each beside its cell. Numbers, and no enum: C is answered
// them as they are, and the definitions and theorems speak of them.

pub const ACCEPTED: u32 = 0;

pub const HEADER_INCOMPLETE: u32 = 1;

pub const HEADER_INCORRECT: u32 = 2;

pub const HEADER_SWAPPED: u32 = 3;

pub const NO_WORDS: u32 = 4;

pub const OPCODE_UNKNOWN: u32 = 5;

pub const OPERAND_EXPECTED: u32 = 6;

pub const OPERAND_EXCEEDED: u32 = 7;

pub const LIMIT_REACHED: u32 = 8;

pub const STREAM_ENDED: u32 = 9;

pub const ENUMERANT_UNKNOWN: u32 = 10;

pub const NOT_UTF8: u32 = 11;

pub const WIDTH_UNSUPPORTED: u32 = 12;

pub const EMBEDDED_OPCODE: u32 = 13;

pub const EMBEDDED_ROW: u32 = 14;

pub const OPEN_FUNCTION: u32 = 16;

pub const OPEN_BLOCK: u32 = 21;

pub const BAD_GRAMMAR: u32 = 24;

pub const INSTRUCTIONS_FULL: u32 = 25;

pub const LOG_FULL: u32 = 26;

pub const STRINGS_FULL: u32 = 27;

pub const TYPES_FULL: u32 = 28;

pub const OUTPUT_SHORT: u32 = 29;

pub const BAD_RECORDS: u32 = 30;

pub const MODULE_TOO_LONG: u32 = 31;

pub const TEXT_LONG: u32 = 32;

pub const NUMBERS_WRONG: u32 = 33;

pub const GRAMMARS_CLASH: u32 = 34;

pub const JOINED_SHORT: u32 = 35;
