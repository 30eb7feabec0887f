// The operand kinds that code names. 1 to 45 are the arms of `Operand`, in its order; those from 46 on stand in grammars alone. Numbers,
// and no enum: the log, which C reads and writes, and grammars hold them as bytes, and any byte may stand there.

pub const ID_REF: u8 = 33;

// LiteralInt32, and a grammar's LiteralInteger.
pub const INT32: u8 = 34;

// LiteralExtInstInteger, the number of an extended instruction.
pub const EXT_INST: u8 = 35;

pub const INT64: u8 = 36;

pub const FLOAT32: u8 = 37;

pub const FLOAT64: u8 = 38;

// An opcode embedded in OpSpecConstantOp.
pub const EMBEDDED: u8 = 39;

pub const STRING: u8 = 40;

pub const RESULT_TYPE: u8 = 46;

pub const RESULT_ID: u8 = 47;

// LiteralContextDependentNumber: a literal by the type of the result type.
pub const TYPED_LITERAL: u8 = 48;

// PairLiteralIntegerIdRef: a literal by the type of the first operand, then an id.
pub const LITERAL_AND_ID: u8 = 49;

// PairIdRefLiteralInteger.
pub const ID_AND_LITERAL: u8 = 50;

// PairIdRefIdRef.
pub const ID_AND_ID: u8 = 51;
