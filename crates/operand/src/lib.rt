// An operand: the arms of the crate's `Operand`, in the order of binary/assemble.rs, and its record in the log.
#![tactic(auto)]

ghost use Rattle.std.specs.Prelude.{◌≡◌, ◌+◌, ◌*◌, ◌≤◌, leb, length};
ghost use Rattle.std.proofs.lemmas.List.Edits.{sets};
ghost use Rattle.operand.specs.Parts.{parts, parts_of, is_two, Fits};
ghost use Rattle.operand.specs.Log.{record_of, record_length, kept};

use spec::kinds;

// What an instruction holds after its results: enumerants, ids and literals by their value, floats by their bits, a string by where it
// starts in the string bytes and how long it is.
#[derive(Clone, Copy)]
pub enum Operand {
    ImageOperands(u32),
    FPFastMathMode(u32),
    SelectionControl(u32),
    LoopControl(u32),
    FunctionControl(u32),
    MemorySemantics(u32),
    MemoryAccess(u32),
    KernelProfilingInfo(u32),
    SourceLanguage(u32),
    ExecutionModel(u32),
    AddressingModel(u32),
    MemoryModel(u32),
    ExecutionMode(u32),
    StorageClass(u32),
    Dim(u32),
    SamplerAddressingMode(u32),
    SamplerFilterMode(u32),
    ImageFormat(u32),
    ImageChannelOrder(u32),
    ImageChannelDataType(u32),
    FPRoundingMode(u32),
    LinkageType(u32),
    AccessQualifier(u32),
    FunctionParameterAttribute(u32),
    Decoration(u32),
    BuiltIn(u32),
    Scope(u32),
    GroupOperation(u32),
    KernelEnqueueFlags(u32),
    Capability(u32),
    IdMemorySemantics(u32),
    IdScope(u32),
    IdRef(u32),
    LiteralInt32(u32),
    LiteralExtInstInteger(u32),
    LiteralInt64(u64),
    LiteralFloat32(u32),
    LiteralFloat64(u64),
    LiteralSpecConstantOpInteger(u32),
    LiteralString(u32, u32),
    RayFlags(u32),
    RayQueryIntersection(u32),
    RayQueryCommittedIntersectionType(u32),
    RayQueryCandidateIntersectionType(u32),
    FragmentShadingRate(u32),
}

// An operand's kind, and its value: two words for kinds 36, 38 and 40, the first in the low half.
#[derive(Clone, Copy)]
pub struct Parts {
    pub kind: u8,
    pub value: u64,
}

// A kind with one word.
fn one(kind: u8, value: u32) -> Parts
    ensures { result ≡ parts kind value }
{
    Parts {
        kind,
        value: value as u64,
    }
}

// A kind with two words.
fn both(kind: u8, low: u32, high: u32) -> Parts
    ensures { result ≡ parts kind (low + 4294967296 * high) }
{
    Parts {
        kind,
        value: (low as u64) + 4294967296 * (high as u64),
    }
}

// The kind and value of an operand.
pub fn parts_of(operand: Operand) -> Parts
    ensures { result ≡ parts_of operand }
{
    match operand {
        Operand::ImageOperands(v) => one(1, v),
        Operand::FPFastMathMode(v) => one(2, v),
        Operand::SelectionControl(v) => one(3, v),
        Operand::LoopControl(v) => one(4, v),
        Operand::FunctionControl(v) => one(5, v),
        Operand::MemorySemantics(v) => one(6, v),
        Operand::MemoryAccess(v) => one(7, v),
        Operand::KernelProfilingInfo(v) => one(8, v),
        Operand::SourceLanguage(v) => one(9, v),
        Operand::ExecutionModel(v) => one(10, v),
        Operand::AddressingModel(v) => one(11, v),
        Operand::MemoryModel(v) => one(12, v),
        Operand::ExecutionMode(v) => one(13, v),
        Operand::StorageClass(v) => one(14, v),
        Operand::Dim(v) => one(15, v),
        Operand::SamplerAddressingMode(v) => one(16, v),
        Operand::SamplerFilterMode(v) => one(17, v),
        Operand::ImageFormat(v) => one(18, v),
        Operand::ImageChannelOrder(v) => one(19, v),
        Operand::ImageChannelDataType(v) => one(20, v),
        Operand::FPRoundingMode(v) => one(21, v),
        Operand::LinkageType(v) => one(22, v),
        Operand::AccessQualifier(v) => one(23, v),
        Operand::FunctionParameterAttribute(v) => one(24, v),
        Operand::Decoration(v) => one(25, v),
        Operand::BuiltIn(v) => one(26, v),
        Operand::Scope(v) => one(27, v),
        Operand::GroupOperation(v) => one(28, v),
        Operand::KernelEnqueueFlags(v) => one(29, v),
        Operand::Capability(v) => one(30, v),
        Operand::IdMemorySemantics(v) => one(31, v),
        Operand::IdScope(v) => one(32, v),
        Operand::IdRef(v) => one(33, v),
        Operand::LiteralInt32(v) => one(34, v),
        Operand::LiteralExtInstInteger(v) => one(35, v),
        Operand::LiteralInt64(v) => Parts { kind: 36, value: v },
        Operand::LiteralFloat32(v) => one(37, v),
        Operand::LiteralFloat64(v) => Parts { kind: 38, value: v },
        Operand::LiteralSpecConstantOpInteger(v) => one(39, v),
        Operand::LiteralString(start, length) => both(40, start, length),
        Operand::RayFlags(v) => one(41, v),
        Operand::RayQueryIntersection(v) => one(42, v),
        Operand::RayQueryCommittedIntersectionType(v) => one(43, v),
        Operand::RayQueryCandidateIntersectionType(v) => one(44, v),
        Operand::FragmentShadingRate(v) => one(45, v),
    }
}

// The operand with a kind and value.
pub fn operand_of(kind: u8, value: u64) -> Operand
    requires { Fits kind value }
    ensures { parts_of result ≡ parts kind value }
{
    let low = (value % 4294967296) as u32;
    let high = (value / 4294967296) as u32;
    match kind {
        1 => Operand::ImageOperands(low),
        2 => Operand::FPFastMathMode(low),
        3 => Operand::SelectionControl(low),
        4 => Operand::LoopControl(low),
        5 => Operand::FunctionControl(low),
        6 => Operand::MemorySemantics(low),
        7 => Operand::MemoryAccess(low),
        8 => Operand::KernelProfilingInfo(low),
        9 => Operand::SourceLanguage(low),
        10 => Operand::ExecutionModel(low),
        11 => Operand::AddressingModel(low),
        12 => Operand::MemoryModel(low),
        13 => Operand::ExecutionMode(low),
        14 => Operand::StorageClass(low),
        15 => Operand::Dim(low),
        16 => Operand::SamplerAddressingMode(low),
        17 => Operand::SamplerFilterMode(low),
        18 => Operand::ImageFormat(low),
        19 => Operand::ImageChannelOrder(low),
        20 => Operand::ImageChannelDataType(low),
        21 => Operand::FPRoundingMode(low),
        22 => Operand::LinkageType(low),
        23 => Operand::AccessQualifier(low),
        24 => Operand::FunctionParameterAttribute(low),
        25 => Operand::Decoration(low),
        26 => Operand::BuiltIn(low),
        27 => Operand::Scope(low),
        28 => Operand::GroupOperation(low),
        29 => Operand::KernelEnqueueFlags(low),
        30 => Operand::Capability(low),
        31 => Operand::IdMemorySemantics(low),
        32 => Operand::IdScope(low),
        33 => Operand::IdRef(low),
        34 => Operand::LiteralInt32(low),
        35 => Operand::LiteralExtInstInteger(low),
        36 => Operand::LiteralInt64(value),
        37 => Operand::LiteralFloat32(low),
        38 => Operand::LiteralFloat64(value),
        39 => Operand::LiteralSpecConstantOpInteger(low),
        40 => Operand::LiteralString(low, high),
        41 => Operand::RayFlags(low),
        42 => Operand::RayQueryIntersection(low),
        43 => Operand::RayQueryCommittedIntersectionType(low),
        44 => Operand::RayQueryCandidateIntersectionType(low),
        _ => Operand::FragmentShadingRate(low),
    }
}

// THE LOG

// Whether a kind has two words.
pub fn is_two(kind: u8) -> bool
    ensures { result ≡ is_two kind }
{
    matches!(kind, kinds::INT64 | kinds::FLOAT64 | kinds::STRING)
}

// How long an operand's record is.
pub fn record_length(p: Parts) -> usize
    ensures { result ≡ record_length p }
{
    if is_two(p.kind) { 9 } else { 5 }
}

// An operand's record, stored at a place.
fn put_record(log: &mut [u8], at: usize, p: Parts)
    requires { at + record_length p ≤ length log.old }
    ensures { log.new ≡ sets log.old at (record_of p) }
{
    log[at] = p.kind;
    words::put_word(log, at + 1, (p.value % 4294967296) as u32);
    if is_two(p.kind) {
        words::put_word(log, at + 5, (p.value / 4294967296) as u32);
    }
}

// An operand's record, kept at a place where it fits: the leaf that looks for room; the place behind it.
pub fn keep_record(log: &mut [u8], at: usize, p: Parts) -> usize
    requires { at ≤ 1000000000 }
    ensures value { result ≡ at + record_length p }
    ensures log_after { log.new ≡ kept (leb (at + record_length p) (length log.old)) log.old at (record_of p) }
{
    let next = at + record_length(p);
    if next <= log.len() {
        put_record(log, at, p);
    }
    next
}

// THE STRINGS

// Bytes, kept at a place where they fit.
pub fn keep_bytes(out: &mut [u8], at: usize, bytes: &[u8])
    requires { (at ≤ 1000000000) × (length bytes.now ≤ 1000000000) }
    ensures { out.new ≡ kept (leb (at + length bytes.now) (length out.old)) out.old at bytes.now }
{
    if at + bytes.len() <= out.len() {
        words::put_bytes(out, at, bytes);
    }
}
