// The tests on operand kinds.
ghost use Rattle.std.specs.Prelude.{◌≡◌};
ghost use Rattle.spec.specs.Kinds.{is_mask, is_enum, may_be_operand, may_be_parameter, is_result};

// "masks (1 to 8, 41, 45)"
pub fn is_mask(k: u8) -> bool
    ensures { result ≡ is_mask k }
{
    matches!(k, 1..=8 | 41 | 45)
}

// "Enumerants belong to kinds 1 to 30 and 41 to 45"
pub fn is_enum(k: u8) -> bool
    ensures { result ≡ is_enum k }
{
    matches!(k, 1..=30 | 41..=45)
}

// What a row's operand may be: a kind that there is, and "Kinds 36 to 38 occur nowhere".
pub fn may_be_operand(k: u8) -> bool
    ensures { result ≡ may_be_operand k }
{
    matches!(k, 1..=35 | 39..=51)
}

// "Parameters are of kinds 1 to 35 or 40 to 45"
pub fn may_be_parameter(k: u8) -> bool
    ensures { result ≡ may_be_parameter k }
{
    matches!(k, 1..=35 | 40..=45)
}

// A result type or a result id.
pub fn is_result(k: u8) -> bool
    ensures { result ≡ is_result k }
{
    matches!(k, 46..=47)
}
