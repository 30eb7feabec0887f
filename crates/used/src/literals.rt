// Literals by the type of an id: of which kind they are.
ghost use Rattle.std.specs.Prelude.{◌≡◌, true, List, ℕ, ◌*◌, ◌≤◌, length};
ghost use Rattle.std.specs.Prelude.{Option};
ghost use Rattle.spec.specs.Records.{Entry};
ghost use Rattle.spec.specs.Match.{literal_kind, literal_kind_of, type_of};
ghost use Rattle.tracker.specs.Entries.{entries_of, known_of};
ghost use Rattle.tracker.specs.Hints.{Hinted};
ghost use Rattle.used.specs.Parse.{FirstFits, is_literal, literal_for};

use crate::used::{Used, selector_of};
use spec::kinds;
use tracker::{Scalar, TypeTracker};

// The kind of a float literal by width, where the width is supported.
fn float_kind(width: u32) -> Option<u8>
    ensures { (result ≡ literal_kind width 3) × (is_literal result ≡ true) }
{
    if (width == 16) | (width == 32) {
        return Some(kinds::FLOAT32);
    }
    if width == 64 {
        return Some(kinds::FLOAT64);
    }
    None
}

// The kind of an integer literal by width, where the width is supported.
fn integer_kind(width: u32) -> Option<u8>
    ensures { (result ≡ literal_kind width 1) × (is_literal result ≡ true) }
{
    if (width == 8) | (width == 16) | (width == 32) {
        return Some(kinds::INT32);
    }
    if width == 64 {
        return Some(kinds::INT64);
    }
    None
}

// The kind of a literal by a type: one word where it is not known.
pub fn literal_kind(known: Option<Scalar>) -> Option<u8>
    ensures { ((i : Option ℕ) (es : List Entry) → known ≡ known_of i es → result ≡ literal_kind_of (type_of i es)) × (is_literal result ≡ true) }
{
    let Some(x) = known else {
        return Some(kinds::INT32);
    };
    if x.sort == 3 {
        return float_kind(x.width);
    }
    integer_kind(x.width)
}

// The kind of the literal that an operand of a row is read as: by the result type, by the first operand; for any other operand nothing.
pub fn literal_for(
    types: &[u32],
    hints: &[u16],
    tracker: TypeTracker,
    kind: u8,
    u: Used,
) -> Option<u8>
    requires count_in_bounds { 3 * tracker.count ≤ length types.now }
    requires hinted { Hinted tracker types.now hints.now }
    requires first_fits { FirstFits u }
    ensures { (result ≡ literal_for (entries_of tracker.count types.now) u kind) × (is_literal result ≡ true) }
{
    if kind == kinds::TYPED_LITERAL {
        return literal_kind(tracker.resolve(types, hints, u.rtype));
    }
    if kind == kinds::LITERAL_AND_ID {
        return literal_kind(tracker.resolve(types, hints, selector_of(u)));
    }
    None
}
