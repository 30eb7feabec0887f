// Texts in a lent buffer: a byte, decimal and hexadecimal digits. Each is put from a place on, and the answer is where it ends.
#![tactic(auto)]

ghost use Rattle.std.specs.Prelude.{◌≡◌, ◌∷◌, [], ◌+◌, ◌≤◌, ◌<◌, length};
ghost use Rattle.spec.specs.Digits.{decimal as decimal_of, hex_digit as hex_digit_of, hex_digits};
ghost use Rattle.texts.specs.Wrote.{Wrote};

// A byte.
pub fn put(out: &mut [u8], at: usize, b: u8) -> usize
    requires { at + 1 ≤ length out.old }
    ensures { Wrote out.old out.new at result (b ∷ []) }
{
    out[at] = b;
    at + 1
}

// How many decimal digits a number has.
pub fn digit_count(v: u64) -> usize
    ensures { result ≡ length (decimal_of v) }
{
    match v.checked_ilog10() {
        Some(log) => log as usize + 1,
        None => 1,
    }
}

// A number's decimal digits, n of them as it has so many: the last first.
pub fn digits(out: &mut [u8], at: usize, n: usize, v: u64) -> usize
    requires n_value { n ≡ length (decimal_of v) }
    requires n_in_bounds { at + n ≤ length out.old }
    ensures { Wrote out.old out.new at result (decimal_of v) }
{
    let mut rest = v;
    for i in (0..n).rev() {
        out[at + i] = b'0' + (rest % 10) as u8;
        rest /= 10;
    }
    at + n
}

// A number in decimal.
pub fn decimal(out: &mut [u8], at: usize, v: u64) -> usize
    requires { at + 20 ≤ length out.old }
    ensures { Wrote out.old out.new at result (decimal_of v) }
{
    digits(out, at, digit_count(v), v)
}

// A hexadecimal digit.
fn hex_digit(d: u8) -> u8
    requires { d < 16 }
    ensures { result ≡ hex_digit_of d }
{
    if d < 10 { b'0' + d } else { b'A' + (d - 10) }
}

// The last n hexadecimal digits of a number: the last first.
pub fn hex(out: &mut [u8], at: usize, n: usize, v: u64) -> usize
    requires { at + n ≤ length out.old }
    ensures { Wrote out.old out.new at result (hex_digits n v) }
{
    let mut rest = v;
    for i in (0..n).rev() {
        out[at + i] = hex_digit((rest % 16) as u8);
        rest /= 16;
    }
    at + n
}
