// Pieces of text, each kept in the output at a place or only measured: the leaves that test the flag. A place that is only measured stays
// at the largest once it is there.
ghost use Rattle.std.specs.Prelude.{◌≡◌, ◌∷◌, [], ◌+◌};
ghost use Rattle.spec.specs.Digits.{decimal, hex_digits};
ghost use Rattle.spec.specs.Disassembly.{id_text};
ghost use Rattle.pieces.specs.Putting.{largest, Room, Wrote};

// A byte.
pub fn put_byte(out: &mut [u8], at: usize, b: u8, keep: bool) -> usize
    requires { Room keep out.old at (b ∷ []) }
    ensures { Wrote keep out.old at (b ∷ []) result out.new }
{
    if keep {
        out[at] = b;
        return at + 1;
    }
    at.saturating_add(1)
}

// Bytes.
pub fn put_bytes(out: &mut [u8], at: usize, s: &[u8], keep: bool) -> usize
    requires { Room keep out.old at s.now }
    ensures { Wrote keep out.old at s.now result out.new }
{
    if keep {
        words::put_bytes(out, at, s);
        return at + s.len();
    }
    at.saturating_add(s.len())
}

// A number in decimal.
pub fn put_number(out: &mut [u8], at: usize, v: u64, keep: bool) -> usize
    requires { Room keep out.old at (decimal v) }
    ensures { Wrote keep out.old at (decimal v) result out.new }
{
    let n = texts::digit_count(v);
    if keep {
        return texts::digits(out, at, n, v);
    }
    at.saturating_add(n)
}

// The last n hexadecimal digits of a number.
pub fn put_hex(out: &mut [u8], at: usize, n: usize, v: u64, keep: bool) -> usize
    requires { Room keep out.old at (hex_digits n v) }
    ensures { Wrote keep out.old at (hex_digits n v) result out.new }
{
    if keep {
        return texts::hex(out, at, n, v);
    }
    at.saturating_add(n)
}

// An id.
pub fn put_id(out: &mut [u8], at: usize, id: u32, keep: bool) -> usize
    requires { Room keep out.old at (id_text id) }
    ensures { Wrote keep out.old at (id_text id) result out.new }
{
    let next = put_byte(out, at, b'%', keep);
    put_number(out, next, id as u64, keep)
}
