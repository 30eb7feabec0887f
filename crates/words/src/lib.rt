// Words and bytes in slices: a word read at a place, a word or bytes stored at one.
#![tactic(auto)]

ghost use Rattle.std.specs.Prelude.{◌≡◌, ◌+◌, ◌≤◌, length};
ghost use Rattle.std.proofs.lemmas.List.Edits.{sets};
ghost use Rattle.spec.specs.Words.{four, four_at, bytes_of};

// The word at a place.
pub fn word_at(s: &[u8], at: usize) -> u32
    requires { at + 4 ≤ length s.now }
    ensures { result ≡ four_at at s.now }
{
    u32::from_le_bytes([s[at], s[at + 1], s[at + 2], s[at + 3]])
}

// The four bytes of a word, stored at a place.
#[tactic(auto, unfolding(spec::specs::Words::bytes_of))]
pub fn put_word(out: &mut [u8], at: usize, w: u32)
    requires { at + 4 ≤ length out.old }
    ensures { out.new ≡ sets out.old at (bytes_of w) }
{
    put_bytes(out, at, &w.to_le_bytes());
}

// Bytes, stored at a place.
pub fn put_bytes(out: &mut [u8], at: usize, bytes: &[u8])
    requires { at + length bytes.now ≤ length out.old }
    ensures { out.new ≡ sets out.old at bytes.now }
{
    // No `copy_from_slice`: that is a call of the C library, whose stack include/kollafrin.h would have to count.
    let mut i = 0;
    while i < bytes.len() {
        out[at + i] = bytes[i];
        i += 1;
    }
}
