// Stores that were lent full of one value: what must stand at their start, and nothing changed after it.

// The value of a byte and of a word that were lent.
pub const BYTE: u8 = 0xA5;

pub const WORD: u32 = 0xA5A5A5A5;

// Whether a store holds the values of these, and after them what was lent.
fn holds_values<T: PartialEq + Copy, K, F: Fn(&K) -> T>(
    store: &[T],
    kept: &[K],
    value: F,
    lent: T,
) -> bool
    requires { F.IsAlwaysCallable value }
{
    match store.split_at_checked(kept.len()) {
        Some((start, rest)) => {
            start.iter().zip(kept).all(|(x, k)| *x == value(k)) && rest.iter().all(|x| *x == lent)
        }
        None => false,
    }
}

// Whether a store holds these bytes, and after them what was lent.
pub fn holds(store: &[u8], bytes: &[u8]) -> bool {
    holds_values(store, bytes, |b| *b, BYTE)
}

// Whether a store holds the words of these bytes, and after them what was lent.
pub fn holds_words(store: &[u32], bytes: &[u8]) -> bool {
    let (words, _) = bytes.as_chunks();
    holds_values(store, words, |b| u32::from_le_bytes(*b), WORD)
}
