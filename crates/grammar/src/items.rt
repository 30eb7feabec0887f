// The items of grammar bytes: one byte of kind, then a fixed body, numbers low byte first.
ghost use Rattle.std.specs.Prelude.{◌≡◌, ◌+◌, ◌*◌, ◌<◌, length};
ghost use Rattle.spec.specs.Grammar.{body_length};
ghost use Rattle.grammar.specs.Items.{item_at, length_at};

// An item: a row (its opcode), an operand (kind, quantifier), an enumerant (kind, value), a parameter (kind); or broken: no item, or one
// cut short.
#[derive(Clone, Copy)]
pub enum Item {
    Row(u16),
    Operand(u8, u8),
    Enumerant(u8, u32),
    Parameter(u8),
    Broken,
}

// The number in two bytes.
fn half(a: u8, b: u8) -> u16
    ensures { result ≡ a + 256 * b }
{
    (a as u16) + 256 * (b as u16)
}

// How many bytes follow a byte of kind.
fn body_length(b: u8) -> usize
    ensures { result ≡ body_length b }
{
    match b {
        0..=2 => 2,
        3 => 5,
        _ => 1,
    }
}

// The item that starts at a place.
pub fn item_at(g: &[u8], at: usize) -> Item
    requires { at < length g.now }
    ensures { result ≡ item_at g.now at }
{
    let from = at + 1;
    let room = g.len() - from;
    match g[at] {
        1 if 2 <= room => Item::Row(half(g[from], g[from + 1])),
        2 if 2 <= room => Item::Operand(g[from], g[from + 1]),
        3 if 5 <= room => Item::Enumerant(g[from], words::word_at(g, from + 1)),
        4 if 1 <= room => Item::Parameter(g[from]),
        _ => Item::Broken,
    }
}

// How many bytes the item that starts at a place has, its byte of kind with them.
pub fn item_length(g: &[u8], at: usize) -> usize
    requires { at < length g.now }
    ensures { result ≡ length_at g.now at }
{
    1 + body_length(g[at])
}
