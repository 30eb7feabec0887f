// Strings in bytes: where one ends, whether its bytes are ASCII text, and whether they are UTF-8.
#![tactic(auto)]

ghost use Rattle.std.specs.Prelude.{◌≡◌};
ghost use Rattle.spec.specs.Text.{is_utf8};
ghost use Rattle.text.specs.Zero.{zero_in};
ghost use Rattle.text.specs.AsciiText.{is_ascii_text};
ghost use Rattle.text.specs.Steps.{utf8_rows, first_of};

// Where the first zero byte is.
pub fn zero(s: &[u8]) -> Option<usize>
    ensures { result ≡ zero_in s.now }
{
    for at in 0..s.len() {
        if s[at] == 0 {
            return Some(at);
        }
    }
    None
}

// Whether the bytes are ASCII text, each of ASCII and none zero: looked at to the end, so that many go at once.
pub fn is_ascii_text(s: &[u8]) -> bool
    ensures { result ≡ is_ascii_text s.now }
{
    s.iter()
        .fold(true, |ascii, b| ascii & (1 <= *b) & (*b < 128))
}

// Unicode's table 3-7, a row for each of its lines: the first byte from and to, how many bytes follow it, the second byte from and
// to. Each byte after the second is 80 to BF. A constant is built anew wherever it is named: `rows` names it once for a string, and
// whoever walks the rows is lent what that gave.
const ROWS: [[u8; 5]; 9] = [
    [0x00, 0x7F, 0, 0x80, 0xBF], // U+0000 to U+007F, without a second byte
    [0xC2, 0xDF, 1, 0x80, 0xBF], // U+0080 to U+07FF
    [0xE0, 0xE0, 2, 0xA0, 0xBF], // U+0800 to U+0FFF
    [0xE1, 0xEC, 2, 0x80, 0xBF], // U+1000 to U+CFFF
    [0xED, 0xED, 2, 0x80, 0x9F], // U+D000 to U+D7FF
    [0xEE, 0xEF, 2, 0x80, 0xBF], // U+E000 to U+FFFF
    [0xF0, 0xF0, 3, 0x90, 0xBF], // U+10000 to U+3FFFF
    [0xF1, 0xF3, 3, 0x80, 0xBF], // U+40000 to U+FFFFF
    [0xF4, 0xF4, 3, 0x80, 0x8F], // U+100000 to U+10FFFF
];

// The rows, to be lent to those who walk them.
fn rows() -> [[u8; 5]; 9]
    ensures { result ≡ utf8_rows }
{
    ROWS
}

// What is due: so many bytes of a character, the first of them from low to high.
#[derive(Clone, Copy)]
struct Pending {
    left: u8,
    low: u8,
    high: u8,
}

// What is due after the first byte of a character, by the row that has it; nothing where it may not stand there.
fn first(rows: &[[u8; 5]; 9], b: u8) -> Option<Pending>
    requires { rows.now ≡ utf8_rows }
    ensures { result ≡ first_of b }
{
    for row in rows {
        if (row[0] <= b) & (b <= row[1]) {
            return Some(Pending {
                left: row[2],
                low: row[3],
                high: row[4],
            });
        }
    }
    None
}

// Whether the bytes are well-formed UTF-8. ASCII text is, and is told at once; in other strings a byte of the first row, ASCII's, is
// passed by, since nothing follows it.
pub fn utf8(s: &[u8]) -> bool
    ensures { result ≡ is_utf8 s.now }
{
    if is_ascii_text(s) {
        return true;
    }
    let rows = rows();
    let mut p = Pending {
        left: 0,
        low: 0x80,
        high: 0xBF,
    };
    for &b in s {
        if p.left == 0 {
            if rows[0][1] < b {
                let Some(next) = first(&rows, b) else {
                    return false;
                };
                p = next;
            }
        } else if (p.low <= b) & (b <= p.high) {
            p = Pending {
                left: p.left - 1,
                low: 0x80,
                high: 0xBF,
            };
        } else {
            return false;
        }
    }
    p.left == 0
}
