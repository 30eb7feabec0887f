// A reader's bytes in a lent buffer, for the programs.
#![tactic(auto)]

ghost use Rattle.std.specs.Prelude.{◌≤◌, length, IfOk};

use std::io;
use std::io::Read;

// Reads until the buffer is full or the reader ends: how many bytes it gave.
pub fn read_full<R: Read>(reader: &mut R, buf: &mut [u8]) -> io::Result<usize>
    ensures { IfOk result (λ n. n ≤ length buf.new) }
{
    let mut n = 0;
    // No index is counted here: a turn adds as many bytes as the reader gave, and std has no call that stops at either end.
    while n < buf.len() {
        let more = reader.read(&mut buf[n..])?;
        if more == 0 {
            break;
        }
        n += more;
    }
    Ok(n)
}
