// Lists the module on standard input, of which it reads 4,097 bytes at most: more than 4,096 are too long.
#![tactic(auto)]

use std::io;
use std::io::Write;

fn main(rt: HostRuntime) -> io::Result<()> {
    let mut module = [0u8; 4097];
    let n = reading::read_full(&mut rt.reader(), &mut module)?;
    let mut text = [0u8; listed::ROOM];
    let size = listed::listing(&module[..n], &mut text);
    io::writer(&rt).write_all(&text[..size])
}
