// Replays the sample (data/README.md): loads each of its modules by the built-in grammar, writes an accepted one in module order and as
// text, and compares all with the answers kept there. Writes a line for each module that differs, then how many there were of both.
#![tactic(auto)]

mod answer;
mod parts;
mod stores;

use parts::entry_of;
use std::fs::File;
use std::io;

// Writes that the sample ends before its last entry does.
fn say_cut(rt: &impl Print) -> io::Result<()> {
    println!(rt; "the sample is cut short")
}

// Replays the entries of a sample: how many there are, then each.
fn replay(rt: &impl Print, sample: &[u8]) -> io::Result<()> {
    let Some((count, mut rest)) = sample.split_first_chunk() else {
        return say_cut(rt);
    };
    let count = u32::from_le_bytes(*count);
    let mut differences = 0u64;
    for i in 1..=count {
        let Some((entry, after)) = entry_of(rest) else {
            return say_cut(rt);
        };
        if !answer::same(&entry) {
            println!(rt; "module {i} differs")?;
            differences += 1;
        }
        rest = after;
    }
    if !rest.is_empty() {
        println!(rt; "the sample goes on after its last module")?;
    }
    println!(rt; "replayed {count} modules, {differences} differences")
}

// The sample is the file `sample.bin`, of which 196,608 bytes are read at most.
fn main(rt: HostRuntime) -> io::Result<()> {
    let mut file = File::open(&rt, "sample.bin")?;
    let mut sample = [0u8; 196608];
    let n = reading::read_full(&mut file, &mut sample)?;
    replay(&rt, &sample[..n])
}
