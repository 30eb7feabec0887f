// The parts of an entry: sixteen words, then the module and what was kept of its answer, without gaps.

// How many bytes an instruction record takes, and a type entry.
const RECORD: usize = 4 * records::RECORD;

const ENTRY: usize = 12;

// An entry: its words, and the parts after them.
#[derive(Clone, Copy)]
pub struct Entry<'a> {
    pub head: [u32; 16],
    pub module: &'a [u8],
    pub instructions: &'a [u8],
    pub log: &'a [u8],
    pub strings: &'a [u8],
    pub types: &'a [u8],
    pub order: &'a [u8],
    pub text: &'a [u8],
}

// The entry at the start of a sample, by the lengths and counts among its words, and what comes after it: nothing where the sample ends
// before the entry does.
pub fn entry_of(sample: &[u8]) -> Option<(Entry<'_>, &[u8])> {
    let (words, rest) = sample.split_at_checked(64)?;
    let mut head = [0u32; 16];
    for (word, bytes) in head.iter_mut().zip(words.as_chunks().0) {
        *word = u32::from_le_bytes(*bytes);
    }
    let (module, rest) = rest.split_at_checked(head[0] as usize)?;
    let (instructions, rest) = rest.split_at_checked(RECORD * (head[5] as usize))?;
    let (log, rest) = rest.split_at_checked(head[6] as usize)?;
    let (strings, rest) = rest.split_at_checked(head[7] as usize)?;
    let (types, rest) = rest.split_at_checked(ENTRY * (head[8] as usize))?;
    let (order, rest) = rest.split_at_checked(head[9] as usize)?;
    let (text, rest) = rest.split_at_checked(head[15] as usize)?;
    let entry = Entry {
        head,
        module,
        instructions,
        log,
        strings,
        types,
        order,
        text,
    };
    Some((entry, rest))
}
