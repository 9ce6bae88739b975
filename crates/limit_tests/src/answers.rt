//! The top call over the outside in memory, and long texts.

use map_main::{MemShelf, MemSink, MemSource, NoMemory, Status, Words, map_run};
use std::alloc::{AllocError, Global};

/// The status of `map replay P S` on these files, and what was written.
pub(crate) fn answer(
    alloc: Global,
    program: &[u8],
    script: &[u8],
) -> Result<(Status, Vec<u8>), NoMemory> {
    let mut words = Words::new(alloc);
    for word in ["map", "replay", "P", "S"] {
        words.push(word)?;
    }
    let mut files = Vec::new(alloc);
    for (name, text) in [("P", program), ("S", script)] {
        let bytes = Vec::from_slice(alloc, text)?;
        files.push((String::from_str(alloc, name)?, bytes))?;
    }
    let mut shelf = MemShelf::new(files, Vec::new(alloc));
    let mut input = MemSource::new(Vec::new(alloc), 1, Vec::new(alloc));
    let mut out = MemSink::new(Vec::new(alloc), 4096, Vec::new(alloc));
    let status = map_run(alloc, &words, &mut shelf, &mut input, &mut out);
    Ok((status, out.taken))
}

/// The text of these pieces.
pub(crate) fn whole(alloc: Global, pieces: &[(&str, usize)]) -> Result<String, AllocError> {
    let mut text = String::new(alloc);
    for (piece, times) in pieces.iter() {
        text.push_str(piece.repeat(alloc, *times)?.as_str())?;
    }
    Ok(text)
}
