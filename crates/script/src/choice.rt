// The line that chooses a carrier.
use crate::faults::LineFault;
use crate::quote::unquote;
use crate::words::Words;
use number::read::read_u64;
use std::alloc::{AllocError, Global};
use text::append::append;

// More memory than any block can use.
const MAX_MEMORY: usize = 131_072;

// How many layers a pile has at most.
const MAX_LAYERS: usize = 2;

// Memory, and how much of its front is a block: more than all of it where the text that was given is longer.
#[derive(Drop)]
pub(crate) struct Memory {
    pub(crate) bytes: Vec<u8>,
    pub(crate) len: usize,
}

// What lies at the bottom of a pile.
#[derive(Drop)]
pub(crate) enum Bottom {
    Slots,
    Block(Memory),
    // A block under the queue's prefix.
    Queue(Memory),
}

// A carrier as a line chooses it: layers by their prefixes, the upper first, over its bottom.
#[derive(Drop)]
pub(crate) struct Choice {
    pub(crate) layers: Vec<Vec<u8>>,
    pub(crate) bottom: Bottom,
}

// Memory of that size with the text at its front, or as much of it as there is room for.
fn filled(heap: Global, size: usize, text: &[u8]) -> Result<Memory, AllocError> {
    let mut bytes = vec![in heap; 0; size]?;
    append(&mut bytes, 0, text);
    Ok(Memory {
        bytes,
        len: text.len(),
    })
}

fn memory_size(word: &[u8]) -> Option<usize> {
    let size = usize::try_from(read_u64(word)?).ok()?;
    (size <= MAX_MEMORY).then_some(size)
}

fn read_memory(heap: Global, words: &mut Words) -> Result<Memory, LineFault> {
    let size = memory_size(words.word()?).ok_or(LineFault::Unreadable)?;
    let text = words
        .next()
        .map_or(Ok(Vec::new(heap)), |word| unquote(heap, word))?;
    Ok(filled(heap, size, &text)?)
}

// The carrier that the line chooses.
pub(crate) fn read_choice(heap: Global, line: &[u8]) -> Result<Choice, LineFault> {
    let mut words = Words::new(line);
    let _carrier = words.next();
    let mut layers = Vec::new(heap);
    let mut kind = words.word()?;
    // A count of layers, not of an index: a third `prefix` is no kind of carrier.
    for _ in 0..MAX_LAYERS {
        if matches!(kind, b"prefix") {
            match words.text(heap) {
                Ok(prefix) => layers.push(prefix)?,
                // A word that is no text gives no layer. A match, since only that fault is passed over.
                Err(LineFault::Unreadable) => {}
                Err(fault) => return Err(fault),
            }
            kind = words.word()?;
        }
    }
    let bottom = match kind {
        b"slots" => Bottom::Slots,
        b"block" => Bottom::Block(read_memory(heap, &mut words)?),
        b"queue" => Bottom::Queue(read_memory(heap, &mut words)?),
        _ => return Err(LineFault::Unreadable),
    };
    words.end()?;
    Ok(Choice { layers, bottom })
}
