// The writing side of a line block.
ghost use Rattle.std.specs.Prelude.{◌≡◌, ◌+◌, ◌≤◌, min, length, take, IfOk};
ghost use Rattle.std.specs.Result.{is_ok};
ghost use Rattle.carrier.specs.Lents.{lent};
ghost use Rattle.block.specs.Blocks.{names, opens};
ghost use Rattle.block.specs.Edits.{Whole, Pushed};
ghost use Rattle.block.specs.Kind.{blocks};
ghost use Rattle.block.specs.Lines.{line, line_text};
ghost use Rattle.block.specs.Openings.{Opened, LeftBy};
ghost use Rattle.block.specs.Parts.{owned_by};

use crate::faults::OpenFault;
use crate::line::{MARKS, take_line};
use crate::look::{find, name_at, name_count, others_len, whole_lines};
use crate::machine::{MAX_BLOCK, is_block};
use carrier::faults::SetFault;
use carrier::names::is_name;
use carrier::traits::{Carrier, Extractor, Injector};
use text::check::{MAX_TEXT, is_lawful};

// Whether the first bytes of the memory are a block.
fn is_opened(memory: &[u8], len: usize) -> bool
    ensures { result ≡ opens memory.now len }
{
    memory.get(..len).is_some_and(is_block)
}

// Reads and writes headers in the block at the front of a memory. The memory is lent, so how much of it is the block stands beside it.
// No ghost field bounds that: the checker covers no `Result` of a layer whose type holds one beside a lent memory.
#[derive(Drop)]
pub struct LineBlock<'m> {
    memory: &'m mut [u8],
    len: usize,
}

impl<'m> LineBlock<'m> {
    // The block is the first `len` bytes; those after it are free.
    pub fn open(memory: &'m mut [u8], len: usize) -> Result<LineBlock<'m>, OpenFault>
        ensures opens { is_ok result ≡ opens memory.old len }
        ensures opened { IfOk result (Opened memory.entry len) }
    {
        is_opened(memory, len)
            .then_some(LineBlock { memory, len })
            .ok_or(OpenFault::Malformed)
    }

    // The bytes of the block, for a reading side or to be sent.
    pub fn block(&self) -> &[u8]
        ensures { LeftBy (owned_by self.now).own result.now }
    {
        whole_lines(self.front())
    }

    // The bytes that count: those of the block, as far as the memory and the limit go.
    fn front(&self) -> &[u8]
        ensures { result.now ≡ take (min self.now.len 65536) self.now.memory.now }
    {
        let end = self.len.min(MAX_BLOCK).min(self.memory.len());
        &self.memory[..end]
    }

    // Moves the lines of other names together at the front: the block is these.
    fn drop_lines(&mut self, name: &[u8])
        ensures cut { owned_by self.new ≡ (lent blocks).cut (owned_by self.old) name.now }
        ensures whole { Whole self.new }
    {
        let end = self.front().len();
        let memory = &mut *self.memory;
        let mut at = 0;
        let mut kept = 0;
        // No iterator: each turn writes to the memory that the next line is read from.
        while let Some(line) = take_line(&memory[at..end]) {
            let len = line.len();
            if line.name != name {
                memory.copy_within(at..at + len, kept);
                kept += len;
            }
            at += len;
        }
        self.len = kept;
    }

    // Adds the bytes at the end.
    fn push(&mut self, bytes: &[u8])
        requires { self.old.len + length bytes.now ≤ length self.old.memory.now }
        ensures { Pushed self.old self.new bytes.now }
    {
        let end = self.len + bytes.len();
        self.memory[self.len..end].copy_from_slice(bytes);
        self.len = end;
    }

    // Adds the line at the end.
    fn push_line(&mut self, name: &[u8], value: &[u8])
        requires { self.old.len + (length name.now + length value.now + 4) ≤ length self.old.memory.now }
        ensures { Pushed self.old self.new (line_text (line name.now value.now)) }
    {
        self.push(name);
        self.push(b": ");
        self.push(value);
        self.push(b"\r\n");
    }
}

impl<'m> Carrier for LineBlock<'m> {
    ghost kind = { lent blocks };

    ghost held = { λ s. owned_by s };
}

// As in the reader. Each body is one call: a trait that both sides shared would have more lines than these.
impl<'m> Extractor for LineBlock<'m> {
    ghost order = { λ s. names (owned_by s).own.lines };

    fn get<'a>(&'a self, name: &[u8]) -> Option<&'a [u8]> {
        find(self.front(), name)
    }

    fn key_count(&self) -> usize {
        name_count(self.front())
    }

    fn key_at(&self, at: usize) -> Option<&[u8]> {
        name_at(self.front(), at)
    }
}

impl<'m> Injector for LineBlock<'m> {
    fn takes(&self, name: &[u8], len: usize) -> bool {
        is_name(name)
            && len <= MAX_TEXT
            && others_len(self.front(), name) + (name.len() + len + MARKS)
                <= self.memory.len().min(MAX_BLOCK)
    }

    fn set(&mut self, name: &[u8], value: &[u8]) -> Result<(), SetFault> {
        // Every carrier's set begins so; what follows differs.
        if !is_name(name) || !is_lawful(value) {
            return Err(SetFault::Unlawful);
        }
        if !self.takes(name, value.len()) {
            return Err(SetFault::Full);
        }
        self.drop_lines(name);
        self.push_line(name, value);
        Ok(())
    }

    fn unset(&mut self, name: &[u8]) {
        self.drop_lines(name)
    }
}
