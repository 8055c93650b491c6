// The words of a line.
ghost use Rattle.std.specs.Prelude.{length};
ghost use Rattle.std.specs.Iterator.{at_most};

use crate::faults::LineFault;
use crate::quote::unquote;
use byte_classes::sets::{Blank, ByteTest};
use std::alloc::Global;
use text::trim::trim;

// The words that are still to come. A word ends at a blank; a quoted one at its second quote.
#[derive(Clone, Copy)]
pub(crate) struct Words<'a> {
    rest: &'a [u8],
}

impl<'a> Words<'a> {
    pub(crate) fn new(line: &'a [u8]) -> Words<'a> {
        Words { rest: trim(line) }
    }

    // The next word, where there must be one.
    pub(crate) fn word(&mut self) -> Result<&'a [u8], LineFault> {
        self.next().ok_or(LineFault::Unreadable)
    }

    // The next word, which must be a quoted text.
    pub(crate) fn text(&mut self, heap: Global) -> Result<Vec<u8>, LineFault> {
        unquote(heap, self.word()?)
    }

    // Nothing may follow.
    pub(crate) fn end(&mut self) -> Result<(), LineFault> {
        self.next()
            .is_none()
            .then_some(())
            .ok_or(LineFault::Unreadable)
    }
}

impl<'a> Iterator for Words<'a> {
    type Item = &'a [u8];

    ghost remaining = { λ s. at_most (length s.rest.now) };

    // The next word, with its quotes. What is left never begins with a blank.
    #[tactic(auto, using(crate::proofs::Trimmed::trimmed_short))]
    fn next(&mut self) -> Option<&'a [u8]> {
        let line = self.rest;
        let (first, others) = line.split_first()?;
        let more = match first {
            b'"' => others
                .iter()
                .position(|b| *b == b'"')
                .map_or(others.len(), |at| at + 1),
            _ => others.iter().take_while(|b| !Blank::test(**b)).count(),
        };
        self.rest = trim(&line[more + 1..]);
        Some(&line[..more + 1])
    }
}
