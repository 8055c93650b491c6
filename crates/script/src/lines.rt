// The lines of a script, counted.
ghost use Rattle.std.specs.Prelude.{length};
ghost use Rattle.std.specs.Iterator.{at_most};
ghost use Rattle.text.specs.Cursors.{left};

use crate::words::Words;
use text::pieces::Pieces;
use text::trim::trim;

// A line without blanks at its ends, and its number from 1.
#[derive(Clone, Copy)]
pub(crate) struct Line<'a> {
    pub(crate) number: u64,
    pub(crate) text: &'a [u8],
}

impl Line<'_> {
    // Whether the line is passed over.
    pub(crate) fn is_idle(&self) -> bool {
        matches!(self.text, [] | [b'#', ..])
    }

    // Whether the line chooses a carrier.
    pub(crate) fn is_choice(&self) -> bool {
        Words::new(self.text)
            .next()
            .is_some_and(|word| matches!(word, b"carrier"))
    }
}

// The lines that are still to come.
#[derive(Clone, Copy)]
pub(crate) struct Lines<'a> {
    pieces: Pieces<'a>,
    number: u64,
}

impl<'a> Lines<'a> {
    pub(crate) fn new(script: &'a [u8]) -> Lines<'a> {
        Lines {
            pieces: Pieces::new(script, b'\n'),
            number: 0,
        }
    }
}

impl<'a> Iterator for Lines<'a> {
    type Item = Line<'a>;

    ghost remaining = { λ l. at_most (length (left l.pieces)) };

    fn next(&mut self) -> Option<Line<'a>> {
        let piece = self.pieces.next()?;
        self.number = self.number.saturating_add(1);
        Some(Line {
            number: self.number,
            text: trim(piece),
        })
    }
}
