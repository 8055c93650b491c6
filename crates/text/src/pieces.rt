// The pieces of a text between separators, one after the other.
ghost use Rattle.std.specs.Prelude.{◌≡◌};
ghost use Rattle.std.specs.Iterator.{YieldsFirstRef, item_count};
ghost use Rattle.text.specs.Cursors.{left};
ghost use Rattle.text.specs.Splits.{pieces};

use crate::split::split_once;

// A cursor over the pieces that are still to come.
#[derive(Clone, Copy)]
pub struct Pieces<'a> {
    rest: Option<&'a [u8]>,
    separator: u8,
}

impl<'a> Pieces<'a> {
    pub fn new(s: &'a [u8], separator: u8) -> Pieces<'a>
        ensures { left result ≡ pieces separator s.now }
    {
        Pieces {
            rest: Some(s),
            separator,
        }
    }
}

impl<'a> Iterator for Pieces<'a> {
    type Item = &'a [u8];

    ghost next_gives = { YieldsFirstRef left };

    ghost remaining = { item_count left };

    // The next piece; none once all were given.
    fn next(&mut self) -> Option<&'a [u8]> {
        let text = self.rest.take()?;
        let Some((piece, rest)) = split_once(text, self.separator) else {
            return Some(text);
        };
        self.rest = Some(rest);
        Some(piece)
    }
}
