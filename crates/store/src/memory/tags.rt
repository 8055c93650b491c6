// The tags of a store, one after the other.
ghost use Rattle.std.specs.Prelude.{◌≤◌, length};
ghost use Rattle.store.specs.Layout.{total};

use crate::memory::Span;

// The tags of these lengths at the front of a text, which has room for them.
#[derive(Drop)]
pub(crate) struct Tags<'a> {
    pub(crate) spans: &'a [Span],
    pub(crate) text: &'a [u8],
    ghost within: { total spans.now ≤ length text.now },
}

impl<'a> Iterator for Tags<'a> {
    ghost use Rattle.std.specs.Iterator.{YieldsFirstBy, item_count};
    ghost use Rattle.text.specs.Takes.{both};
    ghost use Rattle.store.specs.Walks.{left};

    type Item = (&'a [u8], &'a [u8]);

    ghost next_gives = { YieldsFirstBy both left };

    ghost remaining = { item_count left };

    fn next(&mut self) -> Option<(&'a [u8], &'a [u8])> {
        let (span, spans) = self.spans.split_first()?;
        let (key, text) = self.text.split_at(span.key);
        let (value, text) = text.split_at(span.value);
        *self = Tags { spans, text };
        Some((key, value))
    }
}
