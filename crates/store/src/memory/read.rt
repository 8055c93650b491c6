// What a store holds.
ghost use Rattle.std.specs.Prelude.{◌≡◌, ◌+◌, ◌^◌, ◌<◌, ◌≤◌, length, take, drop};
ghost use Rattle.std.specs.Option.{option_map};
ghost use Rattle.std.specs.List.{slice_get};
ghost use Rattle.text.specs.Takes.{both};
ghost use Rattle.store.specs.Laws.{Orderly};
ghost use Rattle.store.specs.Layout.{total};
ghost use Rattle.store.specs.Spots.{Spot};
ghost use Rattle.store.specs.Stores.{held, head_of};
ghost use Rattle.store.specs.Tags.{looked, key_of, value_of};
ghost use Rattle.store.specs.Uses.{in_use};
ghost use Rattle.store.specs.Walks.{left};

use crate::memory::seek::{Place, seek};
use crate::memory::tags::Tags;
use crate::memory::{Span, Store};

// How many bytes the tags of these lengths have.
fn total_of(spans: &[Span]) -> usize
    requires { total spans.now < 2 ^ 64 }
    ensures { result ≡ total spans.now }
{
    spans.iter().map(|span| span.bytes()).sum()
}

impl Store {
    // Where the tags begin.
    fn head(&self) -> usize
        ensures { result ≡ head_of self.now }
    {
        self.origin.unwrap_or(0) + self.ot.unwrap_or(0)
    }

    // A part of the text in use.
    fn part(&self, at: usize, len: usize) -> &[u8]
        requires { at + len ≤ length (in_use self.now.text) }
        ensures { result.now ≡ take len (drop at (in_use self.now.text)) }
    {
        let text = self.text.as_slice();
        &text[at..at + len]
    }

    // The tags in their order.
    fn tags(&self) -> Tags<'_>
        ensures { left result ≡ (held self.now).tags }
    {
        let head = self.head();
        let text = self.text.as_slice();
        Tags {
            spans: self.spans.as_slice(),
            text: &text[head..],
        }
    }

    // The place of a key among the tags.
    pub(crate) fn find(&self, key: &[u8]) -> Place
        ensures { Spot key.now (held self.now).tags (head_of self.now) result }
    {
        seek(self.tags(), self.head(), key)
    }

    // The tag at that place of the order. The lengths say where it lies, so no tag on the way to it is cut out of the text.
    fn tag_at(&self, i: usize) -> Option<(&[u8], &[u8])>
        ensures { option_map both result ≡ slice_get (held self.now).tags i }
    {
        let spans = self.spans.as_slice();
        let own = spans.get(i)?;
        let at = self.head() + total_of(&spans[..i]);
        Some((self.part(at, own.key), self.part(at + own.key, own.value)))
    }

    // How many tags there are. They are in order, each key once, and lawful.
    pub fn count(&self) -> usize
        ensures value { result ≡ length (held self.now).tags }
        ensures orderly { Orderly (held self.now) }
    {
        self.spans.as_slice().len()
    }

    // The value of the key.
    pub fn get(&self, key: &[u8]) -> Option<&[u8]>
        ensures { option_map (λ x. x.now) result ≡ looked key.now (held self.now).tags }
    {
        let place = self.find(key);
        let own = place.own?;
        Some(self.part(place.at + own.key, own.value))
    }

    // The key at that place of the order. The value's call differs in a part of the tag, which no parameter can name.
    pub fn key_at(&self, i: usize) -> Option<&[u8]>
        ensures { option_map (λ x. x.now) result ≡ option_map key_of (slice_get (held self.now).tags i) }
    {
        self.tag_at(i).map(|(key, _)| key)
    }

    // The value at that place of the order.
    pub fn value_at(&self, i: usize) -> Option<&[u8]>
        ensures { option_map (λ x. x.now) result ≡ option_map value_of (slice_get (held self.now).tags i) }
    {
        self.tag_at(i).map(|(_, value)| value)
    }

    // The origin.
    pub fn origin(&self) -> Option<&[u8]>
        ensures { option_map (λ x. x.now) result ≡ (held self.now).origin }
    {
        let len = self.origin?;
        Some(self.part(0, len))
    }

    // The ot value that was given.
    pub fn ot(&self) -> Option<&[u8]>
        ensures { option_map (λ x. x.now) result ≡ (held self.now).ot }
    {
        let len = self.ot?;
        Some(self.part(self.origin.unwrap_or(0), len))
    }
}
