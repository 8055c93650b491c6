// The place of a key.
ghost use Rattle.std.specs.Prelude.{◌≡◌, ◌+◌, ◌^◌, ◌<◌, true, length};
ghost use Rattle.std.specs.Option.{option_len};
ghost use Rattle.store.specs.Spots.{Spot, own_bytes};
ghost use Rattle.store.specs.Tags.{ascends, flat};
ghost use Rattle.store.specs.Walks.{left};

use crate::memory::Span;
use crate::memory::tags::Tags;
use std::cmp::Ordering;

// How many tags come before a key, where they end, and the record of its own tag if it has one.
#[derive(Clone, Copy)]
pub(crate) struct Place {
    pub(crate) index: usize,
    pub(crate) at: usize,
    pub(crate) own: Option<Span>,
}

impl Place {
    // How many tags are the key's own.
    pub(crate) fn tags(self) -> usize
        ensures { result ≡ option_len self.own }
    {
        usize::from(self.own.is_some())
    }

    // How many bytes are the key's own.
    pub(crate) fn bytes(self) -> usize
        requires { own_bytes self.own < 2 ^ 64 }
        ensures { result ≡ own_bytes self.own }
    {
        self.own.map_or(0, Span::bytes)
    }
}

// The place of the key among the tags, which begin at `from`. No search by halves: a tag lies past all that come before it.
pub(crate) fn seek(tags: Tags, from: usize, key: &[u8]) -> Place
    requires few { length (left tags) < 2 ^ 64 }
    requires small { from + length (flat (left tags)) < 2 ^ 64 }
    requires ascends { ascends (left tags) ≡ true }
    ensures { Spot key.now (left tags.entry) from result }
{
    let count = tags.spans.len();
    // A sum beside the loop: `find` would not say how many bytes it passed over.
    let mut at = from;
    for (index, (own, value)) in tags.enumerate() {
        let span = Span {
            key: own.len(),
            value: value.len(),
        };
        match own.cmp(&key) {
            Ordering::Less => at += span.bytes(),
            Ordering::Equal => return Place {
                index,
                at,
                own: Some(span),
            },
            Ordering::Greater => return Place {
                index,
                at,
                own: None,
            },
        }
    }
    Place {
        index: count,
        at,
        own: None,
    }
}
