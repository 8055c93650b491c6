// The memory of a store, and what it holds.
ghost use Rattle.std.specs.Prelude.{◌≡◌, ◌+◌, ◌^◌, ◌<◌, true};
ghost use Rattle.store.specs.Contents.{sound};
ghost use Rattle.store.specs.Layout.{Small, Laid, contents};
ghost use Rattle.store.specs.Uses.{in_use, room};

mod read;
mod seek;
mod tags;
mod write;

use crate::in_use::InUse;

// The records and text bytes that a store uses at most.
pub const MAX_TAGS: usize = 256;

pub const MAX_BYTES: usize = 65_536;

// A record of a store: how long a tag's key and value are.
#[derive(Clone, Copy)]
pub struct Span {
    key: usize,
    value: usize,
}

impl Span {
    // What to fill the memory with that is handed in.
    pub const UNUSED: Span = Span { key: 0, value: 0 };

    // How many bytes the tag has.
    fn bytes(self) -> usize
        requires { self.key + self.value < 2 ^ 64 }
        ensures { result ≡ self.key + self.value }
    {
        self.key + self.value
    }
}

// `text` begins with the origin, the ot value, and then each tag's key and value; all else is their lengths.
#[derive(Drop)]
pub struct Store {
    spans: InUse<Span>,
    text: InUse<u8>,
    origin: Option<usize>,
    ot: Option<usize>,
    ghost small: { Small (room spans) (room text) },
    ghost laid: { Laid (in_use spans) (in_use text) origin ot },
    ghost good: { sound (contents (in_use spans) (in_use text) (room spans) (room text) origin ot) ≡ true },
}
