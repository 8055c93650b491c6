// Prefixes, and names joined to them.
ghost use Rattle.std.specs.Prelude.{◌≡◌, ◌≤◌, length};
ghost use Rattle.std.proofs.Common.{lit≤};
ghost use Rattle.std.specs.Option.{option_map};
ghost use Rattle.text.specs.Inlines.{text_of};
ghost use Rattle.prefix.specs.Prefixes.{front, made, prefix_answer, number, joined};

use byte_classes::sets::Name;
use carrier::names::{MAX_NAME, is_name};
use refusal::Refusal;
use text::check::all_in;
use text::inline::{Inline, NoRoom};

// The longest prefix.
pub const MAX_PREFIX: usize = 16;

// Why no prefix was made: it is empty, too long, or has a byte that no name has.
#[derive(Clone, Copy, PartialEq, Eq, Debug)]
pub struct UnlawfulPrefix;

impl Refusal for UnlawfulPrefix {
    ghost code = { number };

    fn number(self) -> u8 {
        10
    }

    ghost in_range = { λ _. (lit≤ tt, lit≤ tt) };
}

impl From<NoRoom> for UnlawfulPrefix {
    ghost from_gives = { λ _ x. x ≡ record {} };

    fn from(_: NoRoom) -> UnlawfulPrefix {
        UnlawfulPrefix
    }
}

// No ghost field says what is lawful: a layer that held one beside a carrier over lent memory could stand in no other layer and in
// no `Result`, since the checker does not cover it.
#[derive(Clone, Copy)]
pub struct Prefix {
    text: Inline<MAX_PREFIX>,
}

impl Prefix {
    // Refused unless it has 1 to 16 name bytes.
    #[tactic(auto, unfolding(crate::specs::Prefixes::is_prefix))]
    pub fn new(bytes: &[u8]) -> Result<Prefix, UnlawfulPrefix>
        ensures { made result ≡ prefix_answer bytes.now }
    {
        let mut text = Inline::new();
        // First, so that a long text is refused by its length and not read.
        text.push(bytes)?;
        if bytes.is_empty() || !all_in::<Name>(bytes) {
            return Err(UnlawfulPrefix);
        }
        Ok(Prefix { text })
    }

    pub fn bytes(&self) -> &[u8]
        ensures is { result.now ≡ front self.now }
        ensures short { length result.now ≤ 16 }
    {
        self.text.as_slice()
    }

    // Prefix and name joined, if the name is lawful and the two have at most 64 bytes.
    #[tactic(auto, unfolding(crate::specs::Prefixes::joins))]
    pub(crate) fn joined(&self, name: &[u8]) -> Option<Inline<MAX_NAME>>
        ensures { option_map text_of result ≡ joined (front self.now) name.now }
    {
        if !is_name(name) {
            return None;
        }
        let mut full = Inline::new();
        full.push(self.bytes()).ok()?;
        full.push(name).ok()?;
        Some(full)
    }
}
