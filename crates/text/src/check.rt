// What a text is made of.
ghost use Rattle.std.specs.Prelude.{◌≡◌};
ghost use Rattle.std.specs.List.{list_all};
ghost use Rattle.text.specs.Texts.{lawful};

use byte_classes::sets::{ByteTest, Text};

// The longest lawful text.
pub const MAX_TEXT: usize = 16_384;

// Whether every byte of the text is in the set.
pub fn all_in<S: ByteTest>(s: &[u8]) -> bool
    ensures { result ≡ list_all S.ByteTest.holds s.now }
{
    s.iter().all(|b| S::test(*b))
}

// Whether this is lawful text: what a header's value, a tag and an origin may be.
pub fn is_lawful(s: &[u8]) -> bool
    ensures { result ≡ lawful s.now }
{
    s.len() <= MAX_TEXT && all_in::<Text>(s)
}
