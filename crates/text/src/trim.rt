// A text without the bytes of a set at its ends.
ghost use Rattle.std.specs.Prelude.{◌≡◌, ◌≤◌, length};
ghost use Rattle.std.specs.List.{prefix_len, suffix_len};
ghost use Rattle.text.specs.Trims.{without_front, without_back, trimmed};

use byte_classes::sets::{Blank, ByteTest};

// How many bytes at the front are in the set.
fn front_len<S: ByteTest>(s: &[u8]) -> usize
    ensures value { result ≡ prefix_len S.ByteTest.holds s.now }
    ensures bound { result ≤ length s.now }
{
    s.iter().take_while(|b| S::test(**b)).count()
}

// How many bytes at the end are in the set.
fn end_len<S: ByteTest>(s: &[u8]) -> usize
    ensures value { result ≡ suffix_len S.ByteTest.holds s.now }
    ensures bound { result ≤ length s.now }
{
    s.iter().rev().take_while(|b| S::test(**b)).count()
}

// The text from its first byte on that is not in the set.
#[tactic(auto, unfolding(crate::specs::Trims::without_front))]
pub fn trim_start<S: ByteTest>(s: &[u8]) -> &[u8]
    ensures { result.now ≡ without_front S.ByteTest.holds s.now }
{
    let n = front_len::<S>(s);
    &s[n..]
}

// The text up to its last byte that is not in the set.
#[tactic(auto, unfolding(crate::specs::Trims::without_back))]
pub fn trim_end<S: ByteTest>(s: &[u8]) -> &[u8]
    ensures { result.now ≡ without_back S.ByteTest.holds s.now }
{
    let n = end_len::<S>(s);
    &s[..s.len() - n]
}

// The text without blanks at both ends.
pub fn trim(s: &[u8]) -> &[u8]
    ensures { result.now ≡ trimmed s.now }
{
    trim_end::<Blank>(trim_start::<Blank>(s))
}
