// Parts taken from the front of a text.
ghost use Rattle.std.specs.Prelude.{◌≡◌};
ghost use Rattle.std.specs.Option.{option_map};
ghost use Rattle.text.specs.Takes.{both, taken_char, taken_hex, stripped};

use crate::check::all_in;
use byte_classes::sets::Hex;

// The rest of the text, if its first byte is `c`.
pub fn take_char(s: &[u8], c: u8) -> Option<&[u8]>
    ensures { option_map (λ x. x.now) result ≡ taken_char c s.now }
{
    match s {
        [first, rest @ ..] if *first == c => Some(rest),
        _ => None,
    }
}

// The first `n` bytes, if all of them are lower-case hexadecimal digits, and the rest.
#[tactic(auto, unfolding(crate::specs::Takes::taken_hex))]
pub fn take_n_hex_chars(s: &[u8], n: usize) -> Option<(&[u8], &[u8])>
    ensures { option_map both result ≡ taken_hex n s.now }
{
    let (front, rest) = s.split_at_checked(n)?;
    all_in::<Hex>(front).then_some((front, rest))
}

// The rest of the text, if it begins with the prefix.
#[tactic(auto, unfolding(crate::specs::Takes::stripped))]
pub fn strip_prefix<'a>(s: &'a [u8], prefix: &[u8]) -> Option<&'a [u8]>
    ensures { option_map (λ x. x.now) result ≡ stripped prefix.now s.now }
{
    s.strip_prefix(prefix)
}
