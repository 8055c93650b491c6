// A text parted at a byte.
ghost use Rattle.std.specs.Prelude.{◌≡◌, ◌==◌, position};
ghost use Rattle.std.specs.Option.{option_map};
ghost use Rattle.text.specs.Splits.{split_once};
ghost use Rattle.text.specs.Takes.{both};

// The place of the first `c`.
fn place_of(s: &[u8], c: u8) -> Option<usize>
    ensures { result ≡ position (λ b. b == c) s.now }
{
    s.iter().position(|b| *b == c)
}

// What stands before the first `c` and what stands after it.
pub fn split_once(s: &[u8], c: u8) -> Option<(&[u8], &[u8])>
    ensures { option_map both result ≡ split_once c s.now }
{
    let at = place_of(s, c)?;
    Some((&s[..at], &s[at + 1..]))
}
