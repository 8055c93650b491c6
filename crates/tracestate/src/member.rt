// One member of a tracestate list.
ghost use Rattle.std.specs.Prelude.{◌≡◌, ℕ};
ghost use Rattle.std.specs.Option.{option_map};
ghost use Rattle.tracestate.specs.Members.{is_key, is_part, is_value, member_of, said};

use byte_classes::sets::{ByteTest, LetterOrDigit, Space, TracestateKey, TracestateValue};
use text::check::all_in;
use text::split::split_once;

// The most bytes of a simple key, of the parts of one before and after its `@`, and of a value.
const KEY_MAX: usize = 256;

const TENANT_MAX: usize = 241;

const SYSTEM_MAX: usize = 14;

const VALUE_MAX: usize = 256;

// A key and its value, as parts of the list.
#[derive(Clone, Copy)]
pub struct Member<'a> {
    pub key: &'a [u8],
    pub value: &'a [u8],
}

// A simple key, or a part of a two-part one, of at most so many bytes.
#[tactic(auto, unfolding(crate::specs::Members::is_part))]
fn is_part(s: &[u8], most: usize) -> bool
    ensures { result ≡ is_part most s.now }
{
    s.len() <= most
        && s.first().is_some_and(|b| LetterOrDigit::test(*b))
        && all_in::<TracestateKey>(s)
}

// Whether this can be the key of a member.
#[tactic(auto, unfolding(crate::specs::Members::is_key))]
pub fn is_key(s: &[u8]) -> bool
    ensures { result ≡ is_key s.now }
{
    // Each arm has a test of its own, so a `match` is plainer than two closures.
    match split_once(s, b'@') {
        Some((tenant, system)) => is_part(tenant, TENANT_MAX) && is_part(system, SYSTEM_MAX),
        None => is_part(s, KEY_MAX),
    }
}

// Whether this can be the value of a member.
#[tactic(auto, unfolding(crate::specs::Members::is_value))]
pub fn is_value(s: &[u8]) -> bool
    ensures { result ≡ is_value s.now }
{
    s.len() <= VALUE_MAX
        && s.last().is_some_and(|b| !Space::test(*b))
        && all_in::<TracestateValue>(s)
}

// The member that a piece without blanks at its ends writes; none if it is unlawful.
#[tactic(auto, unfolding(crate::specs::Members::member_of))]
pub fn split_member(piece: &[u8]) -> Option<Member<'_>>
    ensures { option_map said result ≡ member_of piece.now }
{
    let (key, value) = split_once(piece, b'=')?;
    (is_key(key) && is_value(value)).then_some(Member { key, value })
}
