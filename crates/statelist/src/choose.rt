// Which members a list that is carried gives to the one that is written.
ghost use Rattle.std.specs.Prelude.{◌≡◌};
ghost use Rattle.std.specs.Option.{option_map};
ghost use Rattle.statelist.specs.Choosing.{given, listed, ot_to_add, passes_on};
ghost use Rattle.statelist.specs.Written.{carried_pieces, carries_ot, has_value};
ghost use Rattle.text.specs.Splits.{pieces};
ghost use Rattle.tracestate.specs.Members.{member_of};

use text::pieces::Pieces;
use text::trim::trim;
use tracestate::member::{Member, split_member};

// What is passed on to a list that is written: the ot value, and the list that was carried.
#[derive(Clone, Copy)]
pub(crate) struct Passing<'a> {
    pub(crate) ot: Option<&'a [u8]>,
    pub(crate) carried: Option<&'a [u8]>,
}

// Whether a carried piece, blanks off, is ot's member with that value.
fn is_ot_member(text: &[u8], value: &[u8]) -> bool
    ensures { result ≡ has_value value.now (member_of text.now) }
{
    matches!(split_member(text), Some(Member { key: b"ot", value: own }) if own == value)
}

// Whether a piece of the carried list is ot's member with that value.
fn carries_ot(carried: &[u8], value: &[u8]) -> bool
    ensures { result ≡ carries_ot value.now (pieces 0x2C carried.now) }
{
    Pieces::new(carried, b',').any(|piece| is_ot_member(trim(piece), value))
}

impl<'a> Passing<'a> {
    // Whether a carried piece, blanks off, is passed on: a lawful member that is not ours, and not an ot with another value.
    pub(crate) fn takes(self, text: &[u8]) -> bool
        ensures { result ≡ passes_on (given self.entry) (member_of text.now) }
    {
        match split_member(text) {
            None | Some(Member { key: b"dd", .. }) => false,
            Some(Member { key: b"ot", value }) => self.ot == Some(value),
            Some(_) => true,
        }
    }

    // The ot value, if it is to be a member of its own: unless it is carried.
    #[tactic(auto, unfolding(crate::specs::Written::carries_ot))]
    pub(crate) fn new_ot(self) -> Option<&'a [u8]>
        ensures { option_map (λ x. x.now) result ≡ ot_to_add (given self.entry) (carried_pieces (listed self.entry)) }
    {
        let value = self.ot?;
        let is_carried = self.carried.is_some_and(|list| carries_ot(list, value));
        (!is_carried).then_some(value)
    }
}
