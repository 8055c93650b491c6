// tracestate, read.
ghost use Rattle.std.specs.Prelude.{◌≡◌};
ghost use Rattle.std.specs.Option.{option_map};
ghost use Rattle.tracestate.specs.Lists.{read_piece, read_tracestate, seen, shown};
ghost use Rattle.tracestate.specs.Members.{said};

use crate::member::{Member, split_member};
use text::pieces::Pieces;
use text::trim::trim;

// Of more pieces than these the first are read.
pub const TRACESTATE_MAX_MEMBERS: usize = 32;

// What a tracestate says to us: the values of our own member and of OpenTelemetry's, as parts of the list.
#[derive(Clone, Copy, Default)]
pub struct Tracestate<'a> {
    pub dd: Option<&'a [u8]>,
    pub ot: Option<&'a [u8]>,
}

// What is found once a member more is read: of two values of one key the later counts.
fn with_member<'a>(found: Tracestate<'a>, member: Member<'a>) -> Tracestate<'a>
    ensures { shown result ≡ seen (shown found.entry) (said member.entry) }
{
    match member.key {
        b"dd" => Tracestate {
            dd: Some(member.value),
            ..found
        },
        b"ot" => Tracestate {
            ot: Some(member.value),
            ..found
        },
        _ => found,
    }
}

// What is found once a piece more is read; none if it is unlawful.
fn read_piece<'a>(found: Tracestate<'a>, piece: &'a [u8]) -> Option<Tracestate<'a>>
    ensures { option_map shown result ≡ read_piece (shown found.entry) piece.now }
{
    let piece = trim(piece);
    if piece.is_empty() {
        return Some(found);
    }
    let member = split_member(piece)?;
    Some(with_member(found, member))
}

// What the list says; none if it is unlawful.
pub fn read_tracestate(s: &[u8]) -> Option<Tracestate<'_>>
    ensures { option_map shown result ≡ read_tracestate s.now }
{
    Pieces::new(s, b',')
        .take(TRACESTATE_MAX_MEMBERS)
        .try_fold(Tracestate::default(), read_piece)
}
