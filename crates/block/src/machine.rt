// The check of a block at its opening: a machine that steps at each byte until the end.
ghost use Rattle.std.specs.Prelude.{◌≡◌};
ghost use Rattle.block.specs.Lines.{well_formed};
ghost use Rattle.block.specs.Machine.{step, run, start, accepts, at_start};

use byte_classes::sets::{ByteTest, Name, Text};
use carrier::names::MAX_NAME;
use text::check::MAX_TEXT;

// The longest block.
pub const MAX_BLOCK: usize = 65_536;

// Where in a line the machine is, with the bytes of the name or the value so far.
#[derive(Clone, Copy)]
enum State {
    Name(usize),
    Blank,
    Value(usize),
    LineEnd,
}

// The state after the byte; none where no block has the byte there.
fn stepped(state: State, byte: u8) -> Option<State>
    ensures { result ≡ step state byte }
{
    match (state, byte) {
        (State::Name(n), b) if n < MAX_NAME && Name::test(b) => Some(State::Name(n + 1)),
        (State::Name(n), b':') if n > 0 => Some(State::Blank),
        (State::Blank, b' ') => Some(State::Value(0)),
        (State::Value(n), b) if n < MAX_TEXT && Text::test(b) => Some(State::Value(n + 1)),
        (State::Value(_), b'\r') => Some(State::LineEnd),
        (State::LineEnd, b'\n') => Some(State::Name(0)),
        _ => None,
    }
}

// Whether a block may end in the state.
fn is_start(state: State) -> bool
    ensures { result ≡ at_start state }
{
    matches!(state, State::Name(0))
}

// Whether the machine steps over the whole text and ends where a line begins.
fn accepted(text: &[u8]) -> bool
    ensures { result ≡ accepts (run start text.now) }
{
    text.iter()
        .try_fold(State::Name(0), |state, byte| stepped(state, *byte))
        .is_some_and(is_start)
}

// Whether this is a block: lines from one end to the other, and not too many bytes.
pub fn is_block(text: &[u8]) -> bool
    ensures { result ≡ well_formed text.now }
{
    text.len() <= MAX_BLOCK && accepted(text)
}
