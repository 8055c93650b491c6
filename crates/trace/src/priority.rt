// The sampling priority.
ghost use Rattle.std.specs.Prelude.{◌≡◌};
ghost use Rattle.std.specs.Option.{option_map};
ghost use Rattle.number.specs.Numbers.{decimal_bytes, small, small_text};
ghost use Rattle.trace.specs.Traces.{keeps, keeps_if, level};

use number::read::read_i8;
use number::write::{Decimal, decimal_i8};

// How much a trace is wanted.
#[derive(Clone, Copy, PartialEq, Eq, Debug)]
pub struct SamplingPriority {
    pub value: i8,
}

pub const AUTO_REJECT: SamplingPriority = SamplingPriority { value: 0 };

pub const AUTO_KEEP: SamplingPriority = SamplingPriority { value: 1 };

pub const USER_KEEP: SamplingPriority = SamplingPriority { value: 2 };

impl SamplingPriority {
    // Whether the trace is kept.
    pub fn is_keep(self) -> bool
        ensures { result ≡ keeps (level self) }
    {
        self.value > 0
    }

    // An Option, as numbers are read: a `TryFrom` would need an error that has nothing to say.
    pub fn from_text(s: &[u8]) -> Option<SamplingPriority>
        ensures { option_map level result ≡ small s.now }
    {
        read_i8(s).map(|value| SamplingPriority { value })
    }

    // No `Display`, which can fail where its writer does; this text cannot.
    pub fn text(self) -> Decimal
        ensures { decimal_bytes result ≡ small_text (level self) }
    {
        decimal_i8(self.value)
    }
}

// The keep decision: with no priority a trace is not kept.
pub fn is_kept(priority: Option<SamplingPriority>) -> bool
    ensures { result ≡ keeps_if (option_map level priority) }
{
    priority.is_some_and(SamplingPriority::is_keep)
}
