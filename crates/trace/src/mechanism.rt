// The sampling mechanism.
ghost use Rattle.std.specs.Prelude.{◌≡◌};
ghost use Rattle.std.specs.Option.{option_map};
ghost use Rattle.number.specs.Numbers.{decimal_bytes, mechanism, mechanism_text};
ghost use Rattle.trace.specs.Traces.{maker};

use number::read::read_mechanism;
use number::write::{Decimal, mechanism_text};

// Who decided on the sampling.
#[derive(Clone, Copy, PartialEq, Eq, Debug)]
pub struct SamplingMechanism {
    pub value: u8,
}

pub const DEFAULT: SamplingMechanism = SamplingMechanism { value: 0 };

// The tag that carries it.
pub const SAMPLING_DECISION_MAKER_TAG_KEY: &[u8] = b"_dd.p.dm";

impl SamplingMechanism {
    // The pair is that of a priority, for another format: a minus that is no sign, and digits.
    pub fn from_text(s: &[u8]) -> Option<SamplingMechanism>
        ensures { option_map maker result ≡ mechanism s.now }
    {
        read_mechanism(s).map(|value| SamplingMechanism { value })
    }

    // No `Display`, as for a priority's text.
    pub fn text(self) -> Decimal
        ensures { decimal_bytes result ≡ mechanism_text (maker self) }
    {
        mechanism_text(self.value)
    }
}
