// What each cause is: its number, and the faults of lower layers that it stands for.
use crate::Cause;
use refusal::Refusal;
use store::faults::StoreFault;
use traceparent::read::TraceparentFault;

impl Refusal for Cause {
    ghost use Rattle.fault.specs.Faults.{number};
    ghost use Rattle.fault.specs.Numbers.{numbers_fit};

    ghost code = { number };

    // No cast: a case with fields has no number of its own.
    fn number(self) -> u8 {
        match self {
            Cause::NotShown => 1,
            Cause::Shape => 2,
            Cause::ZeroTraceId => 3,
            Cause::ZeroSpanId => 4,
            Cause::VersionFf => 5,
            Cause::TailAfterVersion00 => 6,
            Cause::UnreadableTraceId => 7,
            Cause::ZeroDatadogTraceId => 8,
            Cause::ZeroId => 9,
            Cause::Unlawful => 10,
            Cause::MemoryTooSmall => 11,
            Cause::CarrierFull { .. } => 12,
            Cause::MalformedBlock => 13,
        }
    }

    ghost in_range = { numbers_fit };
}

// Why a call is refused, if its store refuses a change.
impl From<StoreFault> for Cause {
    ghost use Rattle.std.specs.Prelude.{◌≡◌};
    ghost use Rattle.fault.specs.Faults.{store_cause};

    ghost from_gives = { λ fault cause. cause ≡ store_cause fault };

    fn from(fault: StoreFault) -> Cause {
        match fault {
            StoreFault::Unlawful => Cause::Unlawful,
            StoreFault::Full => Cause::MemoryTooSmall,
        }
    }
}

// Why a call is refused, if its traceparent is.
impl From<TraceparentFault> for Cause {
    ghost use Rattle.std.specs.Prelude.{◌≡◌};
    ghost use Rattle.fault.specs.Faults.{parent_cause};

    ghost from_gives = { λ fault cause. cause ≡ parent_cause fault };

    fn from(fault: TraceparentFault) -> Cause {
        match fault {
            TraceparentFault::Shape => Cause::Shape,
            TraceparentFault::ZeroTraceId => Cause::ZeroTraceId,
            TraceparentFault::ZeroSpanId => Cause::ZeroSpanId,
            TraceparentFault::VersionFf => Cause::VersionFf,
            TraceparentFault::TailAfterVersion00 => Cause::TailAfterVersion00,
        }
    }
}
