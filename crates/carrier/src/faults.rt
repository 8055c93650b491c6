// Why a carrier refuses.
ghost use Rattle.std.proofs.Common.{lit≤};
ghost use Rattle.carrier.specs.declared.faults.SetFault.TheVariants.{Unlawful, Full};
ghost use Rattle.carrier.specs.Steps.{number};

use refusal::Refusal;

// Why a value is not set.
#[derive(Clone, Copy, PartialEq, Eq, Debug)]
pub enum SetFault {
    Unlawful = 10,
    Full = 12,
}

impl Refusal for SetFault {
    ghost code = { number };

    fn number(self) -> u8 {
        self as u8
    }

    ghost in_range = { elim [ Unlawful ↦ (lit≤ tt, lit≤ tt) | Full ↦ (lit≤ tt, lit≤ tt) ] };
}
