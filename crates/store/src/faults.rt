// Why a store refuses.
use refusal::Refusal;
use std::error::Error;
use std::fmt;

// Unlawful text, or memory too small for what it would then hold.
#[derive(Clone, Copy, PartialEq, Eq, Debug)]
pub enum StoreFault {
    Unlawful = 10,
    Full = 11,
}

impl Refusal for StoreFault {
    ghost use Rattle.std.proofs.Common.{lit≤};
    ghost use Rattle.store.specs.declared.faults.StoreFault.TheVariants.{Unlawful, Full};
    ghost use Rattle.store.specs.Contents.{number};

    ghost code = { number };

    fn number(self) -> u8 {
        self as u8
    }

    ghost in_range = { elim [ Unlawful ↦ (lit≤ tt, lit≤ tt) | Full ↦ (lit≤ tt, lit≤ tt) ] };
}

impl fmt::Display for StoreFault {
    ghost use Rattle.std.specs.Prelude.{Some};
    ghost use Rattle.store.specs.Contents.{fault_text};

    ghost output = { λ f. Some (fault_text f) };

    fn fmt<W: fmt::Write>(&self, f: &mut fmt::Formatter<W>) -> fmt::Result {
        f.write_str(match self {
            StoreFault::Unlawful => "unlawful text or number",
            StoreFault::Full => "memory too small",
        })
    }
}

impl Error for StoreFault {}
