// Why a block is not opened.
ghost use Rattle.std.proofs.Common.{lit≤};
ghost use Rattle.block.specs.Refusals.{number};
ghost use Rattle.block.specs.declared.faults.OpenFault.TheVariants.{Malformed};

use refusal::Refusal;

// The bytes are no block.
#[derive(Clone, Copy, PartialEq, Eq, Debug)]
pub enum OpenFault {
    Malformed = 13,
}

impl Refusal for OpenFault {
    ghost code = { number };

    fn number(self) -> u8 {
        self as u8
    }

    ghost in_range = { elim [ Malformed ↦ (lit≤ tt, lit≤ tt) ] };
}
