// The reading side of a line block.
ghost use Rattle.std.specs.Prelude.{◌≡◌, IfOk};
ghost use Rattle.std.specs.Result.{is_ok};
ghost use Rattle.block.specs.Blocks.{names, read_block};
ghost use Rattle.block.specs.Kind.{blocks};
ghost use Rattle.block.specs.Lines.{well_formed};
ghost use Rattle.block.specs.Parts.{read_by};

use crate::faults::OpenFault;
use crate::look::{find, name_at, name_count};
use crate::machine::is_block;
use carrier::traits::{Carrier, Extractor};

// Reads headers from a block that stays as it is.
#[derive(Clone, Copy)]
pub struct LineReader<'m> {
    block: &'m [u8],
}

impl<'m> LineReader<'m> {
    pub fn open(block: &'m [u8]) -> Result<LineReader<'m>, OpenFault>
        ensures opens { is_ok result ≡ well_formed block.now }
        ensures holds { IfOk result (λ side. read_by side ≡ read_block block.now) }
    {
        is_block(block)
            .then_some(LineReader { block })
            .ok_or(OpenFault::Malformed)
    }
}

impl<'m> Carrier for LineReader<'m> {
    ghost kind = { blocks };

    ghost held = { λ s. read_by s };
}

// The writing side has the same three lines over its front: a trait that both shared would have more.
impl<'m> Extractor for LineReader<'m> {
    ghost order = { λ s. names (read_by s).lines };

    fn get<'a>(&'a self, name: &[u8]) -> Option<&'a [u8]> {
        find(self.block, name)
    }

    fn key_count(&self) -> usize {
        name_count(self.block)
    }

    fn key_at(&self, at: usize) -> Option<&[u8]> {
        name_at(self.block, at)
    }
}
