// What there is to see of a carrier besides the headers that it shows.
use block::writer::LineBlock;
use prefix::layer::Prefixed;
use slots::table::SlotTable;

pub(crate) trait Content {
    // The bytes of the block, if it has one.
    fn content(&self) -> Option<&[u8]>;
}

impl Content for SlotTable {
    fn content(&self) -> Option<&[u8]> {
        None
    }
}

impl<'m> Content for LineBlock<'m> {
    fn content(&self) -> Option<&[u8]> {
        Some(self.block())
    }
}

impl<C: Content> Content for Prefixed<C> {
    fn content(&self) -> Option<&[u8]> {
        self.below.content()
    }
}
