// Numbers written as text.
mod decimals;
mod hexes;

pub use self::decimals::{IntegerText, decimal_i8, decimal_text, decimal_u64, mechanism_text};
pub use self::hexes::{fill_hex, hex_text};
use text::inline::Inline;

// A decimal text, as only the writers make one: no number of 64 bits has more than 20 digits.
#[derive(Clone, Copy)]
pub struct Decimal {
    text: Inline<20>,
}
