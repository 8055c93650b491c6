// Decimal text.
ghost use Rattle.std.specs.Prelude.{◌≡◌, ◌+◌, ◌≤◌, ◌++◌, length};
ghost use Rattle.number.specs.Numbers.{decimal_bytes, decimal_text, mechanism_text, small_text};
ghost use Rattle.text.specs.Inlines.{text_of};

use super::Decimal;
use itoa::{Buffer, Integer};
use text::inline::Inline;

// The text of an integer of any type: none is longer.
pub type IntegerText = Inline<40>;

impl Decimal {
    pub fn text(&self) -> &[u8]
        ensures is { result.now ≡ decimal_bytes self.now }
        ensures short { length result.now ≤ 20 }
    {
        self.text.as_slice()
    }
}

// The digits of a number, with a minus where it is negative, after what leads them in. Not by `write!`, whose contract lets any writer
// fail.
fn printed<I: Integer>(lead: &[u8], n: I) -> Decimal
    requires { length lead.now + I.MAX_STR_LEN ≤ 20 }
    ensures { decimal_bytes result ≡ lead.now ++ I.text n }
{
    let mut text = Inline::new();
    text.push(lead).unwrap();
    text.push(Buffer::new().format(n).as_bytes()).unwrap();
    Decimal { text }
}

pub fn decimal_u64(n: u64) -> Decimal
    ensures { decimal_bytes result ≡ decimal_text n }
{
    printed::<u64>(b"", n)
}

pub fn decimal_i8(n: i8) -> Decimal
    ensures { decimal_bytes result ≡ small_text n }
{
    printed::<i8>(b"", n)
}

// A minus, which is no sign, then the digits.
pub fn mechanism_text(m: u8) -> Decimal
    ensures { decimal_bytes result ≡ mechanism_text m }
{
    printed::<u8>(b"-", m)
}

// The digits of an integer of any type, with a minus where it is negative. No reader takes more than 64 bits.
pub fn decimal_text<I: Integer>(n: I) -> IntegerText
    ensures { text_of result ≡ I.text n }
{
    let mut digits = Inline::new();
    digits.push(Buffer::new().format(n).as_bytes()).unwrap();
    digits
}
