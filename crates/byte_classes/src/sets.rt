// A type for each set of bytes, so that a loop over a text is written and proved once for all of them.
ghost use Rattle.std.specs.Prelude.{◌≡◌, ℕ, Bool};
ghost use Rattle.byte_classes.specs.Sets.{text, blank, space, digit, hex, any_hex, name, letter_or_digit, tracestate_key, tracestate_value, tag_key_replaced, tag_value_replaced, datadog_key, datadog_value, equals, tilde};

use crate::class::{Class, is_in};

// A test of one byte: the one-function interface with an implementation for each set, which is the project's form. A constant of the set
// read by one function of the trait would be longer: a ghost constant and a law in every set, since no default can cite another member.
pub trait ByteTest {
    ghost holds: { ℕ → Bool };

    fn test(b: u8) -> bool
        ensures { result ≡ holds b };
}

// Lawful text: a tab, or a printable byte.
pub struct Text;

impl ByteTest for Text {
    ghost holds = { text };

    fn test(b: u8) -> bool {
        is_in(b, Class::Text)
    }
}

// A tab or a space.
pub struct Blank;

impl ByteTest for Blank {
    ghost holds = { blank };

    fn test(b: u8) -> bool {
        is_in(b, Class::Blank)
    }
}

// The space alone, which no written value may end in.
pub struct Space;

impl ByteTest for Space {
    ghost holds = { space };

    fn test(b: u8) -> bool {
        is_in(b, Class::Space)
    }
}

// 0 to 9.
pub struct Digit;

impl ByteTest for Digit {
    ghost holds = { digit };

    fn test(b: u8) -> bool {
        is_in(b, Class::Digit)
    }
}

// 0 to 9 and a to f.
pub struct Hex;

impl ByteTest for Hex {
    ghost holds = { hex };

    fn test(b: u8) -> bool {
        is_in(b, Class::Hex)
    }
}

// A hexadecimal digit in either case.
pub struct AnyHex;

impl ByteTest for AnyHex {
    ghost holds = { any_hex };

    fn test(b: u8) -> bool {
        is_in(b, Class::AnyHex)
    }
}

// A byte of a header name.
pub struct Name;

impl ByteTest for Name {
    ghost holds = { name };

    fn test(b: u8) -> bool {
        is_in(b, Class::Name)
    }
}

// What a part of a tracestate key begins with.
pub struct LetterOrDigit;

impl ByteTest for LetterOrDigit {
    ghost holds = { letter_or_digit };

    fn test(b: u8) -> bool {
        is_in(b, Class::LetterOrDigit)
    }
}

// A byte of a part of a tracestate key.
pub struct TracestateKey;

impl ByteTest for TracestateKey {
    ghost holds = { tracestate_key };

    fn test(b: u8) -> bool {
        is_in(b, Class::TracestateKey)
    }
}

// A byte of a tracestate value.
pub struct TracestateValue;

impl ByteTest for TracestateValue {
    ghost holds = { tracestate_value };

    fn test(b: u8) -> bool {
        is_in(b, Class::TracestateValue)
    }
}

// What is replaced in a tag's key where the dd member is written.
pub struct TagKeyReplaced;

impl ByteTest for TagKeyReplaced {
    ghost holds = { tag_key_replaced };

    fn test(b: u8) -> bool {
        is_in(b, Class::TagKeyReplaced)
    }
}

// What is replaced in a tag's value or an origin where the dd member is written.
pub struct TagValueReplaced;

impl ByteTest for TagValueReplaced {
    ghost holds = { tag_value_replaced };

    fn test(b: u8) -> bool {
        is_in(b, Class::TagValueReplaced)
    }
}

// A byte of a key in the Datadog tags header.
pub struct DatadogKey;

impl ByteTest for DatadogKey {
    ghost holds = { datadog_key };

    fn test(b: u8) -> bool {
        is_in(b, Class::DatadogKey)
    }
}

// A byte of a value in the Datadog tags header.
pub struct DatadogValue;

impl ByteTest for DatadogValue {
    ghost holds = { datadog_value };

    fn test(b: u8) -> bool {
        is_in(b, Class::DatadogValue)
    }
}

// `=`, which the dd member writes as `~`.
pub struct Equals;

impl ByteTest for Equals {
    ghost holds = { equals };

    fn test(b: u8) -> bool {
        is_in(b, Class::Equals)
    }
}

// `~`, which the dd member reads as `=`.
pub struct Tilde;

impl ByteTest for Tilde {
    ghost holds = { tilde };

    fn test(b: u8) -> bool {
        is_in(b, Class::Tilde)
    }
}
