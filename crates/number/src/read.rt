// Numbers read from text. A text that writes no such number reads as `None`.
ghost use Rattle.std.specs.Prelude.{◌≡◌, ◌^◌, ◌<◌, IfSome, Some, None, cond, drop};
ghost use Rattle.std.specs.Option.{option_map};
ghost use Rattle.number.specs.Numbers.{after_plus, digit_value, hex_number, mechanism, minus, number64, numeral, small, tid};

use byte_classes::sets::{AnyHex, ByteTest, Digit, Hex};

// The value of a digit of any base up to 16, and 0 for a byte that is none.
fn digit_value(b: u8) -> u8
    ensures { result ≡ digit_value b }
{
    if Digit::test(b) {
        b - b'0'
    } else if Hex::test(b) {
        b - b'a' + 10
    } else if AnyHex::test(b) {
        b - b'A' + 10
    } else {
        0
    }
}

// The one loop over digits: a reader differs from another only in the set, the base and what it lets stand around. It ends at the first
// byte that is no digit and at the first digit too many. Not std's `parse`: it wants a `str`, and the whole text would be looked through
// for that first.
fn read_digits<S: ByteTest>(s: &[u8], base: u64) -> Option<u64>
    ensures { result ≡ numeral S.ByteTest.holds base s.now }
{
    if s.is_empty() {
        return None;
    }
    let mut n: u64 = 0;
    for b in s {
        if !S::test(*b) {
            return None;
        }
        n = n
            .checked_mul(base)?
            .checked_add(u64::from(digit_value(*b)))?;
    }
    Some(n)
}

fn after_plus(s: &[u8]) -> &[u8]
    ensures { result.now ≡ after_plus s.now }
{
    match s {
        [b'+', rest @ ..] => rest,
        _ => s,
    }
}

fn after_minus(s: &[u8]) -> Option<&[u8]>
    ensures { option_map (λ x. x.now) result ≡ cond (minus s.now) (Some (drop 1 s.now)) None }
{
    match s {
        [b'-', rest @ ..] => Some(rest),
        _ => None,
    }
}

// An optional plus, then decimal digits.
pub fn read_u64(s: &[u8]) -> Option<u64>
    ensures { result ≡ number64 s.now }
{
    read_digits::<Digit>(after_plus(s), 10)
}

// An optional sign, then decimal digits.
pub fn read_i8(s: &[u8]) -> Option<i8>
    ensures { result ≡ small s.now }
{
    match after_minus(s) {
        Some(digits) => {
            let n = read_digits::<Digit>(digits, 10)?;
            // Through i16, since 128 is no i8.
            if n <= 128 {
                Some(-(n as i16) as i8)
            } else {
                None
            }
        }
        None => {
            let n = read_u64(s)?;
            if n <= 127 { Some(n as i8) } else { None }
        }
    }
}

// A minus, which is no sign, then decimal digits.
pub fn read_mechanism(s: &[u8]) -> Option<u8>
    ensures { result ≡ mechanism s.now }
{
    let n = read_digits::<Digit>(after_minus(s)?, 10)?;
    if n <= 255 { Some(n as u8) } else { None }
}

// Just so many digits, in lower case.
pub fn read_hex(s: &[u8], digits: usize) -> Option<u64>
    ensures value { result ≡ hex_number digits s.now }
    ensures below { IfSome result (λ n. n < 16 ^ digits) }
{
    if s.len() == digits {
        read_digits::<Hex>(s, 16)
    } else {
        None
    }
}

// 16 bytes: an optional plus, then hexadecimal digits in either case.
pub fn read_tid(s: &[u8]) -> Option<u64>
    ensures { result ≡ tid s.now }
{
    if s.len() == 16 {
        read_digits::<AnyHex>(after_plus(s), 16)
    } else {
        None
    }
}
