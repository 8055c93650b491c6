// Texts of any bytes, in quotes. A byte stands for itself if it is printable and neither a quote nor a backslash; any byte is `\x` and two digits.
ghost use Rattle.std.specs.Prelude.{length};
ghost use Rattle.std.specs.Iterator.{at_most};

use crate::faults::LineFault;
use number::read::read_hex;
use number::write::hex_text;
use std::alloc::{AllocError, Global};
use text::split::split_once;
use text::take::take_char;

fn is_plain(b: u8) -> bool {
    matches!(b, b' '..=b'~') && !matches!(b, b'"' | b'\\')
}

// Shows the text, so that it can be given again. As bytes: show.rt says why.
pub(crate) fn quote(out: &mut Vec<u8>, text: &[u8]) -> Result<(), AllocError> {
    out.push(b'"')?;
    for b in text {
        if is_plain(*b) {
            out.push(*b)?;
        } else {
            out.extend_from_slice(b"\\x")?;
            out.extend_from_slice(&hex_text::<2>(u64::from(*b)))?;
        }
    }
    out.push(b'"')?;
    Ok(())
}

fn hex_byte(digits: &[u8]) -> Option<u8> {
    u8::try_from(read_hex(digits, 2)?).ok()
}

// The bytes that the inside of a quoted text stands for.
#[derive(Drop)]
struct Unescaped<'a> {
    rest: &'a [u8],
}

impl Iterator for Unescaped<'_> {
    type Item = Result<u8, LineFault>;

    ghost remaining = { λ s. at_most (length s.rest.now) };

    fn next(&mut self) -> Option<Result<u8, LineFault>> {
        let (byte, rest) = match self.rest {
            [] => return None,
            [b'\\', b'x', a, b, rest @ ..] => (hex_byte(&[*a, *b]), rest),
            [b, rest @ ..] => (is_plain(*b).then_some(*b), rest),
        };
        self.rest = rest;
        Some(byte.ok_or(LineFault::Unreadable))
    }
}

// The bytes between the quotes of a word.
pub(crate) fn unquote(heap: Global, word: &[u8]) -> Result<Vec<u8>, LineFault> {
    let rest = take_char(word, b'"').ok_or(LineFault::Unreadable)?;
    match split_once(rest, b'"') {
        Some((inside, [])) => Unescaped { rest: inside }.try_collect(heap),
        _ => Err(LineFault::Unreadable),
    }
}
