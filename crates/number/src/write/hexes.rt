// Hexadecimal text, in lower case.
ghost use Rattle.std.specs.Prelude.{◌≡◌, ◌<◌, length};
ghost use Rattle.number.specs.Numbers.{glyph, hex_text};

// By hand: `char::from_digit` answers an Option of a `char`, and a byte is wanted.
fn hex_digit(d: u8) -> u8
    requires { d < 16 }
    ensures { result ≡ glyph d }
{
    if d < 10 { b'0' + d } else { b'a' + (d - 10) }
}

// Fills the bytes with the last digits of the number, as many as there are bytes.
pub fn fill_hex(out: &mut [u8], n: u64)
    ensures { out.new ≡ hex_text (length out.old) n }
{
    let mut rest = n;
    // By index: tried over `iter_mut().rev()`, whose clauses do not say what the bytes then are.
    for at in (0..out.len()).rev() {
        out[at] = hex_digit((rest % 16) as u8);
        rest /= 16;
    }
}

// The last N digits of the number.
pub fn hex_text<const N: usize>(n: u64) -> [u8; N]
    ensures { result ≡ hex_text N n }
{
    let mut out = [0; N];
    fill_hex(&mut out, n);
    out
}
