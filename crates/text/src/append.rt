// A text that is put together piece by piece in a buffer.
ghost use Rattle.std.specs.Prelude.{◌≡◌, ◌+◌, length};
ghost use Rattle.text.specs.Appends.{fitting, placed};

// Writes the piece at that place, or as much of it as there is room for, and says where it ends.
pub fn append(buf: &mut [u8], at: usize, piece: &[u8]) -> usize
    ensures end { result ≡ at + length (fitting buf.old at piece.now) }
    ensures bytes { buf.new ≡ placed buf.old at (fitting buf.old at piece.now) }
{
    if at >= buf.len() {
        return at;
    }
    let n = piece.len().min(buf.len() - at);
    let end = at + n;
    buf[at..end].copy_from_slice(&piece[0..n]);
    end
}
