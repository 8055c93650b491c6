// A short text that lies in the value itself.
ghost use Rattle.std.specs.Prelude.{◌≡◌, ◌≤◌, [], length};
ghost use Rattle.text.specs.Inlines.{text_of, push_answer, after_push};

// There is no room left for a piece.
#[derive(Clone, Copy, PartialEq, Eq, Debug)]
pub struct NoRoom;

// A text of at most N bytes. Bytes past the length do not count. No ghost field bounds the length: the checker covers no type
// argument that holds one beside a lent memory, so a layer over a lent block could stand in no `Result`. The kit's `ArrayVec` has such an
// invariant, and is no `Copy`.
#[derive(Clone, Copy)]
pub struct Inline<const N: usize> {
    bytes: [u8; N],
    len: usize,
}

impl<const N: usize> Inline<N> {
    pub fn new() -> Inline<N>
        ensures { text_of result ≡ [] }
    {
        Inline {
            bytes: [0; N],
            len: 0,
        }
    }

    pub fn as_slice(&self) -> &[u8]
        ensures is { result.now ≡ text_of self.now }
        ensures short { length result.now ≤ N }
    {
        let bytes = &self.bytes[..];
        &bytes[..self.len.min(N)]
    }

    // Adds the piece at the end. A refusal alters nothing.
    pub fn push(&mut self, piece: &[u8]) -> Result<(), NoRoom>
        ensures answer { result ≡ push_answer N (text_of self.old) piece.now }
        ensures after { text_of self.new ≡ after_push N (text_of self.old) piece.now }
    {
        let at = self.len.min(N);
        if piece.len() > N - at {
            return Err(NoRoom);
        }
        let end = at + piece.len();
        let bytes = &mut self.bytes[..];
        bytes[at..end].copy_from_slice(piece);
        self.len = end;
        Ok(())
    }

    pub fn clear(&mut self)
        ensures { text_of self.new ≡ [] }
    {
        self.len = 0;
    }
}
