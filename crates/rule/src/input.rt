// Lines of any length: a line that a ruler can be asked with has at most 63 bytes (`accepted-short` of line/proofs/Exact), so that 64 are
// enough to tell that one is longer.
ghost use Rattle.std.specs.Prelude.{◌≤◌};
ghost use Rattle.memchr.specs.Find.{IsFirstByte, is_byte};

use memchr::memchr;

// Where the line ends that the bytes begin with: at the first newline, if there is one.
pub(crate) fn line_end(bytes: &[u8]) -> Option<usize>
    ensures { IsFirstByte (is_byte 10) bytes.now result }
{
    memchr(b'\n', bytes)
}

// The start of a line that has not ended, at the start of the bytes.
// Kept: bytes with a count. The kit's `ArrayVec` refuses a part that does not fit: `push` would still cut it, and meet an error that cannot be.
#[derive(Drop)]
pub(crate) struct Held {
    bytes: [u8; 64],
    len: usize,
    ghost within: { len ≤ 64 },
}

impl Held {
    pub(crate) fn new() -> Held {
        Held {
            bytes: [0; 64],
            len: 0,
        }
    }

    pub(crate) fn is_empty(&self) -> bool {
        self.len == 0
    }

    pub(crate) fn as_slice(&self) -> &[u8] {
        &self.bytes[..self.len]
    }

    // Takes as much of the part as there is room for.
    pub(crate) fn push(&mut self, part: &[u8]) {
        let n = part.len().min(self.bytes.len() - self.len);
        let end = self.len + n;
        self.bytes[self.len..end].copy_from_slice(&part[..n]);
        self.len = end;
    }

    pub(crate) fn clear(&mut self) {
        self.len = 0;
    }
}
