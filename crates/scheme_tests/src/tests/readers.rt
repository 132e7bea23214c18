//! What the tests of LMS, HSS and XMSS share: messages in pieces or that fail, and where a signature is cut.

use std::io;
use std::io::Read;

/// A message in pieces of this size. Its first read may be interrupted.
#[derive(Drop)]
pub(crate) struct Pieces<'a> {
    pub(crate) left: &'a [u8],
    size: usize,
    pub(crate) is_interrupted: bool,
}

impl Read for Pieces<'_> {
    fn read(&mut self, buffer: &mut [u8]) -> io::Result<usize> {
        if self.is_interrupted {
            self.is_interrupted = false;
            return Err(io::Error::from(io::ErrorKind::Interrupted));
        }
        let n = self.size.min(buffer.len()).min(self.left.len());
        let (piece, left) = self.left.split_at(n);
        buffer[..n].copy_from_slice(piece);
        self.left = left;
        Ok(n)
    }
}

/// Such a message, whose reads aren't interrupted.
pub(crate) const fn in_pieces(text: &[u8], size: usize) -> Pieces<'_> {
    Pieces {
        left: text,
        size,
        is_interrupted: false,
    }
}

/// Gives this many zeros, and then fails.
#[derive(Drop)]
pub(crate) struct Failing {
    pub(crate) left: usize,
}

impl Read for Failing {
    fn read(&mut self, buffer: &mut [u8]) -> io::Result<usize> {
        let n = self.left.min(buffer.len());
        if n == 0 {
            return Err(io::Error::from(io::ErrorKind::BrokenPipe));
        }
        buffer[..n].fill(0);
        self.left -= n;
        Ok(n)
    }
}

/// The offset of the field that is cut where bytes end at `end`. `fields` are runs of fields of one size: offset of the
/// run, and the size.
pub(crate) fn cut_field(fields: &[(u32, u32)], end: u32) -> u32 {
    let mut place = 0;
    for (start, size) in fields {
        if *start <= end {
            place = end - (end - *start) % (*size).max(1);
        }
    }
    place
}
