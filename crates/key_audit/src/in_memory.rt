//! Messages in memory, as readers that are known to give nothing else.

ghost use Rattle.std.specs.Prelude.{Some};
ghost use Rattle.key_audit.specs.inner.InMemory.{GivesNext};

use std::io;
use typecodes::Message;

/// A message in memory; `rest` is still unread.
#[derive(Clone, Copy)]
pub(crate) struct InMemory<'a> {
    pub(crate) rest: &'a [u8],
}

impl Message for InMemory<'_> {
    ghost remaining = { λ message. Some message.rest.now };

    ghost transition = { GivesNext };

    fn read_into(&mut self, buffer: &mut [u8]) -> io::Result<usize> {
        let count = self.rest.len().min(buffer.len());
        let (bytes, rest) = self.rest.split_at(count);
        buffer[..count].copy_from_slice(bytes);
        self.rest = rest;
        Ok(count)
    }
}
