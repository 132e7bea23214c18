//! Messages, which are read in pieces and never kept whole.

ghost use Rattle.std.specs.Prelude.{◌<◌, ℕ, List, ⊤, length};
ghost use Rattle.std.specs.Io.{ReadsAtMost};
ghost use Rattle.std.specs.Io.KnownBytes.{ReadConsumes};
ghost use Rattle.std.specs.declared.option.Option.{Option};
ghost use Rattle.typecodes.specs.Message.{ReadOutcome, read_outcome};

use std::io;
use std::io::{ErrorKind, Read};
use thiserror::Error;

/// A message: any reader.
///
/// `remaining` says which bytes the reader will give, if that is known; verification then judges these. `transition`
/// says what each read does, as the program's reader knows. Then the text that the reads gave is judged, and 14 comes
/// only if the last read failed, or after 2^60 bytes. Of a reader that says neither the contracts speak of some text;
/// that it is the reader's is only tested.
pub trait Message {
    // the bytes that later reads will give, if known
    ghost remaining: { Self → Option (List ℕ) };

    // what a read does to the message, if known: (state before, outcome, state after)
    ghost transition: { Self → ReadOutcome → Self → Type 0 } = { λ _ _ _. ⊤ };

    // as `transition`, with the number of bytes that the read asks for
    ghost request: { Self → ℕ → ReadOutcome → Self → Type 0 } = { λ _ _ _ _. ⊤ };

    /// Reads into the buffer, as `Read::read` does. The buffer isn't empty, so that no bytes mean the end.
    fn read_into(&mut self, buffer: &mut [u8]) -> io::Result<usize>
        requires { 0 < length buffer.old }
        ensures bound { ReadsAtMost result buffer.new }
        ensures bytes { ReadConsumes (remaining self.old) (remaining self.new) result buffer.new }
        ensures transition { transition self.old (read_outcome result buffer.new) self.new }
        ensures request { request self.old (length buffer.old) (read_outcome result buffer.new) self.new };
}

impl<R: Read> Message for R {
    ghost remaining = { R.remaining };

    fn read_into(&mut self, buffer: &mut [u8]) -> io::Result<usize> {
        self.read(buffer)
    }
}

/// The message can't be read: a read failed, even if only interrupted, or 2^60 bytes came.
#[derive(Clone, Copy, Debug, PartialEq, Eq, Error)]
#[error("the message can't be read")]
pub struct MessageFailed;

/// The next bytes of an input, as a message of a known length. A read fails with `UnexpectedEof` where the input ends
/// before the message does.
///
/// Each read is one read of the input, until no byte is left. A failed read leaves `left` as it was. Which bytes will
/// come isn't known.
#[derive(Drop)]
pub struct NextBytes<'a, I> {
    /// The input.
    pub input: &'a mut I,
    /// How many bytes of the message are still to come.
    pub left: u32,
}

impl<I: Message> Message for NextBytes<'_, I> {
    ghost use Rattle.std.specs.Prelude.{◌≡◌, None};
    ghost use Rattle.typecodes.specs.Message.{ReadsPart};

    ghost remaining = { λ _. None };

    ghost transition = { λ old outcome new. (new.input.ghost_name ≡ old.input.ghost_name)
        × ReadsPart I.transition I.remaining old.left old.input.now outcome new.left new.input.now };

    fn read_into(&mut self, buffer: &mut [u8]) -> io::Result<usize> {
        if self.left == 0 {
            return Ok(0);
        }
        let most = buffer.len().min(self.left as usize);
        let n = self.input.read_into(&mut buffer[..most])?;
        if n == 0 {
            return Err(io::Error::from(ErrorKind::UnexpectedEof));
        }
        self.left -= n as u32;
        Ok(n)
    }
}
