//! Writers, which take a part of the bytes at a time.

ghost use Rattle.std.specs.Prelude.{List, ℕ, ⊤};
ghost use Rattle.std.specs.Io.{WritesAtMost};
ghost use Rattle.std.specs.Io.KnownBytes.{WriteAppends};
ghost use Rattle.std.specs.declared.option.Option.{Option};
ghost use Rattle.typecodes.specs.Message.{ReadOutcome, read_outcome};
ghost use Rattle.typecodes.specs.Sink.{WritesAll};

use std::io;
use std::io::{ErrorKind, Write};

/// Any writer.
pub trait Sink {
    // the bytes that it holds, if known
    ghost contents: { Self → Option (List ℕ) };

    // what a write of these bytes does, if known: (state before, bytes, outcome, state after)
    ghost transition: { Self → List ℕ → ReadOutcome → Self → Type 0 } = { λ _ _ _ _. ⊤ };

    /// Writes some of the first bytes, as `Write::write` does.
    fn write_from(&mut self, bytes: &[u8]) -> io::Result<usize>
        ensures bound { WritesAtMost result bytes.now }
        ensures bytes { WriteAppends (contents self.old) (contents self.new) result bytes.now }
        ensures transition { transition self.old bytes.now (read_outcome result bytes.now) self.new };
}

impl<W: Write> Sink for W {
    ghost contents = { W.contents };

    fn write_from(&mut self, bytes: &[u8]) -> io::Result<usize> {
        self.write(bytes)
    }
}

/// Writes all bytes. The first failing write is the answer, even an interrupted one; a write that takes nothing is
/// `WriteZero`. Each write is offered the rest. At an `Err` the bytes before that write were written, and no others.
pub fn write_all<S: Sink>(sink: &mut S, bytes: &[u8]) -> io::Result<()>
    ensures { WritesAll S.transition S.contents result bytes.now sink.old sink.new }
{
    let mut done = 0;
    while done < bytes.len() {
        let n = sink.write_from(&bytes[done..])?;
        if n == 0 {
            return Err(io::Error::from(ErrorKind::WriteZero));
        }
        done += n;
    }
    Ok(())
}
