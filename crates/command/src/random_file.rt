//! The file of random bytes, as a source of draws.

ghost use Rattle.std.specs.Prelude.{◌≡◌, []};
ghost use Rattle.typecodes.specs.Message.{GivesText};
ghost use Rattle.command.specs.inner.RandomFile.{Draws};

use crate::trace::{Role, Trace};
use rand_core::TryRng;
use sign_core::SourceFault;
use std::io;
use std::io::Read;
use typecodes::{Message, read_full};

/// The default file of random bytes: the system's random device.
pub const DEFAULT_RANDOM: &str = "/dev/urandom";

/// A file of random bytes. It gives each byte once, in order; a draw past its end fails.
#[derive(Drop)]
pub struct RandomFile<F> {
    file: F,
    trace: Trace,
}

impl<F: Read> RandomFile<F> {
    ghost use Rattle.command.specs.RandomFile.{random_file, random_trace};

    /// Over this file; nothing was read yet.
    pub fn new(file: F) -> Self
        ensures file { random_file result ≡ file }
        ensures trace { random_trace result ≡ [] }
    {
        RandomFile {
            file,
            trace: Trace::new(),
        }
    }
}

impl<F: Read> Message for RandomFile<F> {
    ghost use Rattle.command.specs.RandomFile.{ReadsRandom, random_file};

    ghost remaining = { λ random. F.remaining (random_file random) };

    ghost transition = { ReadsRandom };

    fn read_into(&mut self, buffer: &mut [u8]) -> io::Result<usize> {
        let answer = self.file.read(buffer);
        self.trace.note_read(Role::Random, answer, buffer)
    }
}

impl<F: Read> TryRng for RandomFile<F> {
    ghost use Rattle.std.specs.Int.{w32, w64};
    ghost use Rattle.command.specs.RandomFile.{GivesNumber, ReadsRandom};

    type Error = SourceFault;

    ghost may_next_u32 = { GivesNumber 4 w32 ReadsRandom };

    ghost may_next_u64 = { GivesNumber 8 w64 ReadsRandom };

    // These bytes were read, and no others.
    ghost may_fill = { λ old bytes new. GivesText ReadsRandom bytes old new };

    fn try_next_u32(&mut self) -> Result<u32, SourceFault> {
        let mut bytes = [0; 4];
        draw(self, &mut bytes)?;
        Ok(u32::from_le_bytes(bytes))
    }

    fn try_next_u64(&mut self) -> Result<u64, SourceFault> {
        let mut bytes = [0; 8];
        draw(self, &mut bytes)?;
        Ok(u64::from_le_bytes(bytes))
    }

    fn try_fill_bytes(&mut self, dst: &mut [u8]) -> Result<(), SourceFault> {
        draw(self, dst)
    }
}

// Fails where the file ends before the buffer is full.
fn draw<M: Message>(file: &mut M, into: &mut [u8]) -> Result<(), SourceFault>
    ensures { Draws M.transition into.new result file.old file.new }
{
    match read_full(file, into) {
        Ok(n) => if n < into.len() {
            Err(SourceFault)
        } else {
            Ok(())
        },
        Err(_) => Err(SourceFault),
    }
}
