//! Reading of messages, by readers that follow a plan.

use crate::tests::expecting::expect;
use std::io;
use std::io::{ErrorKind, Read};
use typecodes::{Message, PIECE, PieceTaker, ReadError, read_full, read_to_end};

// What a read does.
#[derive(Clone, Copy)]
enum Step {
    // gives as many bytes as fit, but at most this many
    Part(usize),
    // says that it gave this many, and writes none
    Claimed(usize),
    Interrupted,
    Fails,
}

// A reader that follows a plan, and then ends. Its bytes are 1, 2, 3 and so on.
#[derive(Drop)]
struct Planned<'a> {
    plan: &'a [Step],
    given: u8,
}

impl Read for Planned<'_> {
    fn read(&mut self, buffer: &mut [u8]) -> io::Result<usize> {
        let plan = self.plan;
        let Some((step, rest)) = plan.split_first() else {
            return Ok(0);
        };
        self.plan = rest;
        match step {
            Step::Part(most) => {
                let n = buffer.len().min(*most);
                for byte in &mut buffer[..n] {
                    self.given = self.given.wrapping_add(1);
                    *byte = self.given;
                }
                Ok(n)
            }
            Step::Claimed(most) => Ok(buffer.len().min(*most)),
            Step::Interrupted => Err(io::Error::from(ErrorKind::Interrupted)),
            Step::Fails => Err(io::Error::from(ErrorKind::BrokenPipe)),
        }
    }
}

// Whether filling five bytes has this answer, buffer and rest of the plan.
fn is_filled(plan: &[Step], wanted: Result<usize, ErrorKind>, bytes: [u8; 5], left: usize) -> bool {
    let mut message = Planned { plan, given: 0 };
    let mut buffer = [0; 5];
    let answer = match read_full(&mut message, &mut buffer) {
        Ok(n) => Ok(n),
        Err(error) => Err(error.kind()),
    };
    answer == wanted && buffer == bytes && message.plan.len() == left
}

// Reading goes on after a part, and stops once the buffer is full. The number that a read answers counts, even where it
// wrote nothing. Any error is answered at once, and is no end.
fn go_on_until_a_failure() -> bool {
    use Step::{Claimed, Fails, Interrupted, Part};
    const INTERRUPTED: Result<usize, ErrorKind> = Err(ErrorKind::Interrupted);
    const BROKEN: Result<usize, ErrorKind> = Err(ErrorKind::BrokenPipe);
    is_filled(&[Part(9)], Ok(5), [1, 2, 3, 4, 5], 0)
        && is_filled(&[Part(2), Part(3), Interrupted], Ok(5), [1, 2, 3, 4, 5], 1)
        && is_filled(&[Part(3), Part(0), Part(2)], Ok(3), [1, 2, 3, 0, 0], 1)
        && is_filled(&[], Ok(0), [0; 5], 0)
        && is_filled(&[Claimed(9)], Ok(5), [0; 5], 0)
        && is_filled(&[Part(2), Claimed(2), Part(9)], Ok(5), [1, 2, 0, 0, 3], 0)
        && is_filled(&[Interrupted, Part(9)], INTERRUPTED, [0; 5], 1)
        && is_filled(
            &[Part(3), Interrupted, Part(2)],
            INTERRUPTED,
            [1, 2, 3, 0, 0],
            1,
        )
        && is_filled(&[Fails, Part(5)], BROKEN, [0; 5], 1)
        && is_filled(&[Part(3), Part(1), Fails], BROKEN, [1, 2, 3, 4, 0], 0)
}

#[test]
fn reads_go_on_until_a_failure(rt: HostRuntime) {
    expect(&rt, go_on_until_a_failure());
}

// Counts pieces and their bytes, and refuses a piece after this many.
#[derive(Drop)]
struct Tally {
    pieces: u32,
    bytes: usize,
    most: u32,
}

impl PieceTaker for Tally {
    ghost use Rattle.std.specs.Prelude.{⊤};

    type Error = u32;

    ghost takes = { λ _ _ _. ⊤ };

    ghost refuses = { λ _ _ _ _. ⊤ };

    fn take_piece(&mut self, piece: &[u8]) -> Result<(), u32> {
        if self.pieces >= self.most {
            return Err(self.pieces);
        }
        self.pieces = self.pieces.wrapping_add(1);
        self.bytes = self.bytes.wrapping_add(piece.len());
        Ok(())
    }

    ghost takes_nothing = { λ _. tt };

    ghost takes_more = { λ _ _ _ _ _ _ _. tt };
}

// How the reading of a whole message ended, where so few pieces are taken.
#[derive(Drop, PartialEq)]
enum End {
    Read,
    Failed(ErrorKind),
    TooLong,
    Refused(u32),
}

// Whether the reading ends so, and this number of pieces and bytes is taken.
fn is_read(plan: &[Step], most: u32, wanted: End, pieces: u32, bytes: usize) -> bool {
    let mut message = Planned { plan, given: 0 };
    let mut tally = Tally {
        pieces: 0,
        bytes: 0,
        most,
    };
    let end = match read_to_end(&mut message, &mut tally) {
        Ok(()) => End::Read,
        Err(ReadError::Failed(error)) => End::Failed(error.kind()),
        Err(ReadError::TooLong) => End::TooLong,
        Err(ReadError::Refused(pieces)) => End::Refused(pieces),
    };
    end == wanted && tally.pieces == pieces && tally.bytes == bytes
}

fn are_read() -> bool {
    use Step::{Claimed, Fails, Interrupted, Part};
    const LONG: &[Step] = &[Part(1), Claimed(PIECE), Claimed(PIECE), Part(2)];
    is_read(&[], 1, End::Read, 1, 0)
        && is_read(&[Part(5), Part(3)], 1, End::Read, 1, 8)
        && is_read(&[Claimed(PIECE)], 2, End::Read, 2, PIECE)
        && is_read(LONG, 9, End::Read, 3, 2 * PIECE + 2)
        && is_read(
            &[Part(1), Interrupted, Part(1)],
            9,
            End::Failed(ErrorKind::Interrupted),
            0,
            0,
        )
        && is_read(
            &[Claimed(PIECE), Part(1), Fails],
            9,
            End::Failed(ErrorKind::BrokenPipe),
            1,
            PIECE,
        )
        && is_read(&[Claimed(PIECE), Part(1)], 1, End::Refused(1), 1, PIECE)
        && is_read(&[], 0, End::Refused(0), 0, 0)
}

#[test]
fn messages_are_read_to_their_end(rt: HostRuntime) {
    expect(&rt, are_read());
}

trait OffsetFile {
    ghost use Rattle.std.specs.Prelude.{ℕ, length};
    ghost use Rattle.std.specs.Io.{ReadsAtMost};
    ghost use Rattle.typecodes.specs.Message.{ReadOutcome, read_outcome};

    // what a read of up to `room` bytes at an offset does
    ghost reads: { Self → (at room : ℕ) → ReadOutcome → Self → Type 0 };

    fn read_at(&mut self, at: u64, into: &mut [u8]) -> io::Result<usize>
        ensures bound { ReadsAtMost result into.new }
        ensures reads { reads self.old at (length into.old) (read_outcome result into.new) self.new };
}

// The rest of a file from an offset on, as a message: each read is one of the file at the next offset.
#[derive(Drop)]
struct AtOffset<'a, F> {
    file: &'a mut F,
    at: u64,
}

impl<F: OffsetFile> Message for AtOffset<'_, F> {
    ghost use Rattle.std.specs.Prelude.{◌≡◌, ◌+◌, ◌<◌, ◌^◌, None};
    ghost use Rattle.typecodes.specs.Message.{size_of};

    ghost remaining = { λ _. None };

    ghost request = { λ old room outcome new. old.at + room < 2 ^ 64 → (new.file.ghost_name ≡ old.file.ghost_name)
        × (new.at ≡ old.at + size_of outcome) × F.reads old.file.now old.at room outcome new.file.now };

    fn read_into(&mut self, buffer: &mut [u8]) -> io::Result<usize> {
        let n = self.file.read_at(self.at, buffer)?;
        self.at = self.at.wrapping_add(n as u64);
        Ok(n)
    }
}
