//! Writing of bytes, by writers that follow a plan.

use crate::tests::expecting::expect;
use arrayvec::ArrayVec;
use std::io;
use std::io::{ErrorKind, Write};
use typecodes::{Sink, write_all};

// What a write does.
#[derive(Clone, Copy)]
enum Step {
    // takes as many bytes as are offered, but at most this many
    Part(usize),
    Interrupted,
    Fails,
}

// A writer that follows a plan, and then takes nothing.
#[derive(Drop)]
struct Planned<'a> {
    plan: &'a [Step],
    taken: ArrayVec<u8, 9>,
}

impl Write for Planned<'_> {
    fn write(&mut self, bytes: &[u8]) -> io::Result<usize> {
        let plan = self.plan;
        let Some((step, rest)) = plan.split_first() else {
            return Ok(0);
        };
        self.plan = rest;
        match step {
            Step::Part(most) => {
                let n = bytes.len().min(*most);
                for byte in &bytes[..n] {
                    if self.taken.try_push(*byte).is_err() {
                        return Err(io::Error::from(ErrorKind::StorageFull));
                    }
                }
                Ok(n)
            }
            Step::Interrupted => Err(io::Error::from(ErrorKind::Interrupted)),
            Step::Fails => Err(io::Error::from(ErrorKind::BrokenPipe)),
        }
    }

    fn flush(&mut self) -> io::Result<()> {
        Ok(())
    }
}

// Whether writing five bytes has this answer, takes this number of them, the first ones, and leaves this part of the
// plan.
fn is_written(plan: &[Step], wanted: Result<(), ErrorKind>, taken: usize, left: usize) -> bool {
    let mut sink = Planned {
        plan,
        taken: ArrayVec::new(),
    };
    let answer = match write_all(&mut sink, b"abcde") {
        Ok(()) => Ok(()),
        Err(error) => Err(error.kind()),
    };
    answer == wanted
        && sink.taken.len() == taken
        && b"abcde".starts_with(sink.taken.as_slice())
        && sink.plan.len() == left
}

fn go_on_until_a_failure() -> bool {
    use Step::{Fails, Interrupted, Part};
    is_written(&[Part(9)], Ok(()), 5, 0)
        && is_written(&[Part(1), Part(3), Part(2), Part(1)], Ok(()), 5, 1)
        && is_written(
            &[Part(2), Part(0), Part(9)],
            Err(ErrorKind::WriteZero),
            2,
            1,
        )
        && is_written(&[], Err(ErrorKind::WriteZero), 0, 0)
        && is_written(&[Interrupted, Part(9)], Err(ErrorKind::Interrupted), 0, 1)
        && is_written(
            &[Part(4), Interrupted, Part(9)],
            Err(ErrorKind::Interrupted),
            4,
            1,
        )
        && is_written(&[Part(4), Fails], Err(ErrorKind::BrokenPipe), 4, 0)
}

#[test]
fn writes_go_on_until_a_failure(rt: HostRuntime) {
    expect(&rt, go_on_until_a_failure());
}

trait OffsetFile {
    ghost use Rattle.std.specs.Prelude.{ℕ, List};
    ghost use Rattle.std.specs.Io.{WritesAtMost};
    ghost use Rattle.typecodes.specs.Message.{ReadOutcome, read_outcome};

    ghost writes: { Self → (at : ℕ) → List ℕ → ReadOutcome → Self → Type 0 };

    fn write_at(&mut self, at: u64, bytes: &[u8]) -> io::Result<usize>
        ensures bound { WritesAtMost result bytes.now }
        ensures writes { writes self.old at bytes.now (read_outcome result bytes.now) self.new };
}

// A file from an offset on, as a sink: each write is one of the file at the next offset.
#[derive(Drop)]
struct AtOffset<'a, F> {
    file: &'a mut F,
    at: u64,
}

impl<F: OffsetFile> Sink for AtOffset<'_, F> {
    ghost use Rattle.std.specs.Prelude.{◌≡◌, ◌+◌, ◌<◌, ◌^◌, None, length};
    ghost use Rattle.typecodes.specs.Message.{size_of};

    ghost contents = { λ _. None };

    ghost transition = { λ old bytes outcome new. old.at + length bytes < 2 ^ 64
        → (new.file.ghost_name ≡ old.file.ghost_name) × (new.at ≡ old.at + size_of outcome)
        × F.writes old.file.now old.at bytes outcome new.file.now };

    fn write_from(&mut self, bytes: &[u8]) -> io::Result<usize> {
        let n = self.file.write_at(self.at, bytes)?;
        self.at = self.at.wrapping_add(n as u64);
        Ok(n)
    }
}
