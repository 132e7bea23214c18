//! Reading until a buffer is full, and reading to the end.

ghost use Rattle.std.specs.Prelude.{◌≤◌, ◌++◌, [], List, ℕ, length, IfOk};
ghost use Rattle.typecodes.specs.Message.{Discards};
ghost use Rattle.typecodes.specs.Reading.{ReadsFull, ReadsToEnd, RequestsFull, TakesPiece};

use crate::message::{Message, MessageFailed};
use std::convert::Infallible;
use std::io;
use thiserror::Error;

/// The bytes read at a time: 16 KiB.
pub const PIECE: usize = 1 << 14;

/// The most pieces of a message. After that many full ones, 2^60 bytes, it counts as failed.
pub const PIECES: u64 = 1 << 46;

/// Reads until the buffer is full or the message ends, and returns the number of bytes. The first failing read is the
/// answer, even an interrupted one; the bytes before it are in the buffer. Each read asks for the rest of the buffer,
/// and each but the last gives at least one byte.
pub fn read_full<M: Message>(message: &mut M, buffer: &mut [u8]) -> io::Result<usize>
    ensures within { IfOk result (λ n. n ≤ length buffer.new) }
    ensures reads { ReadsFull M.transition M.remaining result buffer.new message.old message.new }
    ensures requests { RequestsFull M.request result buffer.new message.old message.new }
{
    let mut at = 0;
    while at < buffer.len() {
        let n = message.read_into(&mut buffer[at..])?;
        if n == 0 {
            return Ok(at);
        }
        at += n;
    }
    Ok(at)
}

/// Takes the bytes of a message, piece by piece.
pub trait PieceTaker {
    /// Why a piece is refused.
    type Error;

    // taking these bytes: (state before, bytes, state after)
    ghost takes: { Self → List ℕ → Self → Type 0 };

    // refusing this piece with this error: (state before, piece, error, state after)
    ghost refuses: { Self → List ℕ → Self.Error → Self → Type 0 };

    /// Takes the next bytes.
    fn take_piece(&mut self, piece: &[u8]) -> Result<(), Self::Error>
        ensures { TakesPiece takes refuses result piece.now self.old self.new };

    // taking no bytes leaves each state as it is
    ghost takes_nothing: { (state : Self) → takes state [] state };

    // taking bytes and then others is taking both together
    ghost takes_more: { (old middle new : Self) (first later : List ℕ) → takes old first middle
        → takes middle later new → takes old (first ++ later) new };
}

/// Why a message wasn't read to its end.
#[derive(Debug, Drop, Error)]
pub enum ReadError<E> {
    /// A read failed.
    #[error("a read failed")]
    Failed(io::Error),
    /// It gave 2^60 bytes.
    #[error("the message is too long")]
    TooLong,
    /// The taker refused a piece.
    #[error("a piece was refused")]
    Refused(E),
}

/// Reads a message to its end and hands on each piece. The first failing read is the answer, even an interrupted one.
///
/// - `Ok`: the whole text was taken, fewer than 2^60 bytes.
/// - `Failed`: what came before the failed read was taken, except for less than one piece.
/// - `TooLong`: 2^60 bytes were taken.
/// - `Refused`: the pieces before the refused one were taken.
pub fn read_to_end<M: Message, T: PieceTaker>(
    message: &mut M,
    taker: &mut T,
) -> Result<(), ReadError<T::Error>>
    ensures { ReadsToEnd M.transition M.remaining T.takes T.refuses result message.old message.new taker.old taker.new }
{
    let mut piece = [0; PIECE];
    for turn in 0..PIECES {
        let n = match read_full(message, &mut piece) {
            Ok(n) => n,
            Err(error) => return Err(ReadError::Failed(error)),
        };
        if let Err(error) = taker.take_piece(&piece[..n]) {
            return Err(ReadError::Refused(error));
        }
        if n < PIECE {
            return Ok(());
        }
    }
    Err(ReadError::TooLong)
}

// Takes each piece, and keeps none.
#[derive(Drop)]
struct KeepNone;

impl PieceTaker for KeepNone {
    ghost use Rattle.std.specs.Prelude.{⊤};

    type Error = Infallible;

    ghost takes = { λ _ _ _. ⊤ };

    ghost refuses = { λ _ _ _ _. ⊥ };

    fn take_piece(&mut self, piece: &[u8]) -> Result<(), Infallible> {
        Ok(())
    }

    ghost takes_nothing = { λ _. tt };

    ghost takes_more = { λ _ _ _ _ _ _ _. tt };
}

/// Reads a message to its end, and discards it. It is refused where a read fails, even if only interrupted, or after
/// 2^60 bytes; the message has been read up to there.
pub fn discard<M: Message>(message: &mut M) -> Result<(), MessageFailed>
    ensures { Discards M.transition M.remaining result message.old message.new }
{
    read_to_end(message, &mut KeepNone).map_err(|_| MessageFailed)
}
