//! A message of any length, hashed piece by piece.

ghost use Rattle.std.specs.Prelude.{OnErr, OnOk};
ghost use Rattle.winternitz.specs.Hasher.{HoldsBytes};
ghost use Rattle.typecodes.specs.Message.{CantBeRead, Feeds};

use crate::hasher::Hasher;
use std::convert::Infallible;
use typecodes::{Message, MessageFailed, PieceTaker, read_to_end};

// A hasher that takes the pieces of a message.
#[derive(Drop)]
struct Hashing<'a> {
    hasher: &'a mut Hasher,
}

impl PieceTaker for Hashing<'_> {
    ghost use Rattle.std.specs.Prelude.{◌≡◌};
    ghost use Rattle.std.proofs.Common.{refl, ◌∙◌};
    ghost use Rattle.winternitz.specs.inner.Feeding.{HasherTakes};
    ghost use Rattle.winternitz.specs.inner.Feeding.{takes_more_bytes, takes_no_bytes};

    type Error = Infallible;

    ghost takes = { λ old bytes new. (new.hasher.ghost_name ≡ old.hasher.ghost_name)
        × HasherTakes old.hasher.now bytes new.hasher.now };

    ghost refuses = { λ _ _ _ _. ⊥ };

    fn take_piece(&mut self, piece: &[u8]) -> Result<(), Infallible> {
        self.hasher.update(piece);
        Ok(())
    }

    ghost takes_nothing = { λ state. (refl, takes_no_bytes state.hasher.now) };

    ghost takes_more = { λ old middle new first later one more. (
      more.0 ∙ one.0,
      takes_more_bytes old.hasher.now middle.hasher.now new.hasher.now first later one.1 more.1,
    ) };
}

/// Reads a message to its end and updates the hasher with each piece. `Err` if the message can't be read.
pub fn feed<M: Message>(hasher: &mut Hasher, message: &mut M) -> Result<(), MessageFailed>
    ensures ok { OnOk result (Feeds M.transition M.remaining HoldsBytes hasher.old hasher.new message.old message.new) }
    ensures err { OnErr result (CantBeRead M.transition message.old message.new) }
{
    let mut hashing = Hashing { hasher };
    let answer = read_to_end(message, &mut hashing);
    let Hashing { hasher } = hashing;
    // For the prover: this use tells what was hashed.
    let _ = &*hasher;
    answer.map_err(|_| MessageFailed)
}
