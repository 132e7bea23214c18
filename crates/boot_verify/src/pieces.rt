//! Messages in pieces: what C keeps of one, and the bytes that are hashed before it.

ghost use Rattle.std.specs.Prelude.{◌≡◌, ◌↔◌, ◌≤◌, IfErr, IfOk, IsTrue, take};
ghost use Rattle.boot_verify.specs.Answer.{IsPrefix, RefusesEarly};
ghost use Rattle.boot_verify.specs.Pieces.{held_prefix};

use crate::answer::answer_of;
use crate::key::Key;
use crate::sha256::Hashing;

/// What C keeps of a message that comes in pieces.
#[repr(C)]
#[derive(Clone, Copy)]
pub struct Pieces {
    /// The hash of the prefix and of the message so far.
    pub hashing: Hashing,
    /// The bytes that are hashed before the message, at the front.
    pub prefix: [u8; 128],
    /// How many they are: 54 or 128, or 0 where no message is begun.
    pub prefix_length: u64,
}

impl Pieces {
    // Whether the prefix is that at the front of `room`.
    pub(crate) fn has_prefix(&self, room: &[u8; 128], count: u32) -> bool
        requires { count ≤ 128 }
        ensures { IsTrue result ↔ ((self.now.prefix_length ≡ count) × (held_prefix self.now ≡ take count room.now)) }
    {
        if self.prefix_length != u64::from(count) {
            return false;
        }
        // Arrays are compared by less code than slices.
        let mut padded = *room;
        padded[count as usize..].copy_from_slice(&self.prefix[count as usize..]);
        padded == self.prefix
    }
}

/// Writes what is hashed before a message to the front of `room`, and returns its length. `Err` is the answer for C:
/// the refusal that every message has.
pub(crate) fn prefix_of(public: &[u8], signature: &[u8], room: &mut [u8; 128]) -> Result<u32, u64>
    ensures ok { IfOk result (λ n. IsPrefix public.now signature.now n (take n room.new)) }
    ensures most { IfOk result (λ n. n ≤ 128) }
    ensures err { IfErr result (RefusesEarly public.now signature.now) }
{
    match Key::read(public) {
        Ok(key) => match key.message_prefix(signature, room) {
            Ok(count) => Ok(count),
            Err(refusal) => Err(answer_of(Err(refusal))),
        },
        Err(refusal) => Err(refusal),
    }
}
