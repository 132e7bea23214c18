//! The signature of a level above the bottom with the key that it signs, as a view of their bytes.

ghost use Rattle.std.specs.Prelude.{◌≡◌, ◌≢◌, ◌+◌, ◌<◌, ◌≤◌, ◌^◌, Ok, Err, IfOk, OnOk, drop, length, take};
ghost use Rattle.lms.specs.Key.{public_key as lms_public_key};
ghost use Rattle.typecodes.specs.Cursor.{Gives, KeepsCursor, read};
ghost use Rattle.lms.specs.Writing.{public_bytes};
ghost use Rattle.lms.specs.Verification.{LevelVerdict};
ghost use Rattle.lms.specs.View.{signature_of as lms_signature_of};

use lmots::Climbing;
use lms::{LmsPublic, LmsSigView};
use typecodes::{Cursor, ReadFault, Refusal};

/// The signature of a level above the bottom, and the next level's public key, which it signs (RFC 8554 6.2).
#[derive(Clone, Copy, Debug)]
pub(crate) struct SignedKeyView<'a> {
    /// The level's signature.
    pub(crate) signature: LmsSigView<'a>,
    /// The next level's public key.
    pub(crate) key: LmsPublic,
    /// The key's 56 bytes, which follow the signature: the message that the level signs.
    pub(crate) key_bytes: &'a [u8],
    ghost spelled: { key_bytes.now ≡ public_bytes key },
}

impl<'a> SignedKeyView<'a> {
    ghost use Rattle.hss.specs.SignedKey.{BeginsAt, signed_key, signed_key_of};

    /// The signature and the key at a cursor, at most 9324 bytes and 56. The caller keeps their end below `2^32`. At a
    /// fault the cursor stays.
    #[tactic(auto, using(crate::proofs::Passing::one), unfolding(crate::specs::SignedKey::signed_key))]
    pub(crate) fn from_cursor(cursor: &mut Cursor<'a>) -> Result<Self, ReadFault>
        requires { cursor.old.place + 9380 < 2 ^ 32 }
        ensures read { Gives (λ view. (signed_key_of view, cursor.new.place)) result
            (read signed_key cursor.old.bytes.now cursor.old.place) }
        ensures at_most_9380 { OnOk result (cursor.new.place ≤ cursor.old.place + 9380) }
        ensures keeps { KeepsCursor result cursor.old cursor.new }
        ensures part { IfOk result (λ view. BeginsAt cursor.old.place cursor.old.bytes.now view) }
    {
        let mut rest = *cursor;
        let signature = LmsSigView::from_cursor(&mut rest)?;
        let start = rest.place;
        let key = LmsPublic::from_cursor(&mut rest)?;
        *cursor = rest;
        let key_bytes = bytes_of_key(&key, cursor.bytes, start);
        Ok(SignedKeyView {
            signature,
            key,
            key_bytes,
        })
    }

    /// Verifies the signature of the key under this level's key, by a way to climb chains. The first refusal, with the
    /// level: other types than the level's key's (10), then another root (12).
    pub(crate) fn verify_by<C: Climbing>(
        &self,
        climbing: &C,
        public: &LmsPublic,
        level: u8,
    ) -> Result<(), Refusal>
        ensures verdict { LevelVerdict public.now (public_bytes self.now.key)
            (lms_signature_of self.now.signature) level result }
        ensures read { result ≢ Err Refusal.MessageRead }
    {
        self.signature
            .verify_bytes_by(climbing, public, self.key_bytes, level)
    }
}

// The 56 bytes of a key that was read at `start`.
//
// For the prover: `key` is there for the contract alone.
fn bytes_of_key<'a>(key: &LmsPublic, bytes: &'a [u8], start: u32) -> &'a [u8]
    requires end_fits { start + 56 < 2 ^ 32 }
    requires within { start ≤ length bytes.now }
    requires found { read lms_public_key bytes.now start ≡ Ok (key.now, start + 56) }
    ensures range { result.now ≡ take 56 (drop start bytes.now) }
    ensures spelled { result.now ≡ public_bytes key.now }
{
    let start = start as usize;
    &bytes[start..start + 56]
}
