//! Signatures, as views of their bytes.

ghost use Rattle.std.specs.Prelude.{◌≡◌, ◌+◌, ◌-◌, ◌*◌, ◌<◌, ◌≤◌, ◌↔◌, ◌^◌, Ok, IfOk, IfSome, IsSome};
ghost use Rattle.std.specs.Prelude.{length, take, drop};
ghost use Rattle.byteorder.specs.Endian.{big_number};
ghost use Rattle.typecodes.specs.Layout.{Spells};
ghost use Rattle.typecodes.specs.Cursor.{Gives, Passes, Reads, read};
ghost use Rattle.typecodes.specs.Types.{lms_signature_len_of};
ghost use Rattle.lms.specs.Key.{public_key as lms_public_key};
ghost use Rattle.lms.specs.View.{bytes_of as lms_bytes_of, pair_of as lms_pair_of, signature_of as lms_signature_of};
ghost use Rattle.hss.specs.Key.{level_number};
ghost use Rattle.hss.specs.SignedKey.{BeginsAt, StandInTurn, shown_keys, signed_keys_size};
ghost use Rattle.hss.specs.Signature.{key_at, level_count, pairs_of_signature, shown_signature};
ghost use Rattle.hss.specs.Signature.{signature, signature_at, signature_size, start_at};

use crate::signed_key::SignedKeyView;
use crate::signed_keys::SignedKeys;
use lms::{LmsPublic, LmsSigView};
use typecodes::{Cause, Cursor, ReadFault};

/// A signature of one to eight levels (RFC 8554 6.2), as a view of the bytes that spell it.
#[derive(Clone, Copy, Debug)]
pub struct HssSigView<'a> {
    signed: SignedKeys<'a>,
    bottom: LmsSigView<'a>,
    bytes: &'a [u8],
    ghost spelled: { read signature bytes.now 0 ≡ Ok (shown_signature signed.slots bottom, length bytes.now) },
    ghost stand: { StandInTurn 4 bytes.now signed.slots },
    ghost last: { lms_bytes_of bottom ≡ take (lms_signature_len_of (lms_pair_of bottom))
        (drop (4 + signed_keys_size (shown_keys signed.slots)) bytes.now) },
}

impl<'a> HssSigView<'a> {
    ghost use Rattle.hss.specs.View.{bytes_of, lent_of, signature_of};

    /// The signature that the bytes spell, and no more: 2644 bytes for two levels of H5/W8. Else their first fault (1
    /// to 5).
    #[tactic(auto, using(crate::proofs::Numbers::whole), unfolding(crate::specs::Signature::signature))]
    pub fn read(bytes: &'a [u8]) -> Result<Self, ReadFault>
        ensures reads { Reads signature signature_of bytes.entry.now result }
        ensures whole { IfOk result (λ view. lent_of view ≡ bytes.entry) }
    {
        let mut cursor = Cursor::new(bytes);
        let above = number_above(&mut cursor)?;
        let signed = SignedKeys::from_cursor(&mut cursor, above)?;
        let bottom = LmsSigView::from_cursor(&mut cursor)?;
        cursor.end()?;
        Ok(HssSigView {
            signed,
            bottom,
            bytes,
        })
    }

    /// L, the number of levels, 1 to 8: the first 4 bytes as a number, plus 1.
    pub fn levels(&self) -> u8
        ensures value { result ≡ level_count (signature_of self.now) }
        ensures range { result ≡ big_number 4 (take 4 (bytes_of self.now)) + 1 }
        ensures at_most_8 { result ≤ 8 }
    {
        self.signed.count + 1
    }

    /// The signature of level i, 0 for the top, as a view of its own bytes. The caller keeps i below the number of
    /// levels.
    pub fn level(&self, i: u8) -> LmsSigView<'a>
        requires { i < level_count (signature_of self.now) }
        ensures value { lms_signature_of result ≡ signature_at (signature_of self.now) i }
        ensures range { lms_bytes_of result ≡ take (lms_signature_len_of (lms_pair_of result))
            (drop (start_at (signature_of self.now) i) (bytes_of self.now)) }
    {
        match self.signed_key(i) {
            Some(signed) => signed.signature,
            None => self.bottom,
        }
    }

    /// The public key of level i, which the level above signs, and whose 56 bytes stand before level i's signature. The
    /// caller keeps i from 1 to the last level.
    pub fn key(&self, i: u8) -> LmsPublic
        requires below_the_top { 1 ≤ i }
        requires is_level { i < level_count (signature_of self.now) }
        ensures value { (top : LmsPublic) → result ≡ key_at top (signature_of self.now) i }
        ensures range { Spells lms_public_key result
            (take 56 (drop (start_at (signature_of self.now) i - 56) (bytes_of self.now))) }
    {
        match self.signed_key(i - 1) {
            Some(signed) => signed.key,
            None => unreachable!(),
        }
    }

    // If level i is above the bottom: its signature, and the public key of level i + 1, which it signs.
    pub(crate) fn signed_key(&self, i: u8) -> Option<SignedKeyView<'a>>
        ensures is_some { IsSome result ↔ (i + 1 < level_count (signature_of self.now)) }
        ensures signature { IfSome result (λ view.
            lms_signature_of view.signature ≡ signature_at (signature_of self.now) i) }
        ensures key { (top : LmsPublic) → IfSome result (λ view.
            view.key ≡ key_at top (signature_of self.now) (i + 1)) }
        ensures range { IfSome result (BeginsAt (start_at (signature_of self.now) i) (bytes_of self.now)) }
        ensures spells { IfSome result (λ view. Spells lms_public_key view.key view.key_bytes.now) }
    {
        self.signed.get(i)
    }

    /// The bottom level's signature, which signs the message.
    pub fn bottom(&self) -> LmsSigView<'a>
        ensures value { lms_signature_of result ≡ (signature_of self.now).bottom }
        ensures range { let bottom = level_count (signature_of self.now) - 1 in
            lms_bytes_of result ≡ take (lms_signature_len_of (lms_pair_of result))
            (drop (start_at (signature_of self.now) bottom) (bytes_of self.now)) }
    {
        self.bottom
    }

    /// The bytes that spell the signature.
    pub fn bytes(&self) -> &'a [u8]
        ensures whole { result ≡ lent_of self.now }
        ensures spells { Spells signature (signature_of self.now) result.now }
        ensures len { length result.now ≡ signature_size (pairs_of_signature (signature_of self.now)) }
    {
        self.bytes
    }
}

// L - 1 at a cursor, 4 bytes, 0 to 7. At a fault the cursor stays.
#[tactic(auto, using(crate::proofs::Numbers::numbers), unfolding(crate::specs::Key::level_number))]
fn number_above(cursor: &mut Cursor<'_>) -> Result<u8, ReadFault>
    requires { cursor.old.place + 4 < 2 ^ 32 }
    ensures read { Gives (λ n. (n, cursor.new.place)) result
        (read (level_number 0 7) cursor.old.bytes.now cursor.old.place) }
    ensures at_most_7 { IfOk result (λ n. n ≤ 7) }
    ensures passes { Passes 4 result cursor.old cursor.new }
{
    let mut rest = *cursor;
    let number = rest.number()?;
    if number > 7 {
        return Err(ReadFault {
            place: cursor.place,
            cause: Cause::LevelCount,
        });
    }
    *cursor = rest;
    Ok(number as u8)
}
