//! The bytes of keys and signatures.

ghost use Rattle.std.specs.Prelude.{◌≡◌, ◌+◌, ◌<◌, ◌≤◌, ℕ, List, ◌++◌, length, map, sum_by, take};
ghost use Rattle.std.specs.List.{flat_map};
ghost use Rattle.typecodes.specs.Layout.{Spells};
ghost use Rattle.typecodes.specs.Types.{lms_signature_len_of};
ghost use Rattle.lmots.specs.Hashes.{u32str};
ghost use Rattle.hss.specs.Key.{public_key};
ghost use Rattle.hss.specs.SignedKey.{signed_key, signed_keys};
ghost use Rattle.hss.specs.Signature.{signature, signature_size};
ghost use Rattle.hss.specs.Verification.{IsValid};
ghost use Rattle.hss.specs.Secret.{key_of, signing_of};
ghost use Rattle.hss.specs.Writing.{AreDigests, FromSecrets, level_at, pairs_of, made_public};
ghost use Rattle.hss.specs.inner.Writing.{part_size};
ghost use Rattle.hss.specs.Writing.{public_bytes, signature_bytes, made_signature, made_signed_key, signed_key_bytes};
ghost use Rattle.hss.specs.Writing.{textbook};

use crate::key::HssPublic;
use crate::secret::Level;
use lms::LmsPublic;
use typecodes::Levels;

/// The bytes of a signature of levels of these types: 2644 for two of H5/W8.
pub fn signature_len(levels: &Levels) -> u32
    ensures { result ≡ signature_size levels.now }
{
    let pairs = levels.as_slice();
    let mut len = 4 + 56 * (pairs.len() as u32 - 1);
    for pair in pairs {
        len += pair.signature_len();
    }
    len
}

/// Writes a public key, 60 bytes (RFC 8554 6.1).
pub fn write_public(public: &HssPublic, into: &mut [u8])
    requires { length into.old ≡ 60 }
    ensures bytes { into.new ≡ public_bytes public.now }
    ensures spells { Spells public_key public.now into.new }
{
    write_number(public.levels.get(), into);
    lms::write_public(&public.top, &mut into[4..60]);
}

impl HssPublic {
    /// The key's 60 bytes (RFC 8554 6.1).
    pub fn to_bytes(&self) -> [u8; 60]
        ensures bytes { result ≡ public_bytes self.now }
        ensures spells { Spells public_key self.now result }
    {
        let mut bytes = [0; 60];
        write_public(self, &mut bytes);
        bytes
    }
}

/// Writes the signature of a level above the bottom, then the next level's public key, which it signs (RFC 8554 6.2).
pub fn write_signed_key(level: &Level, next: &LmsPublic, into: &mut [u8])
    requires { length into.old ≡ lms_signature_len_of level.now.tree.secret.pair + 56 }
    ensures bytes { into.new ≡ signed_key_bytes (made_signed_key level.now next.now) }
    ensures spells { Spells signed_key (made_signed_key level.now next.now) into.new }
{
    let len = into.len();
    let end = len - 56;
    level.write(&mut into[0..end]);
    lms::write_public(next, &mut into[end..len]);
}

/// Writes the signature of levels (RFC 8554 6.2): the number of levels above the bottom, their signed keys from the top
/// down, and the bottom's signature. The caller gives at most 7 levels above the bottom, and `signature_len` bytes.
pub fn write_signature(above: &[Level], bottom: &Level, into: &mut [u8])
    requires at_most_7 { length above.now ≤ 7 }
    requires room { length into.old ≡ signature_size (pairs_of above.now bottom.now) }
    ensures bytes { into.new ≡ signature_bytes (made_signature above.now bottom.now) }
    ensures spells { Spells signature (made_signature above.now bottom.now) into.new }
    // If roots and paths are the levels' secrets', it is the textbook signature.
    ensures textbook { FromSecrets above.now bottom.now
        → made_signature above.now bottom.now ≡ textbook (map signing_of above.now) (signing_of bottom.now) }
    // If also each digest is the digest of what the level signs, it is valid.
    ensures valid { (message : List ℕ) → FromSecrets above.now bottom.now → AreDigests above.now bottom.now message
        → IsValid (made_public above.now bottom.now) message (made_signature above.now bottom.now) }
{
    write_number(above.len() as u8, into);
    let offset = write_above(above, bottom, into);
    let end = into.len();
    bottom.write(&mut into[offset..end]);
}

// Writes the signed keys of a signature after the first 4 bytes, and returns the offset after them.
fn write_above(above: &[Level], bottom: &Level, into: &mut [u8]) -> usize
    requires at_most_7 { length above.now ≤ 7 }
    requires exact_length { length into.old
        ≡ 4 + sum_by part_size above.now + lms_signature_len_of bottom.now.tree.secret.pair }
    ensures offset { result ≡ 4 + sum_by part_size above.now }
    ensures bytes { take result into.new
        ≡ take 4 into.old ++ flat_map signed_key_bytes (made_signature above.now bottom.now).signed }
    ensures spells { let signed = (made_signature above.now bottom.now).signed in
        Spells (signed_keys (length above.now)) signed (flat_map signed_key_bytes signed) }
{
    let mut offset = 4;
    for (i, level) in above.iter().enumerate() {
        let next = key_below(above, bottom, i);
        let end = offset + level.tree.secret.pair.signature_len() as usize + 56;
        write_signed_key(level, &next, &mut into[offset..end]);
        offset = end;
    }
    offset
}

// The public key of the level below level i.
fn key_below(above: &[Level], bottom: &Level, i: usize) -> LmsPublic
    requires { i < length above.now }
    ensures { result ≡ key_of (level_at above.now bottom.now (i + 1)) }
{
    let below = above.get(i + 1).unwrap_or(bottom);
    below.public()
}

// Writes a number of levels, 4 bytes.
fn write_number(number: u8, into: &mut [u8])
    requires { 4 ≤ length into.old }
    ensures { take 4 into.new ≡ u32str number }
{
    into[0..4].copy_from_slice(&u32::from(number).to_be_bytes());
}
