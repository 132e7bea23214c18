//! Public keys of every scheme, and their verifiers.

ghost use Rattle.std.specs.Prelude.{◌≡◌, ◌≢◌, ◌≤◌, ℕ, List, length, take, Err, IfErr, IfOk};
ghost use Rattle.boot_verify.specs.Key.{KeyHasPrefix, KeyIsDigest, KeyVerdict, SpellsKey, prefix_length};
ghost use Rattle.boot_verify.specs.inner.Key.{KeyGivesRoot};
ghost use Rattle.boot_verify.specs.Answer.{RefusesKey};

use crate::answer::{fault_answer, length_answer};
use hss::HssPublic;
use lms::LmsPublic;
use typecodes::Refusal;
use winternitz::OneByOne;
use xmss::XmssPublic;

/// A public key. Its length in bytes names the scheme.
#[derive(Clone, Copy)]
pub enum Key {
    /// LMS, 56 bytes (RFC 8554 5.3).
    Lms(LmsPublic),
    /// HSS, 60 bytes (RFC 8554 6.1).
    Hss(HssPublic),
    /// XMSS, 68 bytes (RFC 8391 4.1.7).
    Xmss(XmssPublic),
}

impl Key {
    /// Decodes a key of the scheme that its length names. An `Err` is the final answer for C.
    pub(crate) fn read(public: &[u8]) -> Result<Key, u64>
        ensures ok { IfOk result (λ key. SpellsKey key public.now) }
        ensures err { IfErr result (RefusesKey public.now) }
    {
        match public.len() {
            56 => LmsPublic::read(public).map(Key::Lms).map_err(fault_answer),
            60 => HssPublic::read(public).map(Key::Hss).map_err(fault_answer),
            68 => XmssPublic::read(public)
                .map(Key::Xmss)
                .map_err(fault_answer),
            length => Err(length_answer(length)),
        }
    }

    pub(crate) fn verify(&self, message: &[u8], signature: &[u8]) -> Result<(), Refusal>
        ensures verdict { KeyVerdict self.now message.now signature.now result }
        ensures read { result ≢ Err Refusal.MessageRead }
    {
        match self {
            Key::Lms(key) => lms::verify_bytes_by(&OneByOne, key, message, signature),
            Key::Hss(key) => hss::verify_bytes_by(&OneByOne, key, message, signature),
            Key::Xmss(key) => xmss::verify_bytes_by(&OneByOne, key, message, signature),
        }
    }

    /// The root to which the signature leads. It is compared with none.
    pub(crate) fn root(&self, message: &[u8], signature: &[u8]) -> Result<[u8; 32], Refusal>
        ensures root { KeyGivesRoot self.now message.now signature.now result }
        ensures read { result ≢ Err Refusal.MessageRead }
    {
        match self {
            Key::Lms(key) => lms::root_by(&OneByOne, key, message, signature),
            Key::Hss(key) => root_of_levels(key, message, signature),
            Key::Xmss(key) => xmss::root_by(&OneByOne, key, message, signature),
        }
    }

    /// Verifies by the digest of the prefix and the message.
    pub(crate) fn verify_digest(&self, digest: &[u8; 32], signature: &[u8]) -> Result<(), Refusal>
        ensures verdict { (message : List ℕ) → KeyIsDigest self.now message signature.now digest.now
            → KeyVerdict self.now message signature.now result }
        ensures read { result ≢ Err Refusal.MessageRead }
    {
        match self {
            Key::Lms(key) => lms::verify_digest_by(&OneByOne, key, digest, signature),
            Key::Hss(key) => hss::verify_digest_by(&OneByOne, key, digest, signature),
            Key::Xmss(key) => xmss::verify_digest_by(&OneByOne, key, digest, signature),
        }
    }

    /// Writes what is hashed before the message to the front of `room`, and returns its length. Refused are a signature
    /// that doesn't decode, and a wrong number of levels; no root is compared.
    pub(crate) fn message_prefix(
        &self,
        signature: &[u8],
        room: &mut [u8; 128],
    ) -> Result<u32, Refusal>
        ensures count { IfOk result (λ n. n ≡ prefix_length self.now) }
        ensures ok { IfOk result (λ n. KeyHasPrefix self.now signature.now (take n room.new)) }
        ensures err { IfErr result (λ refusal. (message : List ℕ)
            → KeyVerdict {A = Unit {0}} self.now message signature.now (Err refusal)) }
        ensures read { result ≢ Err Refusal.MessageRead }
        ensures types { (level : ℕ) → result ≢ Err (Refusal.TypeMismatch level) }
        ensures roots { (level : ℕ) → result ≢ Err (Refusal.RootMismatch level) }
    {
        match self {
            Key::Lms(key) => Ok(lay(room, &lms::message_prefix(key, signature)?)),
            Key::Hss(key) => Ok(lay(room, &hss::message_prefix(key, signature)?)),
            Key::Xmss(key) => Ok(lay(room, &xmss::message_prefix(key, signature)?)),
        }
    }
}

// The root of a key of HSS. It stays a function of its own, so that LMS and XMSS take no stack for eight levels.
#[inline(never)]
fn root_of_levels(key: &HssPublic, message: &[u8], signature: &[u8]) -> Result<[u8; 32], Refusal>
    ensures root { KeyGivesRoot (Key.Hss key.now) message.now signature.now result }
    ensures read { result ≢ Err Refusal.MessageRead }
{
    hss::root_by(&OneByOne, key, message, signature)
}

// Copies bytes to the front of `room`, and returns their number.
fn lay(room: &mut [u8; 128], bytes: &[u8]) -> u32
    requires { length bytes.now ≤ 128 }
    ensures count { result ≡ length bytes.now }
    ensures bytes { take result room.new ≡ bytes.now }
{
    room[..bytes.len()].copy_from_slice(bytes);
    bytes.len() as u32
}
