//! Verification for boot loaders: a static library for C, without an allocator, with little stack and code.
//!
//! `hbs_proved_verify` answers 0 exactly where the signature is valid for the message under the key, else the first
//! refusal. `hbs_proved_message_prefix` and `hbs_proved_verify_digest` do the same for a message that is hashed
//! elsewhere. The verifiers of `hss`, `xmss` and `lms` climb one chain after the other here (`winternitz::OneByOne`).
//! The model is `specs/Key.antt`, the schemes' definitions picked by the key, and `specs/Answer.antt`, the answers.
//!
//! An answer has the refusal's number in its lower 32 bits, and its place, length or level in the upper ones.
//! `include/hbs_verify.h` documents each function for C, under its name without `proved_`: boot/exports.c refuses null
//! pointers before it calls the one here. docs/VERIFYING.md says how a boot loader uses them.
#![tactic(auto)]

mod answer;
mod key;
mod pieces;
mod sha256;

ghost use Rattle.std.specs.Prelude.{◌≡◌, ◌≢◌, ◌↔◌, ◌⊎◌, ℕ, List, ◌++◌};
ghost use Rattle.boot_verify.specs.Answer.{Answers, GivesExactly, GivesPrefix, GivesRoot, IsDigest, IsEarly, IsSigned};
ghost use Rattle.boot_verify.specs.Pieces.{Begins, HoldsMessage, IsBegun, changed};

use crate::answer::{CHANGED, READY, answer_of, packed};
use crate::key::Key;
use crate::pieces::{Pieces, prefix_of};
use crate::sha256::Hashing;

/// 0 where the signature is valid for the message under the public key (RFC 8554 5.4.2 and 6.3, RFC 8391 4.1.10). The
/// key's length names its scheme. Else the first refusal, the key's before the signature's:
///
/// - of the key: 6 with its length; 1, 2, 3 or 5 with a place.
/// - of the signature: 1 to 5 with a place; 10 with a level; 11; 12 with a level.
#[unsafe(no_mangle)]
pub extern "C" fn hbs_proved_verify(public: &[u8], message: &[u8], signature: &[u8]) -> u64
    ensures answer { Answers public.now message.now signature.now result }
    ensures valid { (result ≡ 0) ↔ IsSigned public.now message.now signature.now }
{
    match Key::read(public) {
        Ok(key) => answer_of(key.verify(message, signature)),
        Err(refusal) => refusal,
    }
}

/// Writes the bytes that are hashed before a message to the front of `room`: 54 for LMS and HSS (RFC 8554 4.5), 128 for
/// XMSS (RFC 8391 4.1.9). Answers 9, with their number in the upper 32 bits. Else the refusal that `hbs_proved_verify`
/// has for every message, of the key, 1 to 5, or 11, with zeros in `room`.
#[unsafe(no_mangle)]
pub extern "C" fn hbs_proved_message_prefix(
    public: &[u8],
    signature: &[u8],
    room: &mut [u8; 128],
) -> u64
    ensures { GivesPrefix public.now signature.now room.new result }
{
    match prefix_of(public, signature, room) {
        Ok(count) => packed(READY, count),
        Err(refusal) => {
            *room = [0; 128];
            refusal
        }
    }
}

/// The answer of `hbs_proved_verify`, from the digest of its message: the SHA-256 of the bytes that
/// `hbs_proved_message_prefix` writes, and then of the message.
#[unsafe(no_mangle)]
pub extern "C" fn hbs_proved_verify_digest(
    public: &[u8],
    signature: &[u8],
    digest: &[u8; 32],
) -> u64
    ensures answer { (message : List ℕ) → IsDigest public.now message signature.now digest.now
        → Answers public.now message signature.now result }
    ensures valid { (message : List ℕ) → IsDigest public.now message signature.now digest.now
        → (result ≡ 0) ↔ IsSigned public.now message signature.now }
{
    match Key::read(public) {
        Ok(key) => answer_of(key.verify_digest(digest, signature)),
        Err(refusal) => refusal,
    }
}

/// Writes the root to which the signature leads to `root`, and compares it with none. Where the caller filled `root`
/// with other bytes, it is then the key's root exactly where the signature is valid. So the caller's comparison
/// decides, and it can be made twice, against forced faults. Answers 9 where it wrote a root. Else a refusal as
/// `hbs_proved_verify` has, but of HSS the lowest level's; then no signature is valid, and `root` stays as it is.
#[unsafe(no_mangle)]
pub extern "C" fn hbs_proved_root(
    public: &[u8],
    message: &[u8],
    signature: &[u8],
    root: &mut [u8; 32],
) -> u64
    ensures answer { GivesRoot public.now message.now signature.now root.old root.new result }
    ensures exact { GivesExactly public.now message.now signature.now root.old root.new }
{
    match Key::read(public) {
        Ok(key) => match key.root(message, signature) {
            Ok(computed) => {
                *root = computed;
                packed(READY, 0)
            }
            Err(refusal) => answer_of(Err(refusal)),
        },
        Err(refusal) => refusal,
    }
}

/// Begins a message in pieces, for a key and a signature: `pieces` holds no bytes of it yet. Answers 9. Else the
/// refusal that `hbs_proved_verify` has for every message, of the key, 1 to 5, or 11, and no message is begun.
#[unsafe(no_mangle)]
pub extern "C" fn hbs_proved_begin(pieces: &mut Pieces, public: &[u8], signature: &[u8]) -> u64
    ensures { Begins public.now signature.now pieces.new result }
{
    pieces.hashing = Hashing::new();
    match prefix_of(public, signature, &mut pieces.prefix) {
        Ok(count) => {
            pieces.prefix_length = u64::from(count);
            pieces.hashing.update(&pieces.prefix[..count as usize]);
            packed(READY, 0)
        }
        Err(refusal) => {
            pieces.prefix_length = 0;
            refusal
        }
    }
}

/// Adds a piece to the message.
#[unsafe(no_mangle)]
pub extern "C" fn hbs_proved_add(pieces: &mut Pieces, piece: &[u8])
    ensures holds { (message : List ℕ) → HoldsMessage pieces.old message
        → HoldsMessage pieces.new (message ++ piece.now) }
    ensures prefix { pieces.new.prefix ≡ pieces.old.prefix }
    ensures prefix_length { pieces.new.prefix_length ≡ pieces.old.prefix_length }
{
    pieces.hashing.update(piece);
}

/// The answer of `hbs_proved_verify` for the message so far, where it was begun for this key and this signature. Else
/// an early refusal of these (1 to 6, 11), or 8.
#[unsafe(no_mangle)]
pub extern "C" fn hbs_proved_end(pieces: &Pieces, public: &[u8], signature: &[u8]) -> u64
    ensures answer { (message : List ℕ) → HoldsMessage pieces.now message → IsBegun pieces.now public.now signature.now
        → Answers public.now message signature.now result }
    ensures valid { (message : List ℕ) → HoldsMessage pieces.now message
        → (result ≡ 0) ↔ (IsBegun pieces.now public.now signature.now × IsSigned public.now message signature.now) }
    ensures other { (IsBegun pieces.now public.now signature.now → ⊥) → IsEarly result ⊎ (result ≡ changed) }
{
    let mut room = [0; 128];
    match prefix_of(public, signature, &mut room) {
        Ok(count) => {
            if !pieces.has_prefix(&room, count) {
                return packed(CHANGED, 0);
            }
            let digest = pieces.hashing.finalize();
            hbs_proved_verify_digest(public, signature, &digest)
        }
        Err(refusal) => refusal,
    }
}
