//! Verification (RFC 8554 6.3).

ghost use Rattle.std.specs.Prelude.{◌≡◌, ◌≢◌, ◌<◌, ℕ, List, length, Err, IfOk, IfErr};
ghost use Rattle.hss.specs.Signature.{key_at, level_count, signature_at};
ghost use Rattle.hss.specs.Verification.{GivesRoot, HasPrefix, IsDigest, LeavesMessage, Verdict};
ghost use Rattle.hss.specs.inner.Verification.{AboveVerdict, GivesTopRoot, IsBottom};
ghost use Rattle.hss.specs.View.{signature_of};
ghost use Rattle.lms.specs.Verification.{LevelGivesRoot};
ghost use Rattle.lms.specs.View.{signature_of as lms_signature_of};
ghost use Rattle.typecodes.specs.Verdict.{Verifies};

use crate::key::HssPublic;
use crate::signature::HssSigView;
use lmots::Climbing;
use lms::{LmsPublic, LmsSigView};
use typecodes::{Message, Refusal};
use winternitz::InLanes;

/// Verifies the signature of a message under the key (RFC 8554 6.3).
///
/// The first refusal, in this order:
///
/// - 1 to 5: a fault of the signature's bytes.
/// - 11: another number of levels than the key's.
/// - Level by level from the top, with the level: 10, other types than the level's key's; then 12, another root. At the
///   bottom 14, the message can't be read, comes between the two.
///
/// The message is any reader. It is read to its end, in pieces that aren't kept, before the bottom level's root is
/// compared. At an earlier refusal it is left as it is.
pub fn verify<M: Message>(
    public: &HssPublic,
    message: &mut M,
    signature: &[u8],
) -> Result<(), Refusal>
    ensures { Verifies M.remaining (λ text. Verdict public.now text signature.now)
        (LeavesMessage M.transition M.remaining public.now) message.old message.new result }
{
    let view = HssSigView::read(signature).map_err(Refusal::Unreadable)?;
    if view.levels() != public.levels.get() {
        return Err(Refusal::LevelMismatch);
    }
    let key = bottom_key(&InLanes, &public.top, &view)?;
    view.bottom().verify(&key, message, view.levels() - 1)
}

/// As `verify`, for a message in memory, whose reading can't fail, and by a way to climb chains.
pub fn verify_bytes_by<C: Climbing>(
    climbing: &C,
    public: &HssPublic,
    message: &[u8],
    signature: &[u8],
) -> Result<(), Refusal>
    ensures verdict { Verdict public.now message.now signature.now result }
    ensures read { result ≢ Err Refusal.MessageRead }
{
    let bottom = verify_above(climbing, public, signature)?;
    bottom
        .signature
        .verify_bytes_by(climbing, &bottom.key, message, bottom.level)
}

/// As `verify_bytes_by`, for a message's digest: SHA-256 of `message_prefix` and the message (RFC 8554 4.5).
pub fn verify_digest_by<C: Climbing>(
    climbing: &C,
    public: &HssPublic,
    digest: &[u8; 32],
    signature: &[u8],
) -> Result<(), Refusal>
    ensures verdict { (message : List ℕ) → IsDigest public.now message signature.now digest.now
        → Verdict public.now message signature.now result }
    ensures read { result ≢ Err Refusal.MessageRead }
{
    let bottom = verify_above(climbing, public, signature)?;
    bottom
        .signature
        .verify_digest_by(climbing, &bottom.key, digest, bottom.level)
}

/// The root to which the signature of a message in memory leads, by a way to climb chains. It is not compared with the
/// key's, which it is exactly where the signature is valid. It is computed from the bottom up. Each level signs the
/// next level's key as it was computed: so the message decides the root, even where a fault skips a comparison.
///
/// Refuses a fault of the signature's bytes (1 to 5); another number of levels than the key's (11); and at the lowest
/// level that has them, other types than its key's (10), or, below the top, another root (12).
pub fn root_by<C: Climbing>(
    climbing: &C,
    public: &HssPublic,
    message: &[u8],
    signature: &[u8],
) -> Result<[u8; 32], Refusal>
    ensures root { GivesRoot public.now message.now signature.now result }
    ensures read { result ≢ Err Refusal.MessageRead }
{
    let whole = match HssSigView::read(signature) {
        Ok(view) => view,
        Err(fault) => return Err(Refusal::Unreadable(fault)),
    };
    if whole.levels() != public.levels.get() {
        return Err(Refusal::LevelMismatch);
    }
    top_root(climbing, &public.top, &whole, message)
}

/// The 54 bytes that are hashed before the message: I of the bottom level's key, q, D_MESG and C (RFC 8554 4.5). No
/// level is verified here; `verify_digest_by` does that. Refuses only a fault of the signature's bytes (1 to 5) and
/// another number of levels than the key's (11), as verification of any message does.
pub fn message_prefix(public: &HssPublic, signature: &[u8]) -> Result<[u8; 54], Refusal>
    ensures ok { IfOk result (HasPrefix public.now signature.now) }
    ensures err { IfErr result (λ refusal. (message : List ℕ)
        → Verdict {A = Unit {0}} public.now message signature.now (Err refusal)) }
    ensures read { result ≢ Err Refusal.MessageRead }
    ensures types { (level : ℕ) → result ≢ Err (Refusal.TypeMismatch level) }
    ensures roots { (level : ℕ) → result ≢ Err (Refusal.RootMismatch level) }
{
    let whole = match HssSigView::read(signature) {
        Ok(view) => view,
        Err(fault) => return Err(Refusal::Unreadable(fault)),
    };
    if whole.levels() != public.levels.get() {
        return Err(Refusal::LevelMismatch);
    }
    let key = last_key(&public.top, &whole);
    Ok(whole.bottom().message_prefix(&key))
}

// The last key in a signature, or the top one if it has none.
fn last_key(top: &LmsPublic, view: &HssSigView<'_>) -> LmsPublic
    ensures { result ≡ key_at top.now (signature_of view.now) (length (signature_of view.now).signed) }
{
    key_of(top, view, view.levels() - 1)
}

// The key of a level, 0 for the top.
fn key_of(top: &LmsPublic, view: &HssSigView<'_>, level: u8) -> LmsPublic
    requires { level < level_count (signature_of view.now) }
    ensures { result ≡ key_at top.now (signature_of view.now) level }
{
    if level < 1 {
        return *top;
    }
    view.key(level)
}

// The root to which all levels lead, computed from the bottom up.
fn top_root<C: Climbing>(
    climbing: &C,
    top: &LmsPublic,
    view: &HssSigView<'_>,
    message: &[u8],
) -> Result<[u8; 32], Refusal>
    ensures root { GivesTopRoot top.now message.now (signature_of view.now) result }
    ensures read { result ≢ Err Refusal.MessageRead }
{
    let bottom = view.levels() - 1;
    let mut root = level_root(climbing, top, view, bottom, message)?;
    for done in 0..bottom {
        let level = bottom - done;
        let mut key = view.key(level);
        if root != key.root {
            return Err(Refusal::RootMismatch(level));
        }
        key.root = root;
        root = level_root(climbing, top, view, level - 1, &key.to_bytes())?;
    }
    Ok(root)
}

// The root to which the signature of a level leads, with what the level signs.
fn level_root<C: Climbing>(
    climbing: &C,
    top: &LmsPublic,
    view: &HssSigView<'_>,
    level: u8,
    message: &[u8],
) -> Result<[u8; 32], Refusal>
    requires { level < level_count (signature_of view.now) }
    ensures { LevelGivesRoot (key_at top.now (signature_of view.now) level) message.now
        (signature_at (signature_of view.now) level) level result }
{
    let key = key_of(top, view, level);
    view.level(level).root_by(climbing, &key, message, level)
}

// The bottom level of a signature.
#[derive(Clone, Copy)]
struct Bottom<'a> {
    signature: LmsSigView<'a>,
    key: LmsPublic,
    level: u8,
}

// The bottom level of the signature that the bytes spell, if all levels above it are valid. Refuses as verification of
// any message does.
fn verify_above<'a, C: Climbing>(
    climbing: &C,
    public: &HssPublic,
    signature: &'a [u8],
) -> Result<Bottom<'a>, Refusal>
    ensures ok { IfOk result (λ bottom.
        IsBottom public.now signature.now (lms_signature_of bottom.signature) bottom.key bottom.level) }
    ensures err { IfErr result (λ refusal. (message : List ℕ)
        → Verdict {A = Unit {0}} public.now message signature.now (Err refusal)) }
    ensures read { result ≢ Err Refusal.MessageRead }
{
    let whole = match HssSigView::read(signature) {
        Ok(view) => view,
        Err(fault) => return Err(Refusal::Unreadable(fault)),
    };
    if whole.levels() != public.levels.get() {
        return Err(Refusal::LevelMismatch);
    }
    let key = bottom_key(climbing, &public.top, &whole)?;
    Ok(Bottom {
        signature: whole.bottom(),
        key,
        level: whole.levels() - 1,
    })
}

// The key of the bottom level, where the signatures of all levels above it are valid.
fn bottom_key<C: Climbing>(
    climbing: &C,
    top: &LmsPublic,
    view: &HssSigView<'_>,
) -> Result<LmsPublic, Refusal>
    ensures { AboveVerdict top.now (signature_of view.now) result }
{
    let mut key = *top;
    for i in 0..view.levels() {
        if let Some(signed) = view.signed_key(i) {
            signed.verify_by(climbing, &key, i)?;
            key = signed.key;
        }
    }
    Ok(key)
}
