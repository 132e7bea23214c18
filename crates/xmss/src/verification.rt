//! Verification.

ghost use Rattle.std.specs.Prelude.{◌≡◌, ◌≢◌, Err, IfErr, IfOk, List, ℕ};
ghost use Rattle.xmss.specs.View.{signature_of};
ghost use Rattle.xmss.specs.Verification.{GivesRoot, HasPrefix, IsDigest, IsValidFor, LeadsTo, LeavesMessage};
ghost use Rattle.xmss.specs.Verification.{Verdict};
ghost use Rattle.typecodes.specs.Verdict.{Verifies};
ghost use Rattle.typecodes.specs.inner.Verdict.{DigestVerdict};

use crate::digest::{before_message, message_digest, message_digest_from};
use crate::key::XmssPublic;
use crate::nodes::Nodes;
use crate::signature::XmssSigView;
use merkle::root_from_path;
use typecodes::{Message, Refusal};
use winternitz::InLanes;
use wots_plus::{Climbing, Wots};

/// Verifies the signature of a message (RFC 8391 4.1.10). The first of these refusals is reported:
///
/// - 1, 4 or 5: the bytes don't decode as a signature of the key's type.
/// - 14: the message can't be read.
/// - 12, level 0: the root isn't the key's.
///
/// The message is read to its end, in pieces that aren't kept. It isn't touched where the signature doesn't decode.
pub fn verify<M: Message>(
    public: &XmssPublic,
    message: &mut M,
    signature: &[u8],
) -> Result<(), Refusal>
    ensures { Verifies M.remaining (λ text. Verdict public.now text signature.now)
        (LeavesMessage M.transition M.remaining) message.old message.new result }
{
    let view = XmssSigView::read(public.tree, signature).map_err(Refusal::Unreadable)?;
    match message_digest_from(view.randomizer, &public.root, view.index, message) {
        Ok(digest) => view.verify_digest(&InLanes, public, &digest),
        Err(_) => Err(Refusal::MessageRead),
    }
}

/// `verify` of a message in memory, which can't fail to be read, with a way to climb chains.
pub fn verify_bytes_by<C: Climbing>(
    climbing: &C,
    public: &XmssPublic,
    message: &[u8],
    signature: &[u8],
) -> Result<(), Refusal>
    ensures verdict { Verdict public.now message.now signature.now result }
    ensures read { result ≢ Err Refusal.MessageRead }
{
    let view = match XmssSigView::read(public.tree, signature) {
        Ok(view) => view,
        Err(fault) => return Err(Refusal::Unreadable(fault)),
    };
    let digest = message_digest(view.randomizer, &public.root, view.index, message);
    view.verify_digest(climbing, public, &digest)
}

/// `verify` of a message by its digest: the SHA-256 of the bytes of `message_prefix` and then of the message (RFC 8391
/// 4.1.9).
pub fn verify_digest_by<C: Climbing>(
    climbing: &C,
    public: &XmssPublic,
    digest: &[u8; 32],
    signature: &[u8],
) -> Result<(), Refusal>
    ensures verdict { (message : List ℕ) → IsDigest public.now message signature.now digest.now
        → Verdict public.now message signature.now result }
    ensures read { result ≢ Err Refusal.MessageRead }
{
    let view = match XmssSigView::read(public.tree, signature) {
        Ok(view) => view,
        Err(fault) => return Err(Refusal::Unreadable(fault)),
    };
    view.verify_digest(climbing, public, digest)
}

/// The root to which the signature of a message in memory leads, by a way to climb chains (RFC 8391 4.1.10, algorithm
/// 13). It is compared with none: it is the key's exactly where the signature is valid. Refuses a signature that
/// doesn't decode (1, 4 or 5).
pub fn root_by<C: Climbing>(
    climbing: &C,
    public: &XmssPublic,
    message: &[u8],
    signature: &[u8],
) -> Result<[u8; 32], Refusal>
    ensures root { GivesRoot public.now message.now signature.now result }
    ensures read { result ≢ Err Refusal.MessageRead }
{
    let view = match XmssSigView::read(public.tree, signature) {
        Ok(view) => view,
        Err(fault) => return Err(Refusal::Unreadable(fault)),
    };
    let signed = message_digest(view.randomizer, &public.root, view.index, message);
    Ok(root_from_signature(climbing, public, &signed, &view))
}

/// The 128 bytes that are hashed before the message: toByte(2, 32), r, the root and toByte(idx, 32) (RFC 8391 4.1.9). A
/// signature that doesn't decode is refused (1, 4 or 5), as with any message.
pub fn message_prefix(public: &XmssPublic, signature: &[u8]) -> Result<[u8; 128], Refusal>
    ensures ok { IfOk result (HasPrefix public.now signature.now) }
    ensures err { IfErr result (λ refusal. (message : List ℕ)
        → Verdict {A = Unit {0}} public.now message signature.now (Err refusal)) }
    ensures read { result ≢ Err Refusal.MessageRead }
    ensures types { (level : ℕ) → result ≢ Err (Refusal.TypeMismatch level) }
    ensures roots { (level : ℕ) → result ≢ Err (Refusal.RootMismatch level) }
{
    let view = match XmssSigView::read(public.tree, signature) {
        Ok(view) => view,
        Err(fault) => return Err(Refusal::Unreadable(fault)),
    };
    Ok(before_message(view.randomizer, &public.root, view.index))
}

impl XmssSigView<'_> {
    // Whether the signature of a digest leads to the key's root (RFC 8391 4.1.10).
    fn verify_digest<C: Climbing>(
        &self,
        climbing: &C,
        public: &XmssPublic,
        digest: &[u8; 32],
    ) -> Result<(), Refusal>
        requires { self.now.tree ≡ public.now.tree }
        ensures { DigestVerdict (IsValidFor public.now digest.now (signature_of self.now)) 0 result }
    {
        if root_from_signature(climbing, public, digest, self) == public.root {
            Ok(())
        } else {
            Err(Refusal::RootMismatch(0))
        }
    }
}

// The one root that a digest's signature leads to (RFC 8391 4.1.10, algorithm 13).
fn root_from_signature<C: Climbing>(
    climbing: &C,
    public: &XmssPublic,
    digest: &[u8; 32],
    view: &XmssSigView<'_>,
) -> [u8; 32]
    ensures leads { LeadsTo public.now digest.now (signature_of view.now) result }
    ensures only { (other : List ℕ) →
        LeadsTo public.now digest.now (signature_of view.now) other → other ≡ result }
{
    let seed = climbing.prf(public.seed);
    let key = Wots {
        seed: &seed,
        leaf: view.index,
    };
    let leaf = climbing.public_from_signature(&key, digest, view.chains);
    let nodes = Nodes { seed: &seed };
    root_from_path(&nodes, view.index, &leaf, view.path)
}
