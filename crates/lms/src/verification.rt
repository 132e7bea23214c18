//! Verification (RFC 8554 5.4.2).

ghost use Rattle.std.specs.Prelude.{◌≡◌, ◌≢◌, List, ℕ, Err, IfErr, IfOk, MatchResult};
ghost use Rattle.lms.specs.View.{signature_of};
ghost use Rattle.lms.specs.Verification.{GivesRoot, HasPrefix, IsDigest, IsValidFor, LeadsTo, LeavesMessage};
ghost use Rattle.lms.specs.Verification.{LevelGivesRoot, LevelVerdict, Verdict, digest_of, prefix_of};
ghost use Rattle.typecodes.specs.Verdict.{Verifies};
ghost use Rattle.typecodes.specs.inner.Verdict.{DigestVerdict};

use crate::key::LmsPublic;
use crate::nodes::Nodes;
use crate::signature::LmsSigView;
use lmots::{Climbing, LmOts};
use merkle::root_from_path;
use typecodes::{Message, Refusal};
use winternitz::InLanes;

/// Verifies the signature of a message under the key (RFC 8554 5.4.2).
///
/// The first refusal, in this order:
///
/// - 1 to 5: a fault of the signature's bytes.
/// - 10, level 0: other types than the key's.
/// - 14: the message can't be read.
/// - 12, level 0: another root than the key's.
///
/// The message is any reader. It is read to its end, in pieces that aren't kept; at a fault or other types it is left
/// as it is.
pub fn verify<M: Message>(
    public: &LmsPublic,
    message: &mut M,
    signature: &[u8],
) -> Result<(), Refusal>
    ensures { Verifies M.remaining (λ text. Verdict public.now text signature.now)
        (LeavesMessage M.transition M.remaining) message.old message.new result }
{
    let view = LmsSigView::read(signature).map_err(Refusal::Unreadable)?;
    view.verify(public, message, 0)
}

/// As `verify`, for a message in memory, whose reading can't fail, and by a way to climb chains.
pub fn verify_bytes_by<C: Climbing>(
    climbing: &C,
    public: &LmsPublic,
    message: &[u8],
    signature: &[u8],
) -> Result<(), Refusal>
    ensures verdict { Verdict public.now message.now signature.now result }
    ensures read { result ≢ Err Refusal.MessageRead }
{
    let view = match LmsSigView::read(signature) {
        Ok(view) => view,
        Err(fault) => return Err(Refusal::Unreadable(fault)),
    };
    view.verify_bytes_by(climbing, public, message, 0)
}

/// As `verify_bytes_by`, for a message's digest: SHA-256 of `message_prefix` and the message (RFC 8554 4.5).
pub fn verify_digest_by<C: Climbing>(
    climbing: &C,
    public: &LmsPublic,
    digest: &[u8; 32],
    signature: &[u8],
) -> Result<(), Refusal>
    ensures verdict { (message : List ℕ) → IsDigest public.now message signature.now digest.now
        → Verdict public.now message signature.now result }
    ensures read { result ≢ Err Refusal.MessageRead }
{
    let view = match LmsSigView::read(signature) {
        Ok(view) => view,
        Err(fault) => return Err(Refusal::Unreadable(fault)),
    };
    view.verify_digest_by(climbing, public, digest, 0)
}

/// The root to which the signature of a message in memory leads, by a way to climb chains (RFC 8554 5.4.2, algorithm
/// 6a). It is compared with none: it is the key's exactly where the signature is valid. Refuses a fault of the
/// signature's bytes (1 to 5), and other types than the key's (10, level 0).
pub fn root_by<C: Climbing>(
    climbing: &C,
    public: &LmsPublic,
    message: &[u8],
    signature: &[u8],
) -> Result<[u8; 32], Refusal>
    ensures root { GivesRoot public.now message.now signature.now result }
    ensures read { result ≢ Err Refusal.MessageRead }
{
    let view = match LmsSigView::read(signature) {
        Ok(view) => view,
        Err(fault) => return Err(Refusal::Unreadable(fault)),
    };
    view.root_by(climbing, public, message, 0)
}

/// The 54 bytes that are hashed before the message: I, q, D_MESG and C (RFC 8554 4.5). Refuses only a fault of the
/// signature's bytes (1 to 5), as verification of any message does.
pub fn message_prefix(public: &LmsPublic, signature: &[u8]) -> Result<[u8; 54], Refusal>
    ensures ok { IfOk result (HasPrefix public.now signature.now) }
    ensures err { IfErr result (λ refusal. (message : List ℕ)
        → Verdict {A = Unit {0}} public.now message signature.now (Err refusal)) }
    ensures read { result ≢ Err Refusal.MessageRead }
    ensures types { (level : ℕ) → result ≢ Err (Refusal.TypeMismatch level) }
    ensures roots { (level : ℕ) → result ≢ Err (Refusal.RootMismatch level) }
{
    let view = match LmsSigView::read(signature) {
        Ok(view) => view,
        Err(fault) => return Err(Refusal::Unreadable(fault)),
    };
    Ok(view.message_prefix(public))
}

impl LmsSigView<'_> {
    /// Verifies the signature of a message under the key (RFC 8554 5.4.2), at a level of an HSS signature, 0 for the
    /// top.
    ///
    /// The first refusal, in this order:
    ///
    /// - 10, with the level: other types than the key's.
    /// - 14: the message can't be read.
    /// - 12, with the level: another root than the key's.
    ///
    /// The message is read to its end if the types are the key's, and else left as it is. No public call compares the
    /// root without the types.
    pub fn verify<M: Message>(
        &self,
        public: &LmsPublic,
        message: &mut M,
        level: u8,
    ) -> Result<(), Refusal>
        ensures { Verifies M.remaining (λ text. LevelVerdict public.now text (signature_of self.now) level)
            (LeavesMessage M.transition M.remaining) message.old message.new result }
    {
        self.check_types(public, level)?;
        let key = self.one_time_key(public);
        let digest = key.message_digest_from(self.randomizer, message);
        match digest {
            Ok(digest) => self.verify_digest(&InLanes, public, &digest, level),
            Err(_) => Err(Refusal::MessageRead),
        }
    }

    /// As `verify`, for a message in memory, such as a lower level's key, whose reading can't fail, and by a way to
    /// climb chains.
    pub fn verify_bytes_by<C: Climbing>(
        &self,
        climbing: &C,
        public: &LmsPublic,
        message: &[u8],
        level: u8,
    ) -> Result<(), Refusal>
        ensures verdict { LevelVerdict public.now message.now (signature_of self.now) level result }
        ensures read { result ≢ Err Refusal.MessageRead }
    {
        self.check_types(public, level)?;
        let key = self.one_time_key(public);
        let digest = key.message_digest(self.randomizer, message);
        self.verify_digest(climbing, public, &digest, level)
    }

    /// As `verify_bytes_by`, for a message's digest: SHA-256 of `message_prefix` and the message (RFC 8554 4.5).
    pub fn verify_digest_by<C: Climbing>(
        &self,
        climbing: &C,
        public: &LmsPublic,
        digest: &[u8; 32],
        level: u8,
    ) -> Result<(), Refusal>
        ensures verdict { (message : List ℕ) → digest.now ≡ digest_of public.now message (signature_of self.now)
            → LevelVerdict public.now message (signature_of self.now) level result }
        ensures read { result ≢ Err Refusal.MessageRead }
    {
        self.check_types(public, level)?;
        self.verify_digest(climbing, public, digest, level)
    }

    /// The root to which the signature of a message in memory leads, by a way to climb chains, at a level of an HSS
    /// signature. Refuses other types than the key's (10, with the level).
    pub fn root_by<C: Climbing>(
        &self,
        climbing: &C,
        public: &LmsPublic,
        message: &[u8],
        level: u8,
    ) -> Result<[u8; 32], Refusal>
        ensures { LevelGivesRoot public.now message.now (signature_of self.now) level result }
    {
        self.check_types(public, level)?;
        let key = self.one_time_key(public);
        let signed = key.message_digest(self.randomizer, message);
        Ok(root_from_signature(climbing, public, &signed, self))
    }

    /// The 54 bytes that are hashed before the message: I, q, D_MESG and C (RFC 8554 4.5).
    pub fn message_prefix(&self, public: &LmsPublic) -> [u8; 54]
        ensures { result ≡ prefix_of public.now (signature_of self.now) }
    {
        self.one_time_key(public).message_prefix(self.randomizer)
    }

    // 10 unless the types are the key's.
    fn check_types(&self, public: &LmsPublic, level: u8) -> Result<(), Refusal>
        ensures { MatchResult result (λ _. self.now.pair ≡ public.now.pair)
            (λ refusal. (refusal ≡ Refusal.TypeMismatch level) × (self.now.pair ≢ public.now.pair)) }
    {
        if self.pair == public.pair {
            Ok(())
        } else {
            Err(Refusal::TypeMismatch(level))
        }
    }

    // The one-time key of the signature's leaf.
    fn one_time_key(&self, public: &LmsPublic) -> LmOts
        ensures identifier { result.identifier ≡ public.now.identifier }
        ensures leaf { result.leaf ≡ self.now.q }
    {
        LmOts {
            identifier: public.identifier,
            leaf: self.q,
        }
    }

    // 12 unless the signature of a digest leads to the key's root (RFC 8554 5.4.2, step 4).
    fn verify_digest<C: Climbing>(
        &self,
        climbing: &C,
        public: &LmsPublic,
        digest: &[u8; 32],
        level: u8,
    ) -> Result<(), Refusal>
        requires { self.now.pair ≡ public.now.pair }
        ensures { DigestVerdict (IsValidFor public.now digest.now (signature_of self.now)) level result }
    {
        if root_from_signature(climbing, public, digest, self) == public.root {
            Ok(())
        } else {
            Err(Refusal::RootMismatch(level))
        }
    }
}

// The root to which a signature of a digest leads, and no other (RFC 8554 5.4.2, algorithm 6a).
fn root_from_signature<C: Climbing>(
    climbing: &C,
    public: &LmsPublic,
    digest: &[u8; 32],
    view: &LmsSigView<'_>,
) -> [u8; 32]
    ensures leads { LeadsTo public.now digest.now (signature_of view.now) result }
    ensures only { (other : List ℕ) →
        LeadsTo public.now digest.now (signature_of view.now) other → other ≡ result }
{
    let key = LmOts {
        identifier: public.identifier,
        leaf: view.q,
    };
    let public_hash = climbing.hash_from_signature(&key, view.pair.ots, digest, view.chains);
    let nodes = Nodes {
        identifier: public.identifier,
        height: view.pair.tree.height(),
    };
    let leaf = nodes.leaf(view.q, &public_hash);
    root_from_path(&nodes, view.q, &leaf, view.path)
}
