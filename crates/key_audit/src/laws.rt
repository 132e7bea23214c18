//! Laws of tags, of audits, of listings and of given signatures. The functions do nothing: their contracts are theorems
//! about every list of records, or about all calls of a signer.

ghost use Rattle.key_audit.specs.Audit.{AuditLaw};
ghost use Rattle.key_audit.specs.Listing.{ListingLaw, ReportLaw};
ghost use Rattle.key_audit.specs.Runs.{MovedRunsLaw, RunsLaw};
ghost use Rattle.key_audit.specs.Signatures.{CountLaw};
ghost use Rattle.key_audit.specs.Tags.{TagLaw};

use sign_core::{Source, headline_law};
use state_file::{Disk, FileStore, Store};
use typecodes::Message;

/// Laws of tags. Whoever keeps the number of records and the last tag can tell later whether a file still has them:
///
/// - `one`: the records up to a record decide its tag.
/// - `stands`: this is its slot's tag, in every content that spells the records.
/// - `lasts`: it stays, whatever records follow.
pub fn tag_laws()
    ensures { TagLaw }
{}

/// Laws of audits, by the records alone:
///
/// - `accepts`: legal records that fit the anchor are refused only where the store had stopped, its disk fails, or
///   memory is refused.
/// - `anchors`: a report is an anchor that its records fit, whatever records follow.
/// - `put_back`: no proper beginning of them fits it.
pub fn audit_laws()
    ensures { AuditLaw }
{}

/// Lists of records that differ only in seeds, of a key or of its trees, show the same.
// Requirement: RFC 8554 6, private
pub fn listing_law()
    ensures { ListingLaw }
{}

/// An accepting audit reports the same of lists of records that differ only in seeds, but for the tag, a hash of whole
/// slots. So the public key that it shows depends on no secret but by the recorded root.
pub fn report_law()
    ensures { ReportLaw }
{}

/// `count_signatures` counts what `sign_core::left_law` speaks of: each new name that is signed takes one, a retiring
/// its leaves. After a Moved it is 0, and the signer answers 31. Else an open signer answers 22 to a short new name
/// exactly at 0.
pub fn count_law()
    ensures { CountLaw }
{}

/// What one signer handed out passes every check: `check_given` refuses it for want of memory alone (46).
///
/// The signer's calls are those of `headline_law`, in the lives of one disk, and of another to which the key was moved.
/// Whichever of their signatures are given, with the texts that were read, each is valid and no two use one leaf for
/// different digests. So at 61 not all are theirs: a second signer or an old copy signed, the disk lost what it had
/// synced, or one is forged.
pub fn runs_law<D: Disk + Drop, E: Disk + Drop, R: Source, M: Message>()
    ensures calls { RunsLaw D.Disk E.Disk ⟦<FileStore<D> as Store>⟧ R.Source }
    ensures moved { MovedRunsLaw D.Disk E.Disk ⟦<FileStore<D> as Store>⟧ ⟦<FileStore<E> as Store>⟧ R.Source }
{
    headline_law::<D, E, R, M>();
}
