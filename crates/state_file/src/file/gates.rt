//! Slots on a disk, added so that a crash never leaves half a slot.

ghost use Rattle.std.specs.Prelude.{◌≡◌, ◌⊎◌, ◌+◌, ◌*◌, ◌<◌, ◌≤◌, ◌∷◌, [], ◌++◌, ℕ, List, IsTrue};
ghost use Rattle.std.specs.Prelude.{length, slice_range, IfOk, OnOk};
ghost use Rattle.state_file.specs.File.{open_value};
ghost use Rattle.state_file.specs.Disk.{settled, range_of, ChangesOnly, IsSteady, IsSynced, LeavesOnly, MayLeave};
ghost use Rattle.state_file.specs.Disk.{is_failure};
ghost use Rattle.state_file.specs.inner.DiskCalls.{CountsFailuresWithoutReads, ReadsDisk};
ghost use Rattle.state_file.specs.Gates.{AddsSlot, IsClosedAfter, IsAtRest, slot_and_gate};

use crate::disk::{Disk, DiskFault};
use crate::slot::{CLOSED, OPEN};

/// A slot's length in bytes.
pub(crate) const SLOT: u64 = 256;

/// Reads bytes that are known to be there.
pub(crate) fn read_within<D: Disk>(disk: &mut D, at: u64, into: &mut [u8]) -> Result<(), DiskFault>
    requires steady { IsTrue (D.honest disk.old) → IsSteady (D.state disk.old) }
    requires within { IsTrue (D.honest disk.old) → at + length into.old ≤ length (D.state disk.old).content }
    requires non_empty { 0 < length into.old }
    ensures bytes { IsTrue (D.honest disk.old) →
        OnOk result (into.new ≡ slice_range (D.state disk.old).content at (at + length into.old)) }
    ensures reads { ReadsDisk D.Disk is_failure disk.old disk.new result }
{
    disk.read_at(at, into)
}

pub(crate) fn write_synced<D: Disk>(disk: &mut D, at: u64, bytes: &[u8]) -> Result<(), DiskFault>
    requires { 0 < length bytes.now }
    ensures written { IsTrue (D.honest disk.old) →
        OnOk result
        (IsSynced (D.state disk.new) ×
        ChangesOnly (range_of at bytes.now ∷ []) (D.state disk.old).content (D.state disk.new).content ×
        (slice_range (D.state disk.new).content at (at + length bytes.now) ≡ bytes.now)) }
    ensures any_moment { IsTrue (D.honest disk.old) → IsSynced (D.state disk.old) →
        LeavesOnly D.moment D.left_since disk.old disk.new
        (ChangesOnly (range_of at bytes.now ∷ []) (D.state disk.old).content) }
    ensures counts { CountsFailuresWithoutReads D.Disk is_failure disk.old disk.new result }
{
    disk.write_at(at, bytes)?;
    disk.sync()
}

/// Adds slot `slot` after the others. Its fields and tag, and a closed gate after them, are synced before its own gate
/// is opened.
pub(crate) fn add_slot<D: Disk>(
    disk: &mut D,
    slot: u32,
    fields: &[u8; 223],
    tag: &[u8; 32],
) -> Result<(), DiskFault>
    ensures fields { length fields.now ≡ 223 }
    ensures tag { length tag.now ≡ 32 }
    ensures added { (front : List ℕ) → IsTrue (D.honest disk.old) → IsAtRest front (D.state disk.old) →
        length front ≡ 256 * slot →
        OnOk result (IsAtRest (front ++ open_value ∷ (fields.now ++ tag.now)) (D.state disk.new)) }
    ensures adds { IsTrue (D.honest disk.old) →
        OnOk result (AddsSlot slot (D.state disk.old).content (D.state disk.new)) }
    ensures bytes { IsTrue (D.honest disk.old) → IsSynced (D.state disk.old) →
        LeavesOnly D.moment D.left_since disk.old disk.new
        (ChangesOnly (slot_and_gate slot ∷ []) (D.state disk.old).content) }
    ensures any_moment { (front : List ℕ) → IsTrue (D.honest disk.old) → IsAtRest front (D.state disk.old) →
        length front ≡ 256 * slot →
        LeavesOnly D.moment D.left_since disk.old disk.new
        (λ c. IsClosedAfter front c ⊎ IsClosedAfter (front ++ open_value ∷ (fields.now ++ tag.now)) c) }
    ensures counts { CountsFailuresWithoutReads D.Disk is_failure disk.old disk.new result }
{
    let gate = SLOT * u64::from(slot);
    write_synced(disk, gate + 1, &block(fields, tag))?;
    write_synced(disk, gate, &[OPEN])
}

// The fields of a slot, its tag, and a closed gate after them.
pub(crate) fn block(fields: &[u8; 223], tag: &[u8; 32]) -> [u8; 256]
    ensures bytes { result ≡ (fields.now ++ tag.now) ++ 0 ∷ [] }
    ensures body { length (fields.now ++ tag.now) ≡ 255 }
{
    let mut bytes = [CLOSED; 256];
    copy_both(&mut bytes[..255], fields, tag);
    bytes
}

fn copy_both(into: &mut [u8], first: &[u8], second: &[u8])
    requires { length into.old ≡ length first.now + length second.now }
    ensures { into.new ≡ first.now ++ second.now }
{
    into[..first.len()].copy_from_slice(first);
    into[first.len()..].copy_from_slice(second);
}

/// Syncs, and gives the length. Meanwhile a crash leaves only what it could leave before.
pub(crate) fn sync_and_len<D: Disk>(disk: &mut D) -> Result<u64, DiskFault>
    ensures settled { IsTrue (D.honest disk.old) →
        IfOk result
        (λ len. (D.state disk.new ≡ settled (D.state disk.old).content) × (len ≡ length (D.state disk.old).content)) }
    ensures any_moment { IsTrue (D.honest disk.old) →
        LeavesOnly D.moment D.left_since disk.old disk.new (MayLeave (D.state disk.old)) }
    ensures counts { CountsFailuresWithoutReads D.Disk is_failure disk.old disk.new result }
{
    disk.sync()?;
    disk.len()
}
