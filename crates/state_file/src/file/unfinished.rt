//! Files that are written behind a first gate, which stays closed until everything else is synced.

ghost use Rattle.std.specs.Prelude.{◌≡◌, ◌⊎◌, ◌+◌, ◌*◌, ◌<◌, ◌≤◌, ◌∷◌, [], ◌++◌, ℕ, List, IsTrue, length};
ghost use Rattle.std.specs.Prelude.{slice_range, OnOk};
ghost use Rattle.state_file.specs.Disk.{range_of, ChangesOnly, IsSynced, LeavesOnly, is_failure};
ghost use Rattle.state_file.specs.inner.DiskCalls.{CountsFailuresWithoutReads};
ghost use Rattle.state_file.specs.File.{HasNoKey, IsClosed, open_value};
ghost use Rattle.state_file.specs.Filling.{first_offsets};
ghost use Rattle.state_file.specs.inner.Filling.{IsUnfinished, after_first_gate, gate_opened};
ghost use Rattle.state_file.specs.Gates.{IsClosedAfter};
ghost use Rattle.state_file.specs.Place.{IsFreePlace};

use crate::disk::{Disk, DiskFault};
use crate::file::gates::{SLOT, block, write_synced};
use crate::slot::{CLOSED, OPEN};

/// Closes the first gate of a place under 257 bytes (`short`). Any other free place has it closed.
pub(crate) fn prepare<E: Disk>(disk: &mut E, short: bool) -> Result<(), DiskFault>
    requires { IsTrue (E.honest disk.old) → IsFreePlace short (E.state disk.old) }
    ensures closed { IsTrue (E.honest disk.old) →
        OnOk result
        (IsSynced (E.state disk.new) × IsClosed (E.state disk.new).content 0 ×
        ChangesOnly (first_offsets 1 ∷ []) (E.state disk.old).content (E.state disk.new).content) }
    ensures any_moment { IsTrue (E.honest disk.old) →
        LeavesOnly E.moment E.left_since disk.old disk.new
        (λ c. HasNoKey c × ChangesOnly (first_offsets 1 ∷ []) (E.state disk.old).content c) }
    ensures counts { CountsFailuresWithoutReads E.Disk is_failure disk.old disk.new result }
{
    if short {
        write_synced(disk, 0, &[CLOSED])
    } else {
        Ok(())
    }
}

// Writes bytes after the first gate.
fn write_after<E: Disk>(disk: &mut E, at: u64, bytes: &[u8]) -> Result<(), DiskFault>
    requires non_empty { 0 < length bytes.now }
    requires after { 1 ≤ at }
    ensures written { IsTrue (E.honest disk.old) →
        OnOk result
        (ChangesOnly (range_of at bytes.now ∷ []) (E.state disk.old).content (E.state disk.new).content ×
        (slice_range (E.state disk.new).content at (at + length bytes.now) ≡ bytes.now)) }
    ensures keeps { (end : ℕ) (base : List ℕ) → IsTrue (E.honest disk.old) → at + length bytes.now ≤ end →
        IsUnfinished end base (E.state disk.old) → IsUnfinished end base (E.state disk.new) }
    ensures any_moment { (end : ℕ) (base : List ℕ) → IsTrue (E.honest disk.old) → at + length bytes.now ≤ end →
        IsUnfinished end base (E.state disk.old) →
        LeavesOnly E.moment E.left_since disk.old disk.new (ChangesOnly (after_first_gate end ∷ []) base) }
    ensures counts { CountsFailuresWithoutReads E.Disk is_failure disk.old disk.new result }
{
    disk.write_at(at, bytes)
}

// An open gate, and what follows it.
fn gated(block: &[u8; 256]) -> [u8; 257]
    ensures { result ≡ open_value ∷ block.now }
{
    let mut bytes = [OPEN; 257];
    bytes[1..].copy_from_slice(block);
    bytes
}

/// Writes slot k with an open gate, and the next gate closed. Slot 0's gate stays closed.
pub(crate) fn write_slot<E: Disk>(
    disk: &mut E,
    k: u32,
    fields: &[u8; 223],
    tag: &[u8; 32],
) -> Result<(), DiskFault>
    ensures fields { length fields.now ≡ 223 }
    ensures tag { length tag.now ≡ 32 }
    ensures first { k ≡ 0 → IsTrue (E.honest disk.old) → IsClosed (E.state disk.old).content 0 →
        OnOk result (IsClosedAfter (open_value ∷ (fields.now ++ tag.now)) (gate_opened (E.state disk.new).content)) }
    ensures next { (front : List ℕ) → 0 < k → IsTrue (E.honest disk.old) → length front ≡ 256 * k →
        IsClosedAfter front (gate_opened (E.state disk.old).content) →
        OnOk result
        (IsClosedAfter (front ++ open_value ∷ (fields.now ++ tag.now)) (gate_opened (E.state disk.new).content)) }
    ensures keeps { (end : ℕ) (base : List ℕ) → IsTrue (E.honest disk.old) → 256 * k + 257 ≤ end →
        IsUnfinished end base (E.state disk.old) → IsUnfinished end base (E.state disk.new) }
    ensures any_moment { (end : ℕ) (base : List ℕ) → IsTrue (E.honest disk.old) → 256 * k + 257 ≤ end →
        IsUnfinished end base (E.state disk.old) →
        LeavesOnly E.moment E.left_since disk.old disk.new (ChangesOnly (after_first_gate end ∷ []) base) }
    ensures counts { CountsFailuresWithoutReads E.Disk is_failure disk.old disk.new result }
{
    let block = block(fields, tag);
    if k == 0 {
        write_after(disk, 1, &block)
    } else {
        write_after(disk, SLOT * u64::from(k), &gated(&block))
    }
}

// Syncs what was written after the first gate.
fn sync_after<E: Disk>(disk: &mut E) -> Result<(), DiskFault>
    ensures synced { (end : ℕ) (base : List ℕ) → IsTrue (E.honest disk.old) →
        IsUnfinished end base (E.state disk.old) →
        OnOk result
        (IsSynced (E.state disk.new) × ((E.state disk.new).content ≡ (E.state disk.old).content) ×
        ChangesOnly (after_first_gate end ∷ []) base (E.state disk.old).content) }
    ensures any_moment { (end : ℕ) (base : List ℕ) → IsTrue (E.honest disk.old) →
        IsUnfinished end base (E.state disk.old) →
        LeavesOnly E.moment E.left_since disk.old disk.new (ChangesOnly (after_first_gate end ∷ []) base) }
    ensures counts { CountsFailuresWithoutReads E.Disk is_failure disk.old disk.new result }
{
    disk.sync()
}

/// Syncs what was written after the first gate, and then opens it.
pub(crate) fn finish<E: Disk>(disk: &mut E) -> Result<(), DiskFault>
    ensures finished { (end : ℕ) (base : List ℕ) → IsTrue (E.honest disk.old) → IsClosed base 0 →
        IsUnfinished end base (E.state disk.old) →
        OnOk result
        (IsSynced (E.state disk.new) × ((E.state disk.new).content ≡ gate_opened (E.state disk.old).content)) }
    ensures any_moment { (end : ℕ) (base : List ℕ) → IsTrue (E.honest disk.old) → IsClosed base 0 → 1 ≤ end →
        IsUnfinished end base (E.state disk.old) →
        LeavesOnly E.moment E.left_since disk.old disk.new
        (λ c. (HasNoKey c ⊎ (c ≡ gate_opened (E.state disk.old).content)) ×
        ChangesOnly (first_offsets end ∷ []) base c) }
    ensures counts { CountsFailuresWithoutReads E.Disk is_failure disk.old disk.new result }
{
    sync_after(disk)?;
    write_synced(disk, 0, &[OPEN])
}
