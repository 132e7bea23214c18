//! Slots that are read 256 at a time.

ghost use Rattle.std.specs.Prelude.{◌≡◌, ◌+◌, ◌*◌, ◌%◌, ◌<◌, ◌==◌, IsTrue, IfOk, OnOk, slice_index};
ghost use Rattle.state_file.specs.Disk.{is_failure};
ghost use Rattle.state_file.specs.File.{fields_at, open_value, tag_at};
ghost use Rattle.state_file.specs.inner.DiskCalls.{ReadsDisk};
ghost use Rattle.state_file.specs.inner.Opening.{HasPiece, IsLengthOf};

use crate::disk::{Disk, DiskFault};
use crate::file::gates::{SLOT, read_within};
use crate::slot::is_open;

/// A piece's length in bytes: 256 slots.
pub(crate) const PIECE: usize = 1 << 16;

const SLOTS: u32 = 256;

/// A slot's bytes after its gate.
#[derive(Drop)]
pub(crate) struct Body {
    pub(crate) fields: [u8; 223],
    pub(crate) tag: [u8; 32],
}

/// Whether slot k's gate is open. If k is the first slot of a piece, the piece is read, as far as the file goes; else
/// the buffer has it already.
pub(crate) fn read_gate<D: Disk>(
    disk: &mut D,
    len: u64,
    k: u32,
    piece: &mut [u8; PIECE],
) -> Result<bool, DiskFault>
    requires len { IsLengthOf D.Disk disk.old len }
    requires within { 256 * k < len }
    requires held { IsTrue (D.honest disk.old) → 0 < k % 256 → HasPiece (D.state disk.old).content k piece.old }
    ensures held { IsTrue (D.honest disk.old) → OnOk result (HasPiece (D.state disk.old).content k piece.new) }
    ensures gate { IsTrue (D.honest disk.old) →
        IfOk result (λ opened. opened ≡ (slice_index (D.state disk.old).content (256 * k) == open_value)) }
    ensures reads { ReadsDisk D.Disk is_failure disk.old disk.new result }
{
    hold_piece(disk, len, k, piece)?;
    Ok(is_open(piece[offset_in_piece(k)]))
}

// Reads slot k's piece into the buffer, if k is its first slot.
fn hold_piece<D: Disk>(
    disk: &mut D,
    len: u64,
    k: u32,
    piece: &mut [u8; PIECE],
) -> Result<(), DiskFault>
    requires len { IsLengthOf D.Disk disk.old len }
    requires within { 256 * k < len }
    requires held { IsTrue (D.honest disk.old) → 0 < k % 256 → HasPiece (D.state disk.old).content k piece.old }
    ensures held { IsTrue (D.honest disk.old) → OnOk result (HasPiece (D.state disk.old).content k piece.new) }
    ensures reads { ReadsDisk D.Disk is_failure disk.old disk.new result }
{
    if k % SLOTS > 0 {
        return Ok(());
    }
    read_piece(disk, len, k, piece)
}

// Reads the piece whose first slot this is, as far as the file goes.
fn read_piece<D: Disk>(
    disk: &mut D,
    len: u64,
    first: u32,
    piece: &mut [u8; PIECE],
) -> Result<(), DiskFault>
    requires len { IsLengthOf D.Disk disk.old len }
    requires within { 256 * first < len }
    requires first { first % 256 ≡ 0 }
    ensures held { IsTrue (D.honest disk.old) → OnOk result (HasPiece (D.state disk.old).content first piece.new) }
    ensures reads { ReadsDisk D.Disk is_failure disk.old disk.new result }
{
    let at = SLOT * u64::from(first);
    let n = (len - at).min(PIECE as u64) as usize;
    read_within(disk, at, &mut piece[..n])
}

// Where slot k's gate is in its piece.
fn offset_in_piece(k: u32) -> usize
    ensures { result ≡ 256 * (k % 256) }
{
    256 * (k % SLOTS) as usize
}

/// Bytes 1 to 255 of slot k, from its piece.
pub(crate) fn body_in_piece(piece: &[u8; PIECE], k: u32) -> Body
    ensures fields { result.fields ≡ fields_at piece.now (k % 256) }
    ensures tag { result.tag ≡ tag_at piece.now (k % 256) }
{
    let gate = offset_in_piece(k);
    let mut fields = [0; 223];
    fields.copy_from_slice(&piece[gate + 1..gate + 224]);
    let mut tag = [0; 32];
    tag.copy_from_slice(&piece[gate + 224..gate + 256]);
    Body { fields, tag }
}
