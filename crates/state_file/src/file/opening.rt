//! Reading a file's slots, up to the first closed gate.

ghost use Rattle.std.specs.Prelude.{◌≡◌, ◌+◌, ◌*◌, ◌-◌, ◌<◌, ◌≤◌, ◌∷◌, [], ◌++◌, ◌↔◌, ℕ, List, false, IsTrue};
ghost use Rattle.std.specs.Prelude.{IfErr, IfOk, OnOk, MatchOption, Some, length};
ghost use Rattle.typecodes.specs.Layout.{Spells};
ghost use Rattle.state_file.specs.File.{MayHaveKey, fields_at, first_tag, most_records, previous_tag, tag_at, tag_of};
ghost use Rattle.state_file.specs.Laws.{has_moved, is_moved};
ghost use Rattle.state_file.specs.Slot.{slot_record};
ghost use Rattle.state_file.specs.declared.record.Record.{Record as Entry};
ghost use Rattle.state_file.specs.Disk.{settled, MayLeave, LeavesOnly, is_failure};
ghost use Rattle.state_file.specs.DiskCalls.{CountsFailures};
ghost use Rattle.state_file.specs.inner.DiskCalls.{ReadsDisk};
ghost use Rattle.state_file.specs.Opening.{KeepsContent, is_failed_opening};
ghost use Rattle.state_file.specs.inner.Opening.{HasBytes, HasEntry, HasSlot, IsFound, IsLengthOf, IsReached};
ghost use Rattle.state_file.specs.inner.Opening.{ReportsDisk, ReportsSlot, StartsWithKey};

use crate::disk::{Disk, DiskFault};
use crate::file::gates::{SLOT, read_within, sync_and_len};
use crate::file::piece::{Body, PIECE, body_in_piece, read_gate};
use crate::file::taker::Taker;
use crate::record::{Record, RecordList, Version};
use crate::slot::{FIRST_TAG, begins_key, is_open, read_record, tag, version_of};
use thiserror::Error;

/// The greatest number of records in a file.
pub(crate) const MOST: u32 = 1 << 31;

/// Why a place isn't opened.
#[derive(Clone, Copy, Debug, PartialEq, Eq, Error)]
pub enum OpenFault {
    /// 40: there is no key: under 257 bytes, or the first gate is closed.
    #[error("there is no key")]
    NoKey,
    /// 41: the first slot holds no Key.
    #[error("the file is no key file")]
    NotKeyFile,
    /// 42: the Key's version isn't known.
    #[error("the version of the key file is not known")]
    Version,
    /// 43: this slot is the first damaged one. Its gate is open, and it spells no record, its tag is wrong, or the next
    /// gate lies past the end.
    #[error("slot {0} is damaged")]
    Damaged(u32),
    /// 45: the device failed.
    #[error("the device failed")]
    DeviceFailed,
}

impl OpenFault {
    ghost use Rattle.state_file.specs.Opening.{open_fault_name, open_fault_number};

    /// The number that reports the fault: 40 to 43 or 45.
    pub fn number(self) -> u8
        ensures { result ≡ open_fault_number self }
    {
        match self {
            OpenFault::NoKey => 40,
            OpenFault::NotKeyFile => 41,
            OpenFault::Version => 42,
            OpenFault::Damaged(_) => 43,
            OpenFault::DeviceFailed => 45,
        }
    }

    /// The name that is printed beside the number.
    pub fn name(self) -> &'static str
        ensures { result.now ≡ open_fault_name self }
    {
        match self {
            OpenFault::NoKey => "NoKey",
            OpenFault::NotKeyFile => "NotKeyFile",
            OpenFault::Version => "Version",
            OpenFault::Damaged(_) => "Damaged",
            OpenFault::DeviceFailed => "DeviceFailed",
        }
    }
}

impl From<DiskFault> for OpenFault {
    ghost use Rattle.state_file.specs.declared.file.opening.OpenFault.TheVariants.{DeviceFailed};

    ghost from_gives = { λ _ e. e ≡ DeviceFailed };

    fn from(_: DiskFault) -> Self {
        OpenFault::DeviceFailed
    }
}

/// A file's length, version and records. `moved`: the last record is a Moved; `tag`: its tag.
#[derive(Drop)]
pub(crate) struct Found {
    pub(crate) len: u64,
    pub(crate) version: Version,
    pub(crate) count: u32,
    pub(crate) moved: bool,
    pub(crate) tag: [u8; 32],
    pub(crate) records: RecordList,
}

#[derive(Drop)]
struct Slot {
    entry: Record,
    tag: [u8; 32],
}

// Bytes 1 to 223 of slot k.
fn read_fields<D: Disk>(disk: &mut D, k: u32) -> Result<[u8; 223], DiskFault>
    requires { HasBytes D.Disk disk.old (256 * k + 224) }
    ensures fields { IsTrue (D.honest disk.old) →
        IfOk result (λ fields. fields ≡ fields_at (D.state disk.old).content k) }
    ensures reads { ReadsDisk D.Disk is_failure disk.old disk.new result }
{
    let mut fields = [0; 223];
    read_within(disk, SLOT * u64::from(k) + 1, &mut fields)?;
    Ok(fields)
}

/// Bytes 224 to 255 of slot k.
pub(crate) fn read_tag<D: Disk>(disk: &mut D, k: u32) -> Result<[u8; 32], DiskFault>
    requires { HasBytes D.Disk disk.old (256 * k + 256) }
    ensures tag { IsTrue (D.honest disk.old) → IfOk result (λ tag. tag ≡ tag_at (D.state disk.old).content k) }
    ensures reads { ReadsDisk D.Disk is_failure disk.old disk.new result }
{
    let mut tag = [0; 32];
    read_within(disk, SLOT * u64::from(k) + 224, &mut tag)?;
    Ok(tag)
}

// Bytes 1 to 255 of slot k.
fn read_body<D: Disk>(disk: &mut D, k: u32) -> Result<Body, DiskFault>
    requires { HasBytes D.Disk disk.old (256 * k + 256) }
    ensures fields { IsTrue (D.honest disk.old) →
        IfOk result (λ body. body.fields ≡ fields_at (D.state disk.old).content k) }
    ensures tag { IsTrue (D.honest disk.old) → IfOk result (λ body. body.tag ≡ tag_at (D.state disk.old).content k) }
    ensures reads { ReadsDisk D.Disk is_failure disk.old disk.new result }
{
    let fields = read_fields(disk, k)?;
    let tag = read_tag(disk, k)?;
    Ok(Body { fields, tag })
}

// The tag before slot k: the previous slot's, or `FIRST_TAG`.
fn read_previous_tag<D: Disk>(disk: &mut D, k: u32) -> Result<[u8; 32], DiskFault>
    requires { HasBytes D.Disk disk.old (256 * k) }
    ensures tag { IsTrue (D.honest disk.old) → IfOk result (λ tag. tag ≡ previous_tag (D.state disk.old).content k) }
    ensures reads { ReadsDisk D.Disk is_failure disk.old disk.new result }
{
    match k.checked_sub(1) {
        None => Ok(FIRST_TAG),
        Some(before) => read_tag(disk, before),
    }
}

/// Slot k's record, if its fields spell one of this version and its tag is right.
pub(crate) fn read_entry<D: Disk>(
    disk: &mut D,
    version: Version,
    k: u32,
) -> Result<Option<Record>, DiskFault>
    requires { HasBytes D.Disk disk.old (256 * k + 256) }
    ensures entry { IsTrue (D.honest disk.old) → IfOk result (HasEntry version (D.state disk.old).content k) }
    ensures reads { ReadsDisk D.Disk is_failure disk.old disk.new result }
{
    let previous = read_previous_tag(disk, k)?;
    let body = read_body(disk, k)?;
    Ok(entry_of(version, &previous, &body))
}

// Slot k's record and tag, from its piece. `previous` is the tag before it. `Damaged(k)` if the slot is damaged.
fn slot_in_piece(
    piece: &[u8; PIECE],
    len: u64,
    version: Version,
    k: u32,
    previous: &[u8; 32],
) -> Result<Slot, OpenFault>
    ensures below_limit { OnOk result (k < most_records) }
    ensures ends { OnOk result (256 * (k + 1) < len) }
    ensures slot { (content : List ℕ) → IsReached content len piece.now k previous.now →
        IfOk result (λ slot. HasSlot version content k slot.entry slot.tag) }
    ensures fault { (content : List ℕ) → IsReached content len piece.now k previous.now →
        IfErr result (ReportsSlot version content k) }
    ensures only_damaged { IfErr result (λ fault. is_failed_opening fault ≡ false) }
{
    if k >= MOST || SLOT * (u64::from(k) + 1) >= len {
        return Err(OpenFault::Damaged(k));
    }
    let body = body_in_piece(piece, k);
    match entry_of(version, previous, &body) {
        Some(entry) => Ok(Slot {
            entry,
            tag: body.tag,
        }),
        None => Err(OpenFault::Damaged(k)),
    }
}

// The body's record, if its fields spell one of this version and its tag equals `tag(previous, fields)`.
fn entry_of(version: Version, previous: &[u8; 32], body: &Body) -> Option<Record>
    ensures { MatchOption result
        ((entry : Entry) → Spells (slot_record version) entry body.now.fields →
        body.now.tag ≡ tag_of previous.now body.now.fields → ⊥)
        (λ entry. Spells (slot_record version) entry body.now.fields ×
        (body.now.tag ≡ tag_of previous.now body.now.fields)) }
{
    if body.tag == tag(previous, &body.fields) {
        read_record(version, &body.fields)
    } else {
        None
    }
}

// The first slot's fields, if there are 257 bytes and its gate is open.
fn read_first_fields<D: Disk>(disk: &mut D, len: u64) -> Result<[u8; 223], OpenFault>
    requires len { IsLengthOf D.Disk disk.old len }
    ensures may { IsTrue (D.honest disk.old) → OnOk result (MayHaveKey (D.state disk.old).content) }
    ensures fields { IsTrue (D.honest disk.old) →
        IfOk result (λ fields. fields ≡ fields_at (D.state disk.old).content 0) }
    ensures fault { ReportsDisk D.Disk disk.old result }
    ensures reads { ReadsDisk D.Disk is_failed_opening disk.old disk.new result }
    ensures long { OnOk result (257 ≤ len) }
{
    if len < SLOT + 1 {
        return Err(OpenFault::NoKey);
    }
    let mut bytes = [0; 224];
    read_within(disk, 0, &mut bytes)?;
    if !is_open(bytes[0]) {
        return Err(OpenFault::NoKey);
    }
    let mut fields = [0; 223];
    fields.copy_from_slice(&bytes[1..]);
    Ok(fields)
}

// The version of the Key in the first slot. Refused where there is none (40, 41), or an unknown version (42).
fn check_key<D: Disk>(disk: &mut D, len: u64) -> Result<Version, OpenFault>
    requires len { IsLengthOf D.Disk disk.old len }
    ensures key { IsTrue (D.honest disk.old) →
        IfOk result (λ version. StartsWithKey version (D.state disk.old).content) }
    ensures fault { ReportsDisk D.Disk disk.old result }
    ensures reads { ReadsDisk D.Disk is_failed_opening disk.old disk.new result }
    ensures long { OnOk result (257 ≤ len) }
{
    let fields = read_first_fields(disk, len)?;
    if !begins_key(&fields) {
        return Err(OpenFault::NotKeyFile);
    }
    version_of(&fields).ok_or(OpenFault::Version)
}

impl Found {
    fn none(len: u64, version: Version) -> Self
        ensures none { (result.count ≡ 0) × (result.tag ≡ first_tag) × (result.records ≡ []) }
        ensures moved { result.moved ≡ has_moved result.records }
        ensures version { result.version ≡ version }
        ensures len { result.len ≡ len }
    {
        Found {
            len,
            version,
            count: 0,
            moved: false,
            tag: FIRST_TAG,
            records: RecordList::new(),
        }
    }

    // Adds the slot's record, which the taker is handed.
    fn push<T: Taker>(&mut self, slot: &Slot, taker: &mut T)
        requires { self.old.count < most_records }
        ensures taken { T.taken taker.new ≡ T.taken taker.old ++ slot.now.entry ∷ [] }
        ensures count { self.new.count ≡ self.old.count + 1 }
        ensures tag { self.new.tag ≡ slot.now.tag }
        ensures records { self.new.records ≡ self.old.records ++ slot.now.entry ∷ [] }
        ensures moved { self.new.moved ≡ is_moved (Some slot.now.entry) }
        ensures version { self.new.version ≡ self.old.version }
        ensures len { self.new.len ≡ self.old.len }
    {
        taker.take(&slot.entry);
        self.count += 1;
        self.moved = slot.entry.is_moved();
        self.tag = slot.tag;
        self.records.push(&slot.entry);
    }

    /// Whether the file has bytes behind what an append to these records can have left: slot N, and the gate after it.
    pub(crate) fn has_bytes_behind(&self) -> bool
        requires { self.now.count ≤ most_records }
        ensures { IsTrue result ↔ (256 * (self.now.count + 1) + 1 < self.now.len) }
    {
        self.len > SLOT * (u64::from(self.count) + 1) + 1
    }
}

// The records up to the first closed gate, read 256 slots at a time. The taker is handed each of them.
fn read_slots<D: Disk, T: Taker>(
    disk: &mut D,
    len: u64,
    version: Version,
    taker: &mut T,
) -> Result<Found, OpenFault>
    requires len { IsLengthOf D.Disk disk.old len }
    requires long { 257 ≤ len }
    requires key { IsTrue (D.honest disk.old) → StartsWithKey version (D.state disk.old).content }
    ensures counted { IfOk result (λ found. found.count ≡ length found.records) }
    ensures at_most_limit { IfOk result (λ found. found.count ≤ most_records) }
    ensures moved { IfOk result (λ found. found.moved ≡ has_moved found.records) }
    ensures len { IfOk result (λ found. found.len ≡ len) }
    ensures taken { IfOk result (λ found. T.taken taker.new ≡ T.taken taker.old ++ found.records) }
    ensures found { IsTrue (D.honest disk.old) →
        IfOk result (λ found. IsFound found.version (D.state disk.old).content found.records found.tag) }
    ensures fault { ReportsDisk D.Disk disk.old result }
    ensures reads { ReadsDisk D.Disk is_failed_opening disk.old disk.new result }
{
    let mut found = Found::none(len, version);
    let mut piece = [0; PIECE];
    while read_gate(disk, len, found.count, &mut piece)? {
        let slot = slot_in_piece(&piece, len, version, found.count, &found.tag)?;
        found.push(&slot, taker);
    }
    Ok(found)
}

/// Syncs, and finds a file's records. The taker is handed each of them. Meanwhile a crash leaves only what it could
/// leave before.
pub(crate) fn find_records<D: Disk, T: Taker>(
    disk: &mut D,
    taker: &mut T,
) -> Result<Found, OpenFault>
    ensures counted { IfOk result (λ found. found.count ≡ length found.records) }
    ensures at_most_limit { IfOk result (λ found. found.count ≤ most_records) }
    ensures moved { IfOk result (λ found. found.moved ≡ has_moved found.records) }
    ensures len { IsTrue (D.honest disk.old) → IfOk result (λ found. found.len ≡ length (D.state disk.old).content) }
    ensures taken { IfOk result (λ found. T.taken taker.new ≡ T.taken taker.old ++ found.records) }
    ensures found { IsTrue (D.honest disk.old) →
        IfOk result (λ found. IsFound found.version (D.state disk.old).content found.records found.tag) }
    ensures fault { ReportsDisk D.Disk disk.old result }
    ensures synced { IsTrue (D.honest disk.old) → OnOk result (D.state disk.new ≡ settled (D.state disk.old).content) }
    ensures keeps_content { IsTrue (D.honest disk.old) →
        IfErr result (KeepsContent (D.state disk.old).content (D.state disk.new)) }
    ensures any_moment { IsTrue (D.honest disk.old) →
        LeavesOnly D.moment D.left_since disk.old disk.new (MayLeave (D.state disk.old)) }
    ensures counts { CountsFailures D.Disk is_failed_opening disk.old disk.new result }
{
    let len = sync_and_len(disk)?;
    let version = check_key(disk, len)?;
    read_slots(disk, len, version, taker)
}
