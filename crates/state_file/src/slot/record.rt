//! Reading and writing bytes 1 to 223 of a slot, for records of every kind.

ghost use Rattle.std.specs.Prelude.{◌≡◌, ◌<◌, ◌≤◌, ◌+◌, ◌^◌, MatchOption};
ghost use Rattle.arrayvec.specs.ArrayVec.{array_vec_len};
ghost use Rattle.typecodes.specs.Layout.{Spells};
ghost use Rattle.typecodes.specs.Cursor.{read, Gives, Reads};
ghost use Rattle.state_file.specs.declared.record.Record.{Record as Entry};
ghost use Rattle.state_file.specs.inner.Fields.{Advances, Puts};
ghost use Rattle.state_file.specs.Slot.{FitsVersion, fields_of, moved_fields, retire_fields, slot_record};
ghost use Rattle.state_file.specs.inner.Slot.{kind_of};

use crate::record::{Record, Version};
use crate::slot::bound::{put_bound, read_bound};
use crate::slot::extend::{put_extend, read_extend};
use crate::slot::fields::{
    Fields, no_record, put_byte, put_exactly, put_number, put_zeros, read_byte, read_exactly,
    read_zeros,
};
use crate::slot::key::{put_key, read_key};
use arrayvec::ArrayVec;
use typecodes::{Cursor, ReadFault};

// A Retire's fields, 222 bytes.
#[tactic(auto, using(typecodes::proofs::Steps::reading), unfolding(crate::specs::Slot::retire_fields))]
fn read_retire(cursor: &mut Cursor<'_>) -> Result<Record, ReadFault>
    requires { cursor.old.place + 222 < 2 ^ 32 }
    ensures read { Gives (λ entry. (entry, cursor.new.place)) result
        (read retire_fields cursor.old.bytes.now cursor.old.place) }
    ensures passes { Advances 222 result cursor.old cursor.new }
{
    let upto = cursor.number()?;
    read_zeros(cursor, 218)?;
    Ok(Record::Retire { upto })
}

fn put_retire(out: &mut Fields, upto: u32)
    requires { array_vec_len out.old + 222 ≤ 223 }
    ensures { Puts 222 retire_fields (Record.Retire upto) out.old out.new }
{
    put_number(out, upto);
    put_zeros(out, 218);
}

// A Moved's fields, 222 bytes.
#[tactic(auto, using(typecodes::proofs::Steps::reading), unfolding(crate::specs::Slot::moved_fields))]
fn read_moved(cursor: &mut Cursor<'_>) -> Result<Record, ReadFault>
    requires { cursor.old.place + 222 < 2 ^ 32 }
    ensures read { Gives (λ entry. (entry, cursor.new.place)) result
        (read moved_fields cursor.old.bytes.now cursor.old.place) }
    ensures passes { Advances 222 result cursor.old cursor.new }
{
    read_exactly(cursor, &[0, 2])?;
    read_zeros(cursor, 220)?;
    Ok(Record::Moved)
}

fn put_moved(out: &mut Fields)
    requires { array_vec_len out.old + 222 ≤ 223 }
    ensures { Puts 222 moved_fields Record.Moved out.old out.new }
{
    put_exactly(out, &[0, 2]);
    put_zeros(out, 220);
}

fn kind(entry: &Record) -> u8
    ensures { result ≡ kind_of entry.now }
{
    match entry {
        Record::Key(_) => 1,
        Record::Extend(_) => 2,
        Record::Bound(_) => 3,
        Record::Retire { upto: _ } => 4,
        Record::Moved => 5,
    }
}

// A record's fields, by its kind, whose byte stands before the cursor.
fn read_fields(cursor: &mut Cursor<'_>, version: Version, kind: u8) -> Result<Record, ReadFault>
    requires after_kind { 1 ≤ cursor.old.place }
    requires room { cursor.old.place + 222 < 2 ^ 32 }
    ensures read { Gives (λ entry. (entry, cursor.new.place)) result
        (read (fields_of version kind) cursor.old.bytes.now cursor.old.place) }
    ensures passes { Advances 222 result cursor.old cursor.new }
{
    match kind {
        1 => read_key(cursor, version),
        2 => read_extend(cursor),
        3 => read_bound(cursor, version),
        4 => read_retire(cursor),
        5 => read_moved(cursor),
        _ => Err(no_record(cursor.place - 1)),
    }
}

// Appends a record's fields, without its kind.
fn put_fields(out: &mut Fields, version: Version, entry: &Record)
    requires fits { FitsVersion version entry.now }
    requires room { array_vec_len out.old + 222 ≤ 223 }
    ensures { Puts 222 (fields_of version (kind_of entry.now)) entry.now out.old out.new }
{
    match entry {
        Record::Key(key) => put_key(out, key),
        Record::Extend(extend) => put_extend(out, extend),
        Record::Bound(bound) => put_bound(out, bound, version),
        Record::Retire { upto } => put_retire(out, *upto),
        Record::Moved => put_moved(out),
    }
}

#[tactic(auto, using(crate::proofs::Blocks::whole), unfolding(crate::specs::Slot::slot_record))]
fn read_all(version: Version, bytes: &[u8]) -> Result<Record, ReadFault>
    ensures { Reads (slot_record version) (λ entry. entry) bytes.now result }
{
    let mut cursor = Cursor::new(bytes);
    let kind = read_byte(&mut cursor)?;
    let entry = read_fields(&mut cursor, version, kind)?;
    cursor.end()?;
    Ok(entry)
}

/// The record in a slot's bytes 1 to 223, if they spell one of this version.
pub(crate) fn read_record(version: Version, bytes: &[u8]) -> Option<Record>
    ensures { MatchOption result ((entry : Entry) → Spells (slot_record version) entry bytes.now →
        ⊥) (λ entry. Spells (slot_record version) entry bytes.now) }
{
    read_all(version, bytes).ok()
}

/// Bytes 1 to 223 of the record's slot, in this version.
pub(crate) fn record_bytes(version: Version, entry: &Record) -> [u8; 223]
    requires { FitsVersion version entry.now }
    ensures { Spells (slot_record version) entry.now result }
{
    let mut out = ArrayVec::new();
    put_byte(&mut out, kind(entry));
    put_fields(&mut out, version, entry);
    match out.into_inner() {
        Ok(bytes) => bytes,
        Err(_) => unreachable!(),
    }
}
