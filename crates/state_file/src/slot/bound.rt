//! Reading and writing a Bound.

ghost use Rattle.std.specs.Prelude.{◌≡◌, ◌<◌, ◌≤◌, ◌+◌, ◌^◌, true, false, length, MatchOption};
ghost use Rattle.arrayvec.specs.ArrayVec.{array_vec_len};
ghost use Rattle.typecodes.specs.Cursor.{read, Gives};
ghost use Rattle.state_file.specs.inner.Fields.{Advances, Puts};
ghost use Rattle.state_file.specs.Slot.{are_visible, bound_fields, name_field, name_most};

use crate::record::{Bound, Record, Version};
use crate::slot::fields::{
    Fields, no_record, put, put_array, put_byte_within, put_number, put_zeros, read_byte_within,
    read_zeros,
};
use typecodes::{Cursor, Name, ReadFault};

fn visible_name(bytes: &[u8]) -> Option<Name>
    requires non_empty { 1 ≤ length bytes.now }
    requires at_most_128 { length bytes.now ≤ 128 }
    ensures { MatchOption result (are_visible bytes.now ≡ false) (λ name. (are_visible bytes.now ≡ true) ×
        (name ≡ bytes.now)) }
{
    Name::new(bytes).ok()
}

// A name's length, its bytes, and zeros up to `most` bytes.
#[tactic(auto, using(typecodes::proofs::Steps::reading), unfolding(crate::specs::Slot::name_field))]
fn read_name(cursor: &mut Cursor<'_>, most: u8) -> Result<Name, ReadFault>
    requires at_most_128 { most ≤ 128 }
    requires room { cursor.old.place + most + 1 < 2 ^ 32 }
    ensures read { Gives (λ name. (name, cursor.new.place)) result
        (read (name_field most) cursor.old.bytes.now cursor.old.place) }
    ensures passes { Advances (most + 1) result cursor.old cursor.new }
{
    let count = u32::from(read_byte_within(cursor, 1, most)?);
    let place = cursor.place;
    let bytes = cursor.block(count)?;
    let name = visible_name(bytes).ok_or(no_record(place))?;
    read_zeros(cursor, u32::from(most) - count)?;
    Ok(name)
}

fn put_name(out: &mut Fields, name: &Name, most: u8)
    requires name_fits { length name.now ≤ most }
    requires room { array_vec_len out.old + most + 1 ≤ 223 }
    ensures { Puts (most + 1) (name_field most) name.now out.old out.new }
{
    let bytes = name.as_bytes();
    put_byte_within(out, bytes.len() as u8, 1, most);
    put(out, bytes);
    put_zeros(out, usize::from(most) - bytes.len());
}

/// A Bound's fields in this version, 222 bytes.
#[tactic(auto, using(typecodes::proofs::Steps::reading), unfolding(crate::specs::Slot::bound_fields))]
pub(crate) fn read_bound(cursor: &mut Cursor<'_>, version: Version) -> Result<Record, ReadFault>
    requires { cursor.old.place + 222 < 2 ^ 32 }
    ensures read { Gives (λ entry. (entry, cursor.new.place)) result
        (read (bound_fields version) cursor.old.bytes.now cursor.old.place) }
    ensures passes { Advances 222 result cursor.old cursor.new }
{
    let most = version.name_most();
    let bound = Bound {
        name: read_name(cursor, most)?,
        leaf: cursor.number()?,
        randomizer: *cursor.array()?,
        digest: *cursor.array()?,
    };
    read_zeros(cursor, 153 - u32::from(most))?;
    Ok(Record::Bound(bound))
}

pub(crate) fn put_bound(out: &mut Fields, bound: &Bound, version: Version)
    requires name_fits { length bound.now.name ≤ name_most version }
    requires room { array_vec_len out.old + 222 ≤ 223 }
    ensures { Puts 222 (bound_fields version) (Record.Bound bound.now) out.old out.new }
{
    let most = version.name_most();
    put_name(out, &bound.name, most);
    put_number(out, bound.leaf);
    put_array(out, &bound.randomizer);
    put_array(out, &bound.digest);
    put_zeros(out, 153 - usize::from(most));
}
