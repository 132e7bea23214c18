//! Recognizing, reading and writing a Key.

ghost use Rattle.std.specs.Prelude.{◌≡◌, ◌<◌, ◌≤◌, ◌+◌, ◌^◌, length};
ghost use Rattle.arrayvec.specs.ArrayVec.{array_vec_len};
ghost use Rattle.typecodes.specs.Cursor.{read, Gives};
ghost use Rattle.state_file.specs.inner.Fields.{Advances, Puts};
ghost use Rattle.state_file.specs.File.{begins_key, version_of};
ghost use Rattle.state_file.specs.Slot.{key_fields, version_field};

use crate::record::{Key, Record, Version};
use crate::slot::fields::{
    Fields, put, put_array, put_byte, put_exactly, put_zeros, read_byte, read_exactly, read_zeros,
};
use crate::slot::secret::{put_secret, read_secret, scheme};
use byteorder::{BigEndian, ByteOrder};
use typecodes::{Cursor, ReadFault};

/// What a Key's fields begin with.
pub(crate) const MAGIC: &[u8; 8] = b"HBSSTATE";

/// Whether a slot's bytes 1 to 223 begin with the kind of a Key and the magic.
pub(crate) fn begins_key(fields: &[u8]) -> bool
    requires { length fields.now ≡ 223 }
    ensures { result ≡ begins_key fields.now }
{
    fields[0] == 1 && fields[1..9] == MAGIC[..]
}

/// The version in a Key's fields, if it is known.
pub(crate) fn version_of(fields: &[u8]) -> Option<Version>
    requires { length fields.now ≡ 223 }
    ensures { result ≡ version_of fields.now }
{
    Version::from_code(BigEndian::read_u16(&fields[9..]))
}

// Reads this version's code, and no other.
#[tactic(auto, using(typecodes::proofs::Steps::reading), unfolding(crate::specs::Slot::version_field))]
fn read_version(cursor: &mut Cursor<'_>, version: Version) -> Result<(), ReadFault>
    requires { cursor.old.place + 2 < 2 ^ 32 }
    ensures read { Gives (λ u. (u, cursor.new.place)) result
        (read (version_field version) cursor.old.bytes.now cursor.old.place) }
    ensures passes { Advances 2 result cursor.old cursor.new }
{
    read_exactly(cursor, &version.code().to_be_bytes())
}

// Appends this version's code.
fn put_version(out: &mut Fields, version: Version)
    requires { array_vec_len out.old + 2 ≤ 223 }
    ensures { Puts 2 (version_field version) tt out.old out.new }
{
    put(out, &version.code().to_be_bytes());
}

/// A Key's fields in this version, 222 bytes.
#[tactic(auto, using(typecodes::proofs::Steps::reading), unfolding(crate::specs::Slot::key_fields))]
pub(crate) fn read_key(cursor: &mut Cursor<'_>, version: Version) -> Result<Record, ReadFault>
    requires { cursor.old.place + 222 < 2 ^ 32 }
    ensures read { Gives (λ entry. (entry, cursor.new.place)) result
        (read (key_fields version) cursor.old.bytes.now cursor.old.place) }
    ensures passes { Advances 222 result cursor.old cursor.new }
{
    read_exactly(cursor, MAGIC)?;
    read_version(cursor, version)?;
    let scheme = read_byte(cursor)?;
    let secret = read_secret(cursor, scheme)?;
    let root = *cursor.array()?;
    read_zeros(cursor, 2)?;
    Ok(Record::Key(Key {
        version,
        secret,
        root,
    }))
}

pub(crate) fn put_key(out: &mut Fields, key: &Key)
    requires { array_vec_len out.old + 222 ≤ 223 }
    ensures { Puts 222 (key_fields key.now.version) (Record.Key key.now) out.old out.new }
{
    put_exactly(out, MAGIC);
    put_version(out, key.version);
    put_byte(out, scheme(&key.secret));
    put_secret(out, &key.secret);
    put_array(out, &key.root);
    put_zeros(out, 2);
}
