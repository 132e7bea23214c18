//! Reading and writing an Extend.

ghost use Rattle.std.specs.Prelude.{◌<◌, ◌≤◌, ◌+◌, ◌^◌};
ghost use Rattle.arrayvec.specs.ArrayVec.{array_vec_len};
ghost use Rattle.typecodes.specs.Cursor.{read, Gives};
ghost use Rattle.state_file.specs.inner.Fields.{Advances, Puts};
ghost use Rattle.state_file.specs.Slot.{extend_fields};

use crate::record::{Extend, Record};
use crate::slot::fields::{
    Fields, put_array, put_byte, put_number, put_zeros, read_byte, read_zeros,
};
use typecodes::{Cursor, ReadFault};

/// An Extend's fields, 222 bytes.
#[tactic(auto, using(typecodes::proofs::Steps::reading), unfolding(crate::specs::Slot::extend_fields))]
pub(crate) fn read_extend(cursor: &mut Cursor<'_>) -> Result<Record, ReadFault>
    requires { cursor.old.place + 222 < 2 ^ 32 }
    ensures read { Gives (λ entry. (entry, cursor.new.place)) result
        (read extend_fields cursor.old.bytes.now cursor.old.place) }
    ensures passes { Advances 222 result cursor.old cursor.new }
{
    let extend = Extend {
        level: read_byte(cursor)?,
        parent_leaf: cursor.number()?,
        identifier: *cursor.array()?,
        seed: *cursor.array()?,
        randomizer: *cursor.array()?,
        digest: *cursor.array()?,
        root: *cursor.array()?,
    };
    read_zeros(cursor, 73)?;
    Ok(Record::Extend(extend))
}

pub(crate) fn put_extend(out: &mut Fields, extend: &Extend)
    requires { array_vec_len out.old + 222 ≤ 223 }
    ensures { Puts 222 extend_fields (Record.Extend extend.now) out.old out.new }
{
    put_byte(out, extend.level);
    put_number(out, extend.parent_leaf);
    put_array(out, &extend.identifier);
    put_array(out, &extend.seed);
    put_array(out, &extend.randomizer);
    put_array(out, &extend.digest);
    put_array(out, &extend.root);
    put_zeros(out, 73);
}
