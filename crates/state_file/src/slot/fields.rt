//! Reading and writing the fields that only slots have. After a fault the cursor may stand anywhere.

ghost use Rattle.std.specs.Prelude.{◌≡◌, ◌==◌, ◌<◌, ◌≤◌, ◌+◌, ◌++◌, ◌^◌, length, IfOk};
ghost use Rattle.std.specs.List.{list_all};
ghost use Rattle.arrayvec.specs.ArrayVec.{array_vec_len};
ghost use Rattle.typecodes.specs.Fields.{block, number};
ghost use Rattle.typecodes.specs.Cursor.{read, Gives};
ghost use Rattle.state_file.specs.inner.Fields.{Advances, Puts};
ghost use Rattle.state_file.specs.Slot.{byte, bounded_byte, exactly, zeros};

use arrayvec::ArrayVec;
use typecodes::{Cause, Cursor, ReadFault};

pub(crate) type Fields = ArrayVec<u8, 223>;

/// The fault of a field that spells no record.
pub(crate) fn no_record(place: u32) -> ReadFault
    ensures { result ≡ record { place = place; cause = Cause.UnknownType } }
{
    ReadFault {
        place,
        cause: Cause::UnknownType,
    }
}

#[tactic(auto, using(typecodes::proofs::Steps::reading), unfolding(crate::specs::Slot::byte))]
pub(crate) fn read_byte(cursor: &mut Cursor<'_>) -> Result<u8, ReadFault>
    requires { cursor.old.place + 1 < 2 ^ 32 }
    ensures read { Gives (λ n. (n, cursor.new.place)) result (read byte cursor.old.bytes.now cursor.old.place) }
    ensures passes { Advances 1 result cursor.old cursor.new }
{
    let [byte] = *cursor.array::<1>()?;
    Ok(byte)
}

/// Appends bytes. The caller keeps room for them.
pub(crate) fn put(out: &mut Fields, bytes: &[u8])
    requires { array_vec_len out.old + length bytes.now ≤ 223 }
    ensures items { out.new.items ≡ out.old.items ++ bytes.now }
    ensures block { Puts (length bytes.now) (block (length bytes.now)) bytes.now out.old out.new }
{
    if out.try_extend_from_slice(bytes).is_err() {
        unreachable!()
    }
}

pub(crate) fn put_array<const N: usize>(out: &mut Fields, bytes: &[u8; N])
    requires { array_vec_len out.old + N ≤ 223 }
    ensures { Puts N (block N) bytes.now out.old out.new }
{
    put(out, bytes);
}

pub(crate) fn put_byte(out: &mut Fields, n: u8)
    requires { array_vec_len out.old + 1 ≤ 223 }
    ensures { Puts 1 byte n out.old out.new }
{
    put(out, &[n]);
}

/// The next byte, if it is from `least` to `most`.
#[tactic(auto, using(typecodes::proofs::Steps::reading), unfolding(crate::specs::Slot::bounded_byte))]
pub(crate) fn read_byte_within(
    cursor: &mut Cursor<'_>,
    least: u8,
    most: u8,
) -> Result<u8, ReadFault>
    requires { cursor.old.place + 1 < 2 ^ 32 }
    ensures read { Gives (λ n. (n, cursor.new.place)) result
        (read (bounded_byte least most) cursor.old.bytes.now cursor.old.place) }
    ensures least { IfOk result (λ n. least ≤ n) }
    ensures most { IfOk result (λ n. n ≤ most) }
    ensures passes { Advances 1 result cursor.old cursor.new }
{
    let place = cursor.place;
    let byte = read_byte(cursor)?;
    if byte < least || byte > most {
        return Err(no_record(place));
    }
    Ok(byte)
}

pub(crate) fn put_byte_within(out: &mut Fields, n: u8, least: u8, most: u8)
    requires least { least ≤ n }
    requires most { n ≤ most }
    requires room { array_vec_len out.old + 1 ≤ 223 }
    ensures { Puts 1 (bounded_byte least most) n out.old out.new }
{
    put_byte(out, n);
}

/// The next bytes, if they are the expected ones.
#[tactic(auto, using(typecodes::proofs::Steps::reading), unfolding(crate::specs::Slot::exactly))]
pub(crate) fn read_exactly(cursor: &mut Cursor<'_>, expected: &[u8]) -> Result<(), ReadFault>
    requires { cursor.old.place + length expected.now < 2 ^ 32 }
    ensures read { Gives (λ u. (u, cursor.new.place)) result
        (read (exactly (length expected.now) expected.now) cursor.old.bytes.now cursor.old.place) }
    ensures passes { Advances (length expected.now) result cursor.old cursor.new }
{
    let place = cursor.place;
    if cursor.block(expected.len() as u32)? == expected {
        Ok(())
    } else {
        Err(no_record(place))
    }
}

/// Appends bytes that `read_exactly` expects.
pub(crate) fn put_exactly(out: &mut Fields, bytes: &[u8])
    requires { array_vec_len out.old + length bytes.now ≤ 223 }
    ensures { Puts (length bytes.now) (exactly (length bytes.now) bytes.now) tt out.old out.new }
{
    put(out, bytes);
}

fn are_zero(bytes: &[u8]) -> bool
    ensures { result ≡ list_all (λ b. b == 0) bytes.now }
{
    bytes.iter().all(|byte| *byte == 0)
}

#[tactic(auto, using(typecodes::proofs::Steps::reading), unfolding(crate::specs::Slot::zeros))]
pub(crate) fn read_zeros(cursor: &mut Cursor<'_>, n: u32) -> Result<(), ReadFault>
    requires { cursor.old.place + n < 2 ^ 32 }
    ensures read { Gives (λ u. (u, cursor.new.place)) result (read (zeros n) cursor.old.bytes.now cursor.old.place) }
    ensures passes { Advances n result cursor.old cursor.new }
{
    let place = cursor.place;
    if are_zero(cursor.block(n)?) {
        Ok(())
    } else {
        Err(no_record(place))
    }
}

pub(crate) fn put_zeros(out: &mut Fields, n: usize)
    requires { array_vec_len out.old + n ≤ 223 }
    ensures { Puts n (zeros n) tt out.old out.new }
{
    put(out, &[0; 223][..n]);
}

/// Appends a number, big-endian.
pub(crate) fn put_number(out: &mut Fields, n: u32)
    requires { array_vec_len out.old + 4 ≤ 223 }
    ensures { Puts 4 number n out.old out.new }
{
    put(out, &n.to_be_bytes());
}
