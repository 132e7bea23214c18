//! Cursors, field by field.

ghost use Rattle.std.specs.Prelude.{◌≤◌};

use crate::tests::expecting::{expect, expect_none};
use typecodes::{Cause, Cursor, LmsType, OtsType, ReadFault, XmssType};

// A read with its expected answer, the end's answer, or where the cursor stands.
enum Step {
    Number(Result<u32, ReadFault>),
    Block(u32, Result<&'static [u8], ReadFault>),
    // 3 and 15 bytes
    Three(Result<&'static [u8; 3], ReadFault>),
    Fifteen(Result<&'static [u8; 15], ReadFault>),
    Values(u32, Result<&'static [[u8; 32]], ReadFault>),
    Ots(Result<OtsType, ReadFault>),
    Lms(Result<LmsType, ReadFault>),
    Xmss(Result<XmssType, ReadFault>),
    End(Result<(), ReadFault>),
    Place(u32),
}

const CUT_AT_0: ReadFault = ReadFault {
    place: 0,
    cause: Cause::Truncated,
};

const CUT_AT_3: ReadFault = ReadFault {
    place: 3,
    cause: Cause::Truncated,
};

const CUT_AT_8: ReadFault = ReadFault {
    place: 8,
    cause: Cause::Truncated,
};

const CUT_AT_32: ReadFault = ReadFault {
    place: 32,
    cause: Cause::Truncated,
};

const CUT_AT_67: ReadFault = ReadFault {
    place: 67,
    cause: Cause::Truncated,
};

const UNKNOWN_AT_3: ReadFault = ReadFault {
    place: 3,
    cause: Cause::UnknownType,
};

const UNKNOWN_AT_4: ReadFault = ReadFault {
    place: 4,
    cause: Cause::UnknownType,
};

const TRAILING_AT_6: ReadFault = ReadFault {
    place: 6,
    cause: Cause::Trailing,
};

const TRAILING_AT_67: ReadFault = ReadFault {
    place: 67,
    cause: Cause::Trailing,
};

// 0x01020304, two bytes, W8 and H5.
const FIELDS: &[u8] = &[1, 2, 3, 4, 50, 60, 0, 0, 0, 4, 0, 0, 0, 5];

const A_NUMBER_AND_A_BLOCK: &[Step] = &[
    Step::Number(Ok(0x0102_0304)),
    Step::Block(2, Ok(&[50, 60])),
    Step::End(Err(TRAILING_AT_6)),
];

const TYPES_UP_TO_THE_END: &[Step] = &[
    Step::Ots(Ok(OtsType::W8)),
    Step::Lms(Ok(LmsType::H5)),
    Step::Place(14),
    Step::End(Ok(())),
];

const AN_ARRAY_THAT_FITS: &[Step] = &[Step::Three(Ok(&[1, 2, 3]))];

const AN_ARRAY_THAT_DOES_NOT: &[Step] = &[Step::Fifteen(Err(CUT_AT_0))];

// A fault is reported at the start of its field, and the cursor stays there. In a row of values each is a field.
const NINES: &[u8] = &[9; 70];

const CODES_THAT_NAME_NO_TYPE: &[Step] = &[
    Step::Ots(Err(UNKNOWN_AT_3)),
    Step::Lms(Err(UNKNOWN_AT_3)),
    Step::Place(3),
];

const A_BLOCK_AND_VALUES_THAT_ARE_CUT: &[Step] = &[
    Step::Block(68, Err(CUT_AT_3)),
    Step::Values(3, Err(CUT_AT_67)),
    Step::Values(2, Ok(&[[9; 32]; 2])),
    Step::Place(67),
];

const NUMBERS_THAT_ARE_CUT: &[Step] = &[
    Step::Number(Err(CUT_AT_67)),
    Step::Ots(Err(CUT_AT_67)),
    Step::Lms(Err(CUT_AT_67)),
];

const CUT_IN_THE_FIRST_VALUE: &[Step] = &[Step::Values(2, Err(CUT_AT_0))];

const CUT_IN_THE_SECOND_VALUE: &[Step] = &[Step::Values(2, Err(CUT_AT_32))];

// H16, a code without a type, and one byte.
const XMSS_FIELDS: &[u8] = &[0, 0, 0, 2, 0, 0, 0, 4, 0];

const TYPES_OF_XMSS: &[Step] = &[Step::Xmss(Ok(XmssType::H16)), Step::Xmss(Err(UNKNOWN_AT_4))];

const A_TYPE_OF_XMSS_THAT_IS_CUT: &[Step] = &[Step::Xmss(Err(CUT_AT_8))];

// Bytes, where a cursor begins, and what it reads.
const RUNS: &[(&[u8], u32, &[Step])] = &[
    (FIELDS, 0, A_NUMBER_AND_A_BLOCK),
    (FIELDS, 6, TYPES_UP_TO_THE_END),
    (FIELDS, 0, AN_ARRAY_THAT_FITS),
    (FIELDS, 0, AN_ARRAY_THAT_DOES_NOT),
    (NINES, 3, CODES_THAT_NAME_NO_TYPE),
    (NINES, 3, A_BLOCK_AND_VALUES_THAT_ARE_CUT),
    (NINES, 67, NUMBERS_THAT_ARE_CUT),
    (&[], 0, CUT_IN_THE_FIRST_VALUE),
    (&[9; 31], 0, CUT_IN_THE_FIRST_VALUE),
    (&[9; 32], 0, CUT_IN_THE_SECOND_VALUE),
    (&[9; 40], 0, CUT_IN_THE_SECOND_VALUE),
    (&[9; 63], 0, CUT_IN_THE_SECOND_VALUE),
    (XMSS_FIELDS, 0, TYPES_OF_XMSS),
    (XMSS_FIELDS, 8, A_TYPE_OF_XMSS_THAT_IS_CUT),
];

fn has_number(cursor: &mut Cursor<'_>, wanted: &Result<u32, ReadFault>) -> bool
    requires { cursor.old.place ≤ 100 }
{
    cursor.number() == *wanted
}

fn has_block(cursor: &mut Cursor<'_>, n: u32, wanted: &Result<&[u8], ReadFault>) -> bool
    requires { cursor.old.place ≤ 100 }
{
    cursor.block(n.min(100)) == *wanted
}

fn has_array<const N: usize>(cursor: &mut Cursor<'_>, wanted: &Result<&[u8; N], ReadFault>) -> bool
    requires place { cursor.old.place ≤ 100 }
    requires few { N ≤ 100 }
{
    cursor.array() == *wanted
}

fn has_values(cursor: &mut Cursor<'_>, count: u32, wanted: &Result<&[[u8; 32]], ReadFault>) -> bool
    requires { cursor.old.place ≤ 100 }
{
    cursor.values(count.min(100)) == *wanted
}

fn has_ots(cursor: &mut Cursor<'_>, wanted: Result<OtsType, ReadFault>) -> bool
    requires { cursor.old.place ≤ 100 }
{
    cursor.ots_type() == wanted
}

fn has_lms(cursor: &mut Cursor<'_>, wanted: Result<LmsType, ReadFault>) -> bool
    requires { cursor.old.place ≤ 100 }
{
    cursor.lms_type() == wanted
}

fn has_xmss(cursor: &mut Cursor<'_>, wanted: Result<XmssType, ReadFault>) -> bool
    requires { cursor.old.place ≤ 100 }
{
    cursor.xmss_type() == wanted
}

// Takes a step, and says whether its answer is the expected one.
fn take(cursor: &mut Cursor<'_>, step: &Step) -> bool {
    if cursor.place > 100 {
        return false;
    }
    match step {
        Step::Number(wanted) => has_number(cursor, wanted),
        Step::Block(n, wanted) => has_block(cursor, *n, wanted),
        Step::Three(wanted) => has_array(cursor, wanted),
        Step::Fifteen(wanted) => has_array(cursor, wanted),
        Step::Values(count, wanted) => has_values(cursor, *count, wanted),
        Step::Ots(wanted) => has_ots(cursor, *wanted),
        Step::Lms(wanted) => has_lms(cursor, *wanted),
        Step::Xmss(wanted) => has_xmss(cursor, *wanted),
        Step::End(wanted) => cursor.end() == *wanted,
        Step::Place(wanted) => cursor.place == *wanted,
    }
}

// How many steps are right before the first wrong one. None where the bytes end before `start`.
fn right_steps(bytes: &[u8], start: u32, steps: &[Step]) -> Option<usize> {
    let mut cursor = Cursor::new(bytes);
    cursor.block(start).ok()?;
    for (k, step) in steps.iter().enumerate() {
        if !take(&mut cursor, step) {
            return Some(k);
        }
    }
    Some(steps.len())
}

// The first run with a wrong step, or whose bytes end before its start.
fn wrong_run() -> Option<usize> {
    for (k, (bytes, start, steps)) in RUNS.iter().enumerate() {
        if right_steps(bytes, *start, steps) != Some(steps.len()) {
            return Some(k);
        }
    }
    None
}

#[test]
fn fields_are_read_in_turn(rt: HostRuntime) {
    expect_none(&rt, wrong_run());
}

// Two values from place 3 on.
fn are_values(bytes: &[u8; 70], values: &[[u8; 32]; 2]) -> bool {
    let mut cursor = Cursor { bytes, place: 3 };
    cursor.values(2) == Ok(values.as_slice()) && cursor.end() == Err(TRAILING_AT_67)
}

#[test]
fn values_in_turn(rt: HostRuntime) {
    let mut values = [[0; 32]; 2];
    values[0][0] = 7;
    values[1][31] = 8;
    let mut bytes = [0; 70];
    bytes[3] = 7;
    bytes[66] = 8;
    expect(&rt, are_values(&bytes, &values));
}
