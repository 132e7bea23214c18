//! Refusals and their numbers.

use crate::tests::expecting::expect;
use typecodes::{Cause, ReadFault, Refusal};

fn unreadable(cause: Cause) -> u8 {
    Refusal::Unreadable(ReadFault { place: 8, cause }).number()
}

fn have_numbers() -> bool {
    unreadable(Cause::Truncated) == 1
        && unreadable(Cause::UnknownType) == 2
        && unreadable(Cause::LevelCount) == 3
        && unreadable(Cause::LeafOutOfRange) == 4
        && unreadable(Cause::Trailing) == 5
        && Refusal::TypeMismatch(0).number() == 10
        && Refusal::LevelMismatch.number() == 11
        && Refusal::RootMismatch(0).number() == 12
        && Refusal::MessageRead.number() == 14
}

#[test]
fn refusals_have_numbers(rt: HostRuntime) {
    expect(&rt, have_numbers());
}
