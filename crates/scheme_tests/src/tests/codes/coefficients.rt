//! The digits of a byte string.

use crate::tests::expecting::expect;
use typecodes::coef;

// RFC 8554 3.1.3 gives the first two.
fn are_digits(bytes: &[u8; 2]) -> bool {
    coef(bytes, 7, 1) == 0
        && coef(bytes, 0, 4) == 1
        && coef(bytes, 1, 4) == 2
        && coef(bytes, 2, 4) == 3
        && coef(bytes, 3, 4) == 4
        && coef(bytes, 5, 2) == 3
        && coef(bytes, 1, 8) == 0x34
}

#[test]
fn coefficients(rt: HostRuntime) {
    expect(&rt, are_digits(&[0x12, 0x34]));
}
