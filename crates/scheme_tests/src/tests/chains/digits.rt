//! Worked rows of digits.

use crate::tests::expecting::expect;
use typecodes::OtsType;
use winternitz::digits;

// Whether the list has this number of digits, begins with `first`, and ends with `last`, the checksum's digits.
fn has_row(ots: OtsType, digest: &[u8; 32], count: usize, first: &[u8], last: &[u8]) -> bool {
    let all = digits(ots.width(), digest);
    all.len() == count && all.starts_with(first) && all.ends_with(last)
}

fn of_zeros(digest: &[u8; 32]) -> bool {
    has_row(
        OtsType::W1,
        digest,
        265,
        &[0],
        &[0, 1, 0, 0, 0, 0, 0, 0, 0, 0],
    ) && has_row(OtsType::W2, digest, 133, &[0], &[0, 1, 2, 0, 0, 0])
        && has_row(OtsType::W4, digest, 67, &[0], &[0, 3, 12, 0])
        && has_row(OtsType::W8, digest, 34, &[0], &[0, 31, 224])
}

// Every digit is the greatest.
fn of_ones(digest: &[u8; 32]) -> bool {
    has_row(
        OtsType::W1,
        digest,
        265,
        &[1; 256],
        &[1, 0, 0, 0, 0, 0, 0, 0, 0, 0],
    ) && has_row(OtsType::W2, digest, 133, &[3; 128], &[3, 0, 0, 0, 0, 0])
        && has_row(OtsType::W4, digest, 67, &[15; 64], &[15, 0, 0, 0])
        && has_row(OtsType::W8, digest, 34, &[255; 32], &[255, 0, 0])
}

fn of_a_one(digest: &[u8; 32]) -> bool {
    has_row(
        OtsType::W1,
        digest,
        265,
        &[0],
        &[0, 0, 1, 1, 1, 1, 1, 1, 1, 1],
    ) && has_row(OtsType::W2, digest, 133, &[0], &[0, 1, 1, 3, 3, 3])
        && has_row(OtsType::W4, digest, 67, &[0], &[0, 3, 11, 15])
        && has_row(OtsType::W8, digest, 34, &[1], &[0, 31, 223])
}

// A digest of this first byte, and zeros.
fn beginning_with(byte: u8) -> [u8; 32] {
    let mut digest = [0; 32];
    digest[0] = byte;
    digest
}

#[test]
fn digits_of_zeros(rt: HostRuntime) {
    expect(&rt, of_zeros(&[0; 32]));
}

#[test]
fn every_digit_of_ones_is_the_greatest(rt: HostRuntime) {
    expect(&rt, of_ones(&[0xff; 32]));
}

#[test]
fn digits_of_a_one_in_the_first_byte(rt: HostRuntime) {
    expect(&rt, of_a_one(&beginning_with(1)));
}

#[test]
fn digits_come_high_end_first(rt: HostRuntime) {
    expect(
        &rt,
        has_row(
            OtsType::W4,
            &beginning_with(0xf0),
            67,
            &[15, 0],
            &[0, 3, 11, 1],
        ),
    );
}
