//! Public keys and their signatures, which allocate nothing: `tests/run` counts that. `tests/conformance` tests which
//! lengths and fields a key has.

use super::expecting::expect;
use hss::HssPublic;
use lms::LmsPublic;
use sign_core::{AnyPublic, verify_any};
use typecodes::{Cause, LevelCount, LmsPair, LmsType, OtsType, ReadFault, Refusal, XmssType};
use xmss::XmssPublic;

const LMS: LmsPublic = LmsPublic {
    pair: LmsPair {
        tree: LmsType::H5,
        ots: OtsType::W8,
    },
    identifier: [1; 16],
    root: [2; 32],
};

const XMSS: XmssPublic = XmssPublic {
    tree: XmssType::H16,
    root: [3; 32],
    seed: [4; 32],
};

fn of_levels(count: u8) -> Option<AnyPublic> {
    let levels = LevelCount::new(count)?;
    Some(AnyPublic::Hss(HssPublic { levels, top: LMS }))
}

// Whether a written key has this length, begins with these bytes and reads back as the key.
fn is_spelled(key: &AnyPublic, len: usize, first: &[u8]) -> bool {
    let bytes = key.write();
    bytes.len() == len
        && bytes.as_slice().starts_with(first)
        && AnyPublic::read(bytes.as_slice()) == Ok(*key)
}

fn are_spelled() -> bool {
    let levels = match of_levels(2) {
        Some(key) => is_spelled(&key, 60, &[0, 0, 0, 2, 0, 0, 0, 5, 0, 0]),
        None => false,
    };
    levels
        && is_spelled(&AnyPublic::Lms(LMS), 56, &[0, 0, 0, 5, 0, 0, 0, 4, 1, 1])
        && is_spelled(&AnyPublic::Xmss(XMSS), 68, &[0, 0, 0, 2, 3, 3, 3, 3, 3, 3])
}

// The first bytes are the standards' codes, and for HSS the number of levels before them.
#[test]
fn keys_are_read_as_they_are_written(rt: HostRuntime) {
    expect(&rt, are_spelled());
}

// Whether zeros are refused so as a signature under a key, and this much of the message is then unread.
fn is_refused(key: &AnyPublic, zeros: &[u8], refusal: Refusal, left: usize) -> bool {
    let mut message = b"message".as_slice();
    verify_any(key, &mut message, zeros) == Err(refusal) && message.len() == left
}

const CUT: Refusal = Refusal::Unreadable(ReadFault {
    place: 4,
    cause: Cause::Truncated,
});

fn reads_signatures_first() -> bool {
    let levels = match of_levels(1) {
        Some(key) => is_refused(&key, &[0; 4], CUT, 7),
        None => false,
    };
    levels
        && is_refused(&AnyPublic::Lms(LMS), &[0; 4], CUT, 7)
        && is_refused(&AnyPublic::Xmss(XMSS), &[0; 4], CUT, 7)
}

// Each scheme reads the signature before the message. Zeros decode as an XMSS signature of height 16, with another
// root.
#[test]
fn each_scheme_verifies(rt: HostRuntime) {
    let root = Refusal::RootMismatch(0);
    let xmss = AnyPublic::Xmss(XMSS);
    expect(
        &rt,
        reads_signatures_first() && is_refused(&xmss, &[0; 2692], root, 0),
    );
}
