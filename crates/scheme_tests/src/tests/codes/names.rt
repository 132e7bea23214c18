//! Names of what is signed.

use crate::tests::expecting::expect;
use typecodes::{BadName, Name};

// Whether the bytes are a name, and are given back by it.
fn is_name(bytes: &[u8]) -> bool {
    match Name::new(bytes) {
        Ok(name) => name.as_bytes() == bytes,
        Err(BadName) => false,
    }
}

// 1 to 128 bytes, each from 0x21 to 0x7E.
fn are_names() -> bool {
    is_name(b"!")
        && is_name(b"~")
        && is_name(b"release-1.2")
        && is_name(&[b'x'; 64])
        && is_name(&[b'x'; 65])
        && is_name(&[b'x'; 128])
}

fn is_refused(bytes: &[u8]) -> bool {
    Name::new(bytes) == Err(BadName)
}

fn are_refused() -> bool {
    is_refused(b"")
        && is_refused(&[b'x'; 129])
        && is_refused(b" ")
        && is_refused(b"two words")
        && is_refused(b"\x7f")
        && is_refused(b"\x00")
        && is_refused(b"na\xc3\xafve")
}

#[test]
fn takes_visible_ascii_and_nothing_else(rt: HostRuntime) {
    expect(&rt, are_names() && are_refused());
}

// Whether both are names, equal or not.
fn are_compared(name: &[u8], other: &[u8], are_equal: bool) -> bool {
    match (Name::new(name), Name::new(other)) {
        (Ok(name), Ok(other)) => (name == other) == are_equal,
        _ => false,
    }
}

fn are_distinct() -> bool {
    are_compared(b"release-1", b"release-1", true)
        && are_compared(b"release-1", b"release-2", false)
        && are_compared(b"release-1", b"release-12", false)
        && are_compared(b"release-1", b"Release-1", false)
}

#[test]
fn compares_by_bytes(rt: HostRuntime) {
    expect(&rt, are_distinct());
}
