//! Bytes that the tests of several crates take.

// 00, 01, .., 1f
pub(crate) const RISING: [u8; 32] = [
    0x00, 0x01, 0x02, 0x03, 0x04, 0x05, 0x06, 0x07, 0x08, 0x09, 0x0a, 0x0b, 0x0c, 0x0d, 0x0e, 0x0f,
    0x10, 0x11, 0x12, 0x13, 0x14, 0x15, 0x16, 0x17, 0x18, 0x19, 0x1a, 0x1b, 0x1c, 0x1d, 0x1e, 0x1f,
];

// 40, 41, .., 5f
pub(crate) const RISING_FROM_40: [u8; 32] = [
    0x40, 0x41, 0x42, 0x43, 0x44, 0x45, 0x46, 0x47, 0x48, 0x49, 0x4a, 0x4b, 0x4c, 0x4d, 0x4e, 0x4f,
    0x50, 0x51, 0x52, 0x53, 0x54, 0x55, 0x56, 0x57, 0x58, 0x59, 0x5a, 0x5b, 0x5c, 0x5d, 0x5e, 0x5f,
];

// Byte k is k modulo 251.
pub(crate) fn made_up_bytes<const N: usize>() -> [u8; N] {
    let mut bytes = [0; N];
    for (k, byte) in bytes.iter_mut().enumerate() {
        *byte = (k % 251) as u8;
    }
    bytes
}

/// Writes a byte, if there is one at the offset.
pub(crate) fn put(bytes: &mut [u8], offset: usize, byte: u8) {
    if let Some(at) = bytes.get_mut(offset) {
        *at = byte;
    }
}

/// Turns these bits of a byte, if there is one at the offset.
pub(crate) fn turn(bytes: &mut [u8], offset: usize, bits: u8) {
    if let Some(at) = bytes.get_mut(offset) {
        *at ^= bits;
    }
}

/// Fills the 32 bytes from an offset on, if they are there.
pub(crate) fn fill(bytes: &mut [u8], offset: usize, byte: u8) {
    if let Some(part) = bytes.get_mut(offset..offset.saturating_add(32)) {
        part.fill(byte);
    }
}

/// Writes a value's bytes from an offset on, if they fit there.
pub(crate) fn copy(bytes: &mut [u8], offset: usize, value: &[u8; 32]) {
    if let Some(part) = bytes.get_mut(offset..offset.saturating_add(32)) {
        if part.len() == 32 {
            part.copy_from_slice(value);
        }
    }
}

/// The first bytes; all of them, if they are fewer.
pub(crate) fn first(bytes: &[u8], len: usize) -> &[u8] {
    match bytes.get(..len) {
        Some(first) => first,
        None => bytes,
    }
}

/// The bytes from one offset up to another; none, if these aren't there.
pub(crate) fn part(bytes: &[u8], from: usize, to: usize) -> &[u8] {
    match bytes.get(from..to) {
        Some(part) => part,
        None => &[],
    }
}
