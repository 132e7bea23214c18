//! Whether a file begins as a state file with a key does, whatever its first gate is.

use std::fs::File;
use std::io;
use std::os::unix::fs::FileExt;

// Bytes 1 to 9: the kind of a Key's record, and the magic.
const KEY_START: &[u8; 9] = b"\x01HBSSTATE";

const KEY_START_AT: u64 = 1;

/// Whether a regular file, open for reading, begins as a state file with a key does. One under 10 bytes has no key.
pub fn has_key(file: &File) -> io::Result<bool> {
    let mut start = [0; KEY_START.len()];
    // A regular file gives 9 bytes in one read.
    let n = file.read_at(&mut start, KEY_START_AT)?;
    Ok(n == start.len() && start == *KEY_START)
}
