//! A long message takes no more allocations than a short one, and serving no more than signing, whatever sizes the
//! frames claim. `tests/run` counts that all these tests have equally many. Each test makes its frames in one
//! allocation, and its output in another.

use super::*;

// The message's offset in a frame of fw-1.
const MESSAGE: usize = 9;

// The frames after the request: the same name with another message, and a message that claims 2^32 - 1 bytes.
const CLAIMED: &[u8] = b"\x04fw-1\0\0\0\x01\x01\0\xff\xff\xff\xffabc";

// Writes the request for a message of `size` zeros, and CLAIMED.
fn write_frames(frames: &mut Vec<u8>, size: u32) -> bool {
    frames.extend_from_slice(b"\x04fw-1").is_ok()
        && frames.extend_from_slice(&size.to_be_bytes()).is_ok()
        && frames
            .resize(MESSAGE.saturating_add(size as usize), 0)
            .is_ok()
        && frames.extend_from_slice(CLAIMED).is_ok()
}

fn frames_with(alloc: Global, size: u32) -> Option<Vec<u8>> {
    match Vec::with_capacity(alloc, 70_000) {
        Ok(frames) => {
            let mut frames = frames;
            if write_frames(&mut frames, size) {
                Some(frames)
            } else {
                None
            }
        }
        Err(_) => None,
    }
}

// The length of the message's signature. A reply has 5 bytes before its signature, and two replies without one follow.
fn len_by_serve<S: Store, R: Source>(
    alloc: Global,
    signer: &mut Signer<S, R>,
    mut frames: &[u8],
    out: &mut Vec<u8>,
) -> Option<usize> {
    if serve(alloc, signer, &mut frames, out) == Err(ServeFault::MessageRead) {
        out.len().checked_sub(15)
    } else {
        None
    }
}

fn len_by_sign<S: Store, R: Source>(
    alloc: Global,
    signer: &mut Signer<S, R>,
    message: &[u8],
) -> Option<usize> {
    let mut signature = Vec::new(alloc);
    match Name::new(b"fw-1") {
        Ok(name) if sign(signer, &name, message, &mut signature).is_none() => {
            Some(signature.len())
        }
        _ => None,
    }
}

// By `serve` or by `sign`.
fn len_by<S: Store, R: Source>(
    alloc: Global,
    signer: &mut Signer<S, R>,
    (frames, message): (&[u8], &[u8]),
    is_in_frame: bool,
    out: &mut Vec<u8>,
) -> Option<usize> {
    if is_in_frame {
        len_by_serve(alloc, signer, frames, out)
    } else {
        len_by_sign(alloc, signer, message)
    }
}

// As `len_by`, by a new key in this store.
fn len_in<S: Store + Drop>(
    alloc: Global,
    store: S,
    given: (&[u8], &[u8]),
    is_in_frame: bool,
    out: &mut Vec<u8>,
) -> Option<usize> {
    let seen = seen_from(7);
    let mut signer = created_by(alloc, LMS, store, &seen)?;
    let len = len_by(alloc, &mut signer, given, is_in_frame, out);
    let _store = signer.into_store();
    len
}

// As `len_in`, for a message of `size` zeros.
fn signed_len(alloc: Global, size: u32, is_in_frame: bool) -> Option<usize> {
    let frames = frames_with(alloc, size)?;
    let message = frames.get(MESSAGE..MESSAGE.checked_add(size as usize)?)?;
    let mut out = Vec::with_capacity(alloc, 9000).ok()?;
    let store = MemoryStore::with_limit(alloc, 100);
    len_in(alloc, store, (&frames, message), is_in_frame, &mut out)
}

#[test]
fn a_short_message_is_signed(rt: HostRuntime) {
    expect(&rt, signed_len(rt.alloc(), 1, false) == Some(8684));
}

#[test]
fn a_long_message_is_signed(rt: HostRuntime) {
    expect(&rt, signed_len(rt.alloc(), 65_536, false) == Some(8684));
}

#[test]
fn a_short_message_is_signed_in_a_frame(rt: HostRuntime) {
    expect(&rt, signed_len(rt.alloc(), 1, true) == Some(8684));
}

#[test]
fn a_long_message_is_signed_in_a_frame(rt: HostRuntime) {
    expect(&rt, signed_len(rt.alloc(), 65_536, true) == Some(8684));
}
