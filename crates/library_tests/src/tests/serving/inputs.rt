//! Inputs in pieces, inputs that fail or are interrupted, and reads that claim bytes without writing them.

use super::*;

// Two requests with one name and different messages.
const CHANGED: [u8; 20] = *b"\x04fw-1\0\0\0\x01\x01\x04fw-1\0\0\0\x01\x02";

// How an input comes: how many bytes at a time, whether it fails at the end, and whether that is an interruption.
type Way = (usize, bool, bool);

const WAYS: [Way; 8] = [
    (1, false, false),
    (63, false, false),
    (64, false, false),
    (65, false, false),
    (1, true, false),
    (65, true, false),
    (63, true, true),
    (usize::MAX, true, true),
];

// The ways of each prefix of an input.
const FEW_WAYS: [Way; 4] = [
    (1, false, false),
    (usize::MAX, true, false),
    (1, true, true),
    (usize::MAX, true, true),
];

// Whether an input has its usual answers in each of these ways. Where its reads fail the last reply is 27, in place of
// the 35 of an input that ends inside a frame.
fn are_right_ways(alloc: Global, retired: u32, bytes: &[u8], ways: &[Way]) -> Option<bool> {
    let ((end, left, next), replies) = whole(alloc, retired, bytes)?;
    let read = if end == Err(ServeFault::FrameCut) {
        replies.len().checked_sub(5)?
    } else {
        replies.len()
    };
    for (most, fails, is_interrupted) in ways {
        let mut output = taking_all(alloc);
        let mut input = input_of(bytes);
        input.most = *most;
        input.fails = *fails;
        input.is_interrupted = *is_interrupted;
        let came = end_of(alloc, retired, &mut input, &mut output)?;
        let is_right = if *fails {
            let is_cut = end == Err(ServeFault::MessageRead);
            let rest = output.taken.get(read..)?;
            came == (Err(ServeFault::MessageRead), left, next)
                && output.taken.starts_with(replies.get(..read)?)
                && (rest == b"\x1b\0\0\0\0".as_slice() || is_cut && rest.is_empty())
        } else {
            came == (end, left, next) && output.taken.as_slice() == replies.as_slice()
        };
        if !is_right {
            return Some(false);
        }
    }
    Some(true)
}

// The first `len` bytes of CHANGED, and zeros.
fn cut_at(len: usize) -> [u8; 20] {
    let mut bytes = CHANGED;
    if let Some(rest) = bytes.get_mut(len..) {
        rest.fill(0);
    }
    bytes
}

// The answers to the first `len` bytes of CHANGED, followed by reads that claim the rest.
fn claimed(alloc: Global, len: usize, output: &mut Output) -> Option<End> {
    let mut input = input_of(CHANGED.get(..len)?);
    input.claims = CHANGED.len().checked_sub(len)?;
    end_of(alloc, 0, &mut input, output)
}

// Whether they are those of zeros in its place.
fn is_right_claim(alloc: Global, len: usize) -> bool {
    let mut output = taking_all(alloc);
    let came = claimed(alloc, len, &mut output);
    match whole(alloc, 0, &cut_at(len)) {
        Some((end, replies)) => {
            came == Some(end) && output.taken.as_slice() == replies.as_slice()
        }
        None => false,
    }
}

// Heads of frames, and the sizes of their messages. fw-1 takes the last leaf, so fw-2's message is skipped, as is a bad
// name's. Then fw-1 has another message, of more than two pieces; at last fw-2 and fw-1 come again.
const REQUESTS: [(&[u8], usize); 6] = [
    (b"\x04fw-1\0\0\0\xc8", 200),
    (b"\x04fw-2\0\0\x9c\x40", 40_000),
    (b"\x04fw 3\0\0\x40\x01", 16_385),
    (b"\x04fw-1\0\0\x9c\x40", 40_000),
    (b"\x04fw-2\0\0\0\0", 0),
    (b"\x04fw-1\0\0\0\xc8", 200),
];

fn are_right_requests(alloc: Global) -> Option<bool> {
    let mut frames = Vec::new(alloc);
    for (head, size) in &REQUESTS {
        frames.extend_from_slice(head).ok()?;
        frames.resize(frames.len().checked_add(*size)?, 1).ok()?;
    }
    are_right_ways(alloc, 31, &frames, &WAYS)
}

#[test]
fn inputs_lead_to_what_they_lead_to_as_a_whole(rt: HostRuntime) {
    for len in 0..=CHANGED.len() {
        expect(&rt, is_right_claim(rt.alloc(), len));
        expect(
            &rt,
            are_right_ways(rt.alloc(), 0, &CHANGED[..len], &FEW_WAYS) == Some(true),
        );
    }
    expect(&rt, are_right_requests(rt.alloc()) == Some(true));
}
