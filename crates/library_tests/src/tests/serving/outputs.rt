//! Outputs that fail, or take few bytes at a time, or none.

use super::*;

// The output of an exchange whose call after `before` others is odd, its end, and how many bytes are read.
fn odd_at(
    alloc: Global,
    bytes: &[u8],
    (most, odd): (usize, Odd),
    before: u32,
    output: &mut Output,
) -> Option<(End, usize)> {
    output.most = most;
    output.odd = odd;
    output.before = before;
    let mut input = input_of(bytes);
    match end_of(alloc, 0, &mut input, output) {
        Some(end) => Some((end, bytes.len().checked_sub(input.rest.len())?)),
        None => None,
    }
}

// Whether the key is as after the requests that were read, and the output a prefix of the replies to them.
fn is_cut(alloc: Global, read: Option<&[u8]>, (_, left, next): End, taken: &[u8]) -> bool {
    let Some(read) = read else {
        return false;
    };
    match whole(alloc, 0, read) {
        Some(((_, read_left, read_next), replies)) => {
            left == read_left && next == read_next && replies.starts_with(taken)
        }
        None => false,
    }
}

// Makes each call of the output odd in turn, and counts those that end the exchange. The key is then as after the
// requests that were read, and the output is a prefix of the replies to them. Any other odd call changes nothing.
fn cut_by(alloc: Global, bytes: &[u8], most: usize, odd: Odd) -> Option<u32> {
    let (wanted, replies) = whole(alloc, 0, bytes)?;
    let mut cut = 0u32;
    for before in 0..10_000u32 {
        let mut output = taking_all(alloc);
        let (end, read) = odd_at(alloc, bytes, (most, odd), before, &mut output)?;
        if end.0 == Err(ServeFault::WriteFailed) {
            if !is_cut(alloc, bytes.get(..read), end, &output.taken) {
                return None;
            }
            cut = cut.saturating_add(1);
        } else if end != wanted || output.taken.as_slice() != replies.as_slice() {
            return None;
        }
        if output.calls <= before {
            return Some(cut);
        }
    }
    None
}

// A signed name, the same with another message, and an empty name; then the input is cut.
const REPLIED: &[u8] = b"\x04fw-1\0\0\0\x01\x01\x04fw-1\0\0\0\x01\x02\0\0\0\0\x01\x03\x04fw";

// A bad name, and a new name whose message is cut.
const REFUSED: &[u8] = b"\x01 \0\0\0\x01\x01\x04fw-1\0\0\0\x02\x01";

// An input, how many bytes its output takes at a time, and how many replies are flushed.
const REPLIES: [(&[u8], usize, u32); 5] = [
    (REPLIED, usize::MAX, 4),
    (REPLIED, 1000, 4),
    (REFUSED, 1, 2),
    (REFUSED, 3, 2),
    (b"", 1, 0),
];

fn are_flushed(alloc: Global, bytes: &[u8], most: usize, replies: u32) -> bool {
    match cut_by(alloc, bytes, most, Odd::Fails) {
        Some(failed) => {
            cut_by(alloc, bytes, most, Odd::IsInterrupted) == Some(failed)
                && cut_by(alloc, bytes, most, Odd::TakesNothing) == failed.checked_sub(replies)
        }
        None => false,
    }
}

// A failed or interrupted call ends the exchange, and so does a write that takes nothing.
#[test]
fn replies_are_written_or_end_the_exchange(rt: HostRuntime) {
    for (bytes, most, replies) in &REPLIES {
        expect(&rt, are_flushed(rt.alloc(), bytes, *most, *replies));
    }
}
