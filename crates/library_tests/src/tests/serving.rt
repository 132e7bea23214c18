//! Exchanges of frames over inputs and outputs that fail, or give and take few bytes at a time. Each is compared with
//! the same exchange over a whole input and an output that takes all. The replies to whole inputs are tested by
//! `tests/conformance` and `tests/suites/serving`.

use crate::tests::expecting::{expect, sign, top_left};
use crate::tests::signer::{LMS, created_by, seen_from};
use sign_core::{ServeFault, Signer, Source, serve};
use state_file::{MemoryStore, Store};
use std::alloc::Global;
use std::io;
use std::io::{ErrorKind, Read, Write};
use typecodes::Name;

mod inputs;
mod memory;
mod outputs;

// Gives `rest`, at most `most` bytes at a time, and then ends or fails. Before that its reads may claim `claims` bytes
// that they don't write. After an interruption it claims bytes without end.
#[derive(Drop)]
struct Input<'a> {
    rest: &'a [u8],
    most: usize,
    fails: bool,
    is_interrupted: bool,
    claims: usize,
}

impl Read for Input<'_> {
    fn read(&mut self, buffer: &mut [u8]) -> io::Result<usize> {
        let n = self.most.min(buffer.len()).min(self.rest.len());
        if n == 0 && self.claims > 0 {
            let claimed = self.claims.min(buffer.len());
            self.claims -= claimed;
            return Ok(claimed);
        }
        if n == 0 && self.fails && self.is_interrupted {
            self.claims = usize::MAX;
            return Err(io::Error::from(ErrorKind::Interrupted));
        }
        if n == 0 && self.fails {
            return Err(io::Error::from(ErrorKind::BrokenPipe));
        }
        let (given, rest) = self.rest.split_at(n);
        buffer[..n].copy_from_slice(given);
        self.rest = rest;
        Ok(n)
    }
}

fn input_of(bytes: &[u8]) -> Input<'_> {
    Input {
        rest: bytes,
        most: usize::MAX,
        fails: false,
        is_interrupted: false,
        claims: 0,
    }
}

// What the odd call of an output does.
#[derive(Clone, Copy, PartialEq)]
enum Odd {
    Fails,
    TakesNothing,
    IsInterrupted,
}

// Takes at most `most` bytes at a write. The call after `before` others, a write or a flush, is odd.
#[derive(Drop)]
struct Output {
    taken: Vec<u8>,
    most: usize,
    before: u32,
    odd: Odd,
    calls: u32,
}

fn taking_all(alloc: Global) -> Output {
    Output {
        taken: Vec::new(alloc),
        most: usize::MAX,
        before: u32::MAX,
        odd: Odd::Fails,
        calls: 0,
    }
}

impl Output {
    // Counts a call, and says whether it is the odd one.
    fn is_odd(&mut self) -> bool {
        let is_odd = self.calls == self.before;
        self.calls = self.calls.wrapping_add(1);
        is_odd
    }
}

impl Write for Output {
    fn write(&mut self, bytes: &[u8]) -> io::Result<usize> {
        if self.is_odd() {
            return match self.odd {
                Odd::Fails => Err(io::Error::from(ErrorKind::StorageFull)),
                Odd::TakesNothing => Ok(0),
                Odd::IsInterrupted => Err(io::Error::from(ErrorKind::Interrupted)),
            };
        }
        let n = self.most.min(bytes.len());
        self.taken.extend_from_slice(&bytes[..n])?;
        Ok(n)
    }

    // A flush takes no bytes in any case.
    fn flush(&mut self) -> io::Result<()> {
        if !self.is_odd() {
            return Ok(());
        }
        match self.odd {
            Odd::Fails => Err(io::Error::from(ErrorKind::StorageFull)),
            Odd::TakesNothing => Ok(()),
            Odd::IsInterrupted => Err(io::Error::from(ErrorKind::Interrupted)),
        }
    }
}

// An exchange's answer, the key's free leaves afterwards, and the next number of its source.
type End = (Result<u64, ServeFault>, u32, u8);

// An exchange's answer once `retired` leaves are retired, and the free leaves afterwards.
fn served<S: Store, R: Source>(
    alloc: Global,
    signer: &mut Signer<S, R>,
    retired: u32,
    input: &mut Input<'_>,
    output: &mut Output,
) -> Option<(Result<u64, ServeFault>, u32)> {
    if signer.retire(retired).is_err() {
        return None;
    }
    let end = serve(alloc, signer, input, output);
    match top_left(signer) {
        Some(left) => Some((end, left)),
        None => None,
    }
}

// As `served`, by a new key in this store.
fn end_in<S: Store + Drop>(
    alloc: Global,
    store: S,
    retired: u32,
    input: &mut Input<'_>,
    output: &mut Output,
) -> Option<End> {
    let seen = seen_from(7);
    let mut signer = created_by(alloc, LMS, store, &seen)?;
    let came = served(alloc, &mut signer, retired, input, output);
    let _store = signer.into_store();
    let (end, left) = came?;
    Some((end, left, seen.next.get()))
}

fn end_of(alloc: Global, retired: u32, input: &mut Input<'_>, output: &mut Output) -> Option<End> {
    let store = MemoryStore::with_limit(alloc, 100);
    end_in(alloc, store, retired, input, output)
}

// The end of an exchange over a whole input, and its replies.
fn whole(alloc: Global, retired: u32, bytes: &[u8]) -> Option<(End, Vec<u8>)> {
    let mut output = taking_all(alloc);
    match end_of(alloc, retired, &mut input_of(bytes), &mut output) {
        Some(end) => Some((end, output.taken)),
        None => None,
    }
}
