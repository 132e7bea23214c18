//! A disk in memory, call by call.

use super::expecting::expect;
use state_file::{Disk, DiskFault, MemoryDisk, Pick};
use std::alloc::Global;

// A call and its answer, a plan of a failing call, or what a crash leaves by a pick.
enum Step<'a> {
    Len(Result<u64, DiskFault>),
    // an offset, and the bytes that are there
    Read(u64, &'a [u8]),
    // a read of two bytes
    ReadFails(u64, DiskFault),
    Write(u64, &'a [u8], Result<(), DiskFault>),
    Sync(Result<(), DiskFault>),
    FailAt(u32),
    StopAt(u32),
    Leaves(Pick, &'a [u8]),
}

const READS: &[Step<'static>] = &[
    Step::Len(Ok(3)),
    Step::Read(1, &[2, 3]),
    Step::ReadFails(2, DiskFault::PastEnd),
    Step::ReadFails(u64::MAX, DiskFault::PastEnd),
];

const READS_WRITTEN: &[Step<'static>] = &[
    Step::Write(2, &[9, 8, 7], Ok(())),
    Step::Read(0, &[1, 2, 9, 8, 7]),
    Step::ReadFails(4, DiskFault::PastEnd),
    Step::Len(Ok(5)),
];

// A gap becomes zeros.
const WRITES_PAST_THE_END: &[Step<'static>] = &[
    Step::Write(3, &[5], Ok(())),
    Step::Write(9, &[], Ok(())),
    Step::Leaves(Pick::New, &[1, 0, 0, 5]),
    Step::Leaves(Pick::Fill(7), &[1, 7, 7, 7, 7, 7, 7, 7, 7]),
];

// A crash may leave anything in ranges written since the last sync.
const STOPS_UNSYNCED: &[Step<'static>] = &[
    Step::Write(1, &[8], Ok(())),
    Step::Write(2, &[9, 9, 9], Ok(())),
    Step::Leaves(Pick::Old, &[1, 2, 3]),
    Step::Leaves(Pick::New, &[1, 8, 9, 9, 9]),
    Step::Leaves(Pick::Fill(7), &[1, 7, 7, 7, 7]),
];

// A crash keeps what was synced.
const STOPS_SYNCED: &[Step<'static>] = &[
    Step::Write(1, &[8, 9, 9, 9], Ok(())),
    Step::Sync(Ok(())),
    Step::Write(0, &[6], Ok(())),
    Step::Leaves(Pick::Old, &[1, 8, 9, 9, 9]),
    Step::Leaves(Pick::New, &[6, 8, 9, 9, 9]),
    Step::Leaves(Pick::Fill(7), &[7, 8, 9, 9, 9]),
];

// A failed write has written its first half, and a crash may leave anything in its whole range.
const FAILS_IN_A_WRITE: &[Step<'static>] = &[
    Step::FailAt(2),
    Step::Len(Ok(3)),
    Step::Write(0, &[7, 8, 9, 6, 5], Err(DiskFault::Failed)),
    Step::Leaves(Pick::New, &[7, 8, 3]),
    Step::Leaves(Pick::Fill(0), &[0, 0, 0, 0, 0]),
    Step::Sync(Ok(())),
    Step::Leaves(Pick::Fill(0), &[7, 8, 3]),
];

// The n-th call fails once, and 0 cancels that.
const FAILS_ONCE: &[Step<'static>] = &[
    Step::FailAt(1),
    Step::Sync(Err(DiskFault::Failed)),
    Step::Len(Ok(3)),
    Step::FailAt(1),
    Step::Len(Err(DiskFault::Failed)),
    Step::FailAt(1),
    Step::FailAt(0),
    Step::Len(Ok(3)),
];

// From a crash on all calls fail, and the range of a failed write stays as it was.
const STOPS_FOR_GOOD: &[Step<'static>] = &[
    Step::StopAt(2),
    Step::Write(0, &[7], Ok(())),
    Step::Write(1, &[8, 9], Err(DiskFault::Failed)),
    Step::Sync(Err(DiskFault::Failed)),
    Step::Len(Err(DiskFault::Failed)),
    Step::ReadFails(0, DiskFault::Failed),
    Step::Leaves(Pick::Old, &[1, 2, 3]),
    Step::Leaves(Pick::New, &[7, 2, 3]),
    Step::Leaves(Pick::Fill(5), &[5, 2, 3]),
];

// Whether the disk has these bytes there.
fn has(disk: &mut MemoryDisk, at: u64, wanted: &[u8]) -> bool {
    let mut into = [0; 8];
    match into.get_mut(..wanted.len()) {
        Some(part) => disk.read_at(at, part) == Ok(()) && *part == *wanted,
        None => false,
    }
}

// Whether a crash leaves these bytes.
fn leaves(disk: &MemoryDisk, pick: Pick, wanted: &[u8]) -> bool {
    match disk.stop(pick) {
        Ok(left) => left.as_slice() == wanted,
        Err(_) => false,
    }
}

// Takes a step, and says whether its answer is the expected one.
fn take(disk: &mut MemoryDisk, step: &Step<'_>) -> bool {
    match step {
        Step::Len(wanted) => disk.len() == *wanted,
        Step::Read(at, wanted) => has(disk, *at, wanted),
        Step::ReadFails(at, fault) => disk.read_at(*at, &mut [0; 2]) == Err(*fault),
        Step::Write(at, bytes, wanted) => disk.write_at(*at, bytes) == *wanted,
        Step::Sync(wanted) => disk.sync() == *wanted,
        Step::FailAt(n) => {
            disk.fail_at(*n);
            true
        }
        Step::StopAt(n) => {
            disk.stop_at(*n);
            true
        }
        Step::Leaves(pick, wanted) => leaves(disk, *pick, wanted),
    }
}

// Whether all steps are right.
fn are_right(disk: &mut MemoryDisk, steps: &[Step<'_>]) -> bool {
    for step in steps {
        if !take(disk, step) {
            return false;
        }
    }
    true
}

// The same on a disk with these bytes.
fn are_right_on(alloc: Global, bytes: &[u8], steps: &[Step<'_>]) -> bool {
    match MemoryDisk::of(alloc, bytes) {
        Ok(disk) => {
            let mut disk = disk;
            are_right(&mut disk, steps)
        }
        Err(_) => false,
    }
}

fn are_all_right(alloc: Global) -> bool {
    are_right_on(alloc, &[1, 2, 3], READS)
        && are_right_on(alloc, &[1, 2, 3], READS_WRITTEN)
        && are_right_on(alloc, &[1], WRITES_PAST_THE_END)
        && are_right_on(alloc, &[1, 2, 3], STOPS_UNSYNCED)
        && are_right_on(alloc, &[1, 2, 3], STOPS_SYNCED)
        && are_right_on(alloc, &[1, 2, 3], FAILS_IN_A_WRITE)
        && are_right_on(alloc, &[1, 2, 3], FAILS_ONCE)
        && are_right_on(alloc, &[1, 2, 3], STOPS_FOR_GOOD)
}

#[test]
fn steps_are_taken(rt: HostRuntime) {
    expect(&rt, are_all_right(rt.alloc()));
}

// A disk of three bytes, and how often memory was refused to its creation.
fn made(alloc: Global) -> Option<(MemoryDisk, u32)> {
    match MemoryDisk::of(alloc, &[1, 2, 3]) {
        Ok(disk) => Some((disk, 0)),
        Err(_) => Some((MemoryDisk::of(alloc, &[1, 2, 3]).ok()?, 1)),
    }
}

// How often memory is refused to a write past the end, which then changes nothing. None where the second try fails.
fn written(disk: &mut MemoryDisk) -> Option<u32> {
    if disk.write_at(2, &[9, 8, 7]).is_ok() {
        return Some(0);
    }
    if disk.len() != Ok(3) {
        return None;
    }
    disk.write_at(2, &[9, 8, 7]).ok()?;
    Some(1)
}

// As `written`, for a sync.
fn synced(disk: &mut MemoryDisk) -> Option<u32> {
    if disk.sync().is_ok() {
        return Some(0);
    }
    disk.sync().ok()?;
    Some(1)
}

// What a crash leaves of a disk, and how often memory was refused to `stop`.
fn left(disk: &MemoryDisk) -> Option<(Vec<u8>, u32)> {
    match disk.stop(Pick::Old) {
        Ok(left) => Some((left, 0)),
        Err(_) => Some((disk.stop(Pick::Old).ok()?, 1)),
    }
}

// How often memory is refused to a disk that is made, written and synced, and then crashes. None where a second try
// fails, or a synced byte is lost.
fn refusals_of(alloc: Global) -> Option<u32> {
    let (mut disk, made) = made(alloc)?;
    let written = written(&mut disk)?;
    let synced = synced(&mut disk)?;
    let (left, stopped) = left(&disk)?;
    if left.as_slice() != [1, 2, 9, 8, 7].as_slice() {
        return None;
    }
    made.checked_add(written)?
        .checked_add(synced)?
        .checked_add(stopped)
}

fn is_at_most_one(count: Option<u32>) -> bool {
    matches!(count, Some(0 | 1))
}

// `tests/run` runs this with each allocation refused in turn.
#[test]
fn growths_are_refused_at_last(rt: HostRuntime) {
    expect(&rt, is_at_most_one(refusals_of(rt.alloc())));
}

// This passes only where none is refused.
#[test]
fn growths_are_refused_at_first(rt: HostRuntime) {
    expect(&rt, refusals_of(rt.alloc()) == Some(0));
}
