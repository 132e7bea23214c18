//! A disk over an open file.

ghost use Rattle.std.specs.Prelude.{◌≡◌, ◌+◌, ◌<◌, ◌≤◌, ℕ, List, IsTrue, length};
ghost use Rattle.std.specs.Prelude.{IfOk, OnOk, slice_range};
ghost use Rattle.state_file.specs.Disk.{CallsDisk, Counts, IsSteady, MayLeave, Syncs, WritesBytes};
ghost use Rattle.state_file.specs.Disk.{is_failure, is_past_end};
ghost use Rattle.command.specs.FileDisk.{Measures, ReadsAt, SyncsAll, WritesAt};
ghost use Rattle.command.specs.inner.FileDisk.{DiskMeasures, DiskReads, DiskSyncs, DiskWrites};

use crate::offset_file::OffsetFile;
use state_file::{Disk, DiskFault};
use std::io;
use typecodes::{Count, Message, Sink, read_full, write_all};

// A file from an offset on; each call begins where the last one ended.
#[derive(Drop)]
struct AtOffset<'a, F> {
    file: &'a mut F,
    at: u64,
}

impl<F: OffsetFile> Message for AtOffset<'_, F> {
    ghost use Rattle.std.specs.Prelude.{None};
    ghost use Rattle.command.specs.inner.FileDisk.{ReadsNext};

    ghost remaining = { λ _. None };

    ghost request = { ReadsNext F.OffsetFile };

    fn read_into(&mut self, buffer: &mut [u8]) -> io::Result<usize> {
        let n = self.file.read_at(self.at, buffer)?;
        self.at = self.at.wrapping_add(n as u64);
        Ok(n)
    }
}

impl<F: OffsetFile> Sink for AtOffset<'_, F> {
    ghost use Rattle.std.specs.Prelude.{None};
    ghost use Rattle.command.specs.inner.FileDisk.{WritesNext};

    ghost contents = { λ _. None };

    ghost transition = { WritesNext F.OffsetFile };

    fn write_from(&mut self, bytes: &[u8]) -> io::Result<usize> {
        let n = self.file.write_at(self.at, bytes)?;
        self.at = self.at.wrapping_add(n as u64);
        Ok(n)
    }
}

fn length_of<F: OffsetFile>(file: &mut F) -> Result<u64, DiskFault>
    ensures { DiskMeasures F.OffsetFile result file.old file.new }
{
    file.len().map_err(|_| DiskFault::Failed)
}

fn read_whole_at<F: OffsetFile>(file: &mut F, at: u64, into: &mut [u8]) -> Result<(), DiskFault>
    requires { 0 < length into.old }
    ensures { DiskReads F.OffsetFile at into.new result file.old file.new }
{
    if at.checked_add(into.len() as u64).is_none() {
        return Err(DiskFault::Failed);
    }
    match read_full(&mut AtOffset { file, at }, into) {
        Ok(n) => if n < into.len() {
            Err(DiskFault::PastEnd)
        } else {
            Ok(())
        },
        Err(_) => Err(DiskFault::Failed),
    }
}

fn write_all_at<F: OffsetFile>(file: &mut F, at: u64, bytes: &[u8]) -> Result<(), DiskFault>
    ensures { DiskWrites F.OffsetFile at bytes.now result file.old file.new }
{
    if at.checked_add(bytes.len() as u64).is_none() {
        return Err(DiskFault::Failed);
    }
    match write_all(&mut AtOffset { file, at }, bytes) {
        Ok(()) => Ok(()),
        Err(_) => Err(DiskFault::Failed),
    }
}

fn sync_file<F: OffsetFile>(file: &mut F) -> Result<(), DiskFault>
    ensures { DiskSyncs F.OffsetFile result file.old file.new }
{
    file.sync().map_err(|_| DiskFault::Failed)
}

/// A disk over a file. Contracts say which calls are made. It is honest exactly where the file is.
#[derive(Drop)]
pub struct FileDisk<F> {
    file: F,
    failures: Count,
    past_ends: Count,
}

impl<F: OffsetFile> FileDisk<F> {
    ghost use Rattle.command.specs.FileDisk.{failures_of, file_of, past_ends_of};

    /// The disk over this file; it has refused nothing yet.
    pub fn new(file: F) -> Self
        ensures file { file_of result ≡ file }
        ensures failures { failures_of result ≡ 0 }
        ensures past_ends { past_ends_of result ≡ 0 }
    {
        FileDisk {
            file,
            failures: Count::new(),
            past_ends: Count::new(),
        }
    }
}

// Returns the answer, and counts a refusal.
fn counted_refusal<T>(
    answer: Result<T, DiskFault>,
    failures: &mut Count,
    past_ends: &mut Count,
) -> Result<T, DiskFault>
    ensures answer { result ≡ answer }
    ensures failures { Counts is_failure failures.old failures.new result }
    ensures past_ends { Counts is_past_end past_ends.old past_ends.new result }
{
    if let Err(fault) = &answer {
        failures.add_one();
        if *fault == DiskFault::PastEnd {
            past_ends.add_one();
        }
    }
    answer
}

impl<F: OffsetFile> Disk for FileDisk<F> {
    ghost use Rattle.command.specs.FileDisk.{failures_of, file_of, past_ends_of};
    ghost use Rattle.command.specs.FileDisk.{honest_of, left_since_of, moment_of, state_of};

    ghost state = { state_of F.OffsetFile };

    ghost moment = { moment_of F.OffsetFile };

    ghost left_since = { left_since_of F.OffsetFile };

    ghost failures = { failures_of };

    ghost past_ends = { past_ends_of };

    ghost honest = { honest_of F.OffsetFile };

    ghost gives_bytes = { λ disk is_honest. F.gives_bytes (file_of disk) is_honest };

    ghost shows = { λ disk is_honest. F.shows (file_of disk) is_honest };

    ghost counts_now = { λ disk t c is_honest early left. F.counts_now (file_of disk) t c is_honest early left };

    ghost only_now = { λ disk c is_honest since. F.only_now (file_of disk) c is_honest since };

    fn len(&mut self) -> Result<u64, DiskFault>
        ensures measures { Measures result (F.trace (file_of self.old)) (F.trace (file_of self.new)) }
        ensures length { IsTrue (F.honest (file_of self.old)) → IsSteady (F.state (file_of self.old)) →
            IfOk result (λ n. n ≡ length (F.state (file_of self.old)).content) }
        ensures wavers { IsTrue (F.honest (file_of self.old)) →
            IfOk result (λ n. (c : List ℕ) × MayLeave (F.state (file_of self.old)) c × (n ≡ length c)) }
        ensures keeps_state { IsTrue (F.honest (file_of self.old)) →
            F.state (file_of self.new) ≡ F.state (file_of self.old) }
        ensures past_ends { past_ends_of self.new ≡ past_ends_of self.old }
        ensures call { CallsDisk (honest_of F.OffsetFile) (state_of F.OffsetFile) (moment_of F.OffsetFile)
            (left_since_of F.OffsetFile) failures_of self.old self.new result }
    {
        let answer = length_of(&mut self.file);
        counted_refusal(answer, &mut self.failures, &mut self.past_ends)
    }

    fn read_at(&mut self, at: u64, into: &mut [u8]) -> Result<(), DiskFault>
        requires { 0 < length into.old }
        ensures reads { ReadsAt at into.new result (F.trace (file_of self.old)) (F.trace (file_of self.new)) }
        ensures within { IsTrue (F.honest (file_of self.old)) → IsSteady (F.state (file_of self.old)) →
            OnOk result (at + length into.old ≤ length (F.state (file_of self.old)).content) }
        ensures bytes { IsTrue (F.honest (file_of self.old)) → IsSteady (F.state (file_of self.old)) →
            OnOk result (into.new ≡ slice_range (F.state (file_of self.old)).content at (at + length into.old)) }
        ensures past_end { IsTrue (F.honest (file_of self.old)) → IsSteady (F.state (file_of self.old)) →
            result ≡ Err DiskFault.PastEnd →
            length (F.state (file_of self.old)).content < at + length into.old }
        ensures wavers { IsTrue (F.honest (file_of self.old)) →
            OnOk result ((c : List ℕ) × MayLeave (F.state (file_of self.old)) c ×
            (at + length into.old ≤ length c) × (into.new ≡ slice_range c at (at + length into.old))) }
        ensures past_ends { Counts is_past_end (past_ends_of self.old) (past_ends_of self.new) result }
        ensures keeps_state { IsTrue (F.honest (file_of self.old)) →
            F.state (file_of self.new) ≡ F.state (file_of self.old) }
        ensures call { CallsDisk (honest_of F.OffsetFile) (state_of F.OffsetFile) (moment_of F.OffsetFile)
            (left_since_of F.OffsetFile) failures_of self.old self.new result }
    {
        let answer = read_whole_at(&mut self.file, at, into);
        counted_refusal(answer, &mut self.failures, &mut self.past_ends)
    }

    fn write_at(&mut self, at: u64, bytes: &[u8]) -> Result<(), DiskFault>
        requires { 0 < length bytes.now }
        ensures writes { WritesAt at bytes.now result (F.trace (file_of self.old)) (F.trace (file_of self.new)) }
        ensures written { IsTrue (F.honest (file_of self.old)) →
            WritesBytes at bytes.now (F.state (file_of self.old)) (F.state (file_of self.new)) result }
        ensures past_ends { past_ends_of self.new ≡ past_ends_of self.old }
        ensures call { CallsDisk (honest_of F.OffsetFile) (state_of F.OffsetFile) (moment_of F.OffsetFile)
            (left_since_of F.OffsetFile) failures_of self.old self.new result }
    {
        let answer = write_all_at(&mut self.file, at, bytes);
        counted_refusal(answer, &mut self.failures, &mut self.past_ends)
    }

    fn sync(&mut self) -> Result<(), DiskFault>
        ensures syncs { SyncsAll result (F.trace (file_of self.old)) (F.trace (file_of self.new)) }
        ensures synced { IsTrue (F.honest (file_of self.old)) →
            Syncs (F.state (file_of self.old)) (F.state (file_of self.new)) result }
        ensures past_ends { past_ends_of self.new ≡ past_ends_of self.old }
        ensures call { CallsDisk (honest_of F.OffsetFile) (state_of F.OffsetFile) (moment_of F.OffsetFile)
            (left_since_of F.OffsetFile) failures_of self.old self.new result }
    {
        let answer = sync_file(&mut self.file);
        counted_refusal(answer, &mut self.failures, &mut self.past_ends)
    }
}
