//! A disk in memory, to show what a crash may leave.

ghost use Rattle.std.specs.Prelude.{if◌then◌else◌, nat_le, true, ◌-◌, ◌≡◌, ◌+◌, ◌≤◌, ◌<◌, length, slice_range};
ghost use Rattle.std.specs.Prelude.{IfOk, IfErr, List, OnOk, OnErr, ◌≢◌, ℕ};
ghost use Rattle.std.proofs.Props.{props};
ghost use Rattle.typecodes.specs.Layout.{AreBytes};
ghost use Rattle.state_file.specs.Disk.{MayLeave, settled, WritesBytes, Syncs, Counts};
ghost use Rattle.state_file.specs.Disk.{is_failure, is_past_end};
ghost use Rattle.state_file.specs.Log.{LeftBy};
ghost use Rattle.state_file.specs.inner.Log.{left_now, left_only_now};

use crate::disk::log::{Entry, base, keep, longest_left, part, write};
use crate::disk::{Disk, DiskFault};
use std::alloc::{AllocError, Global};
use typecodes::Count;

/// Which of the contents that a crash may leave.
#[derive(Clone, Copy, Debug, PartialEq, Eq)]
pub enum Pick {
    /// The content right after the last sync that succeeded.
    Old,
    /// What a read gives.
    New,
    /// The longest one, with this byte wherever a crash may leave any.
    Fill(u8),
}

// What happens to a call: it runs; it alone is refused; or the disk has stopped, and refuses this call and all later
// ones.
#[derive(Clone, Copy, Debug, PartialEq, Eq)]
enum Fate {
    Runs,
    Fails,
    Stopped,
}

// How many calls come before the stop, and before the one that fails.
#[derive(Clone, Copy, Debug, PartialEq, Eq)]
struct Plan {
    stop: Option<u32>,
    fail: Option<u32>,
}

impl Plan {
    ghost use Rattle.state_file.specs.MemoryDisk.{fate_of, next_fail, next_stop};

    // What happens to the next call.
    fn next(&mut self) -> Fate
        ensures fate { result ≡ fate_of self.old.stop self.old.fail }
        ensures stop { self.new.stop ≡ next_stop self.old.stop }
        ensures fail { self.new.fail ≡ next_fail self.old.fail }
    {
        let fate = match (self.stop, self.fail) {
            (Some(0), _) => Fate::Stopped,
            (_, Some(0)) => Fate::Fails,
            _ => Fate::Runs,
        };
        self.stop = self.stop.map(|before| before.saturating_sub(1));
        self.fail = self.fail.and_then(|before| before.checked_sub(1));
        fate
    }

    // Refuses the next call, unless it runs.
    fn admit(&mut self, failures: &mut Count) -> Result<(), DiskFault>
        ensures runs { OnOk result (fate_of self.old.stop self.old.fail ≡ Fate.Runs) }
        ensures refused { OnErr result (fate_of self.old.stop self.old.fail ≢ Fate.Runs) }
        ensures fault { IfErr result (λ fault. fault ≡ DiskFault.Failed) }
        ensures stop { self.new.stop ≡ next_stop self.old.stop }
        ensures fail { self.new.fail ≡ next_fail self.old.fail }
        ensures failures { Counts is_failure failures.old failures.new result }
    {
        if self.next() != Fate::Runs {
            return refuse(failures, DiskFault::Failed);
        }
        Ok(())
    }
}

/// A disk in memory. It is honest: a crash leaves what its log allows, and nothing else.
#[derive(Drop)]
pub struct MemoryDisk {
    alloc: Global,
    // what a read gives
    content: Vec<u8>,
    // the content at the beginning
    first: Vec<u8>,
    // what was done since
    log: Vec<Entry>,
    plan: Plan,
    failures: Count,
    past_ends: Count,
    ghost bytes: { AreBytes content.items },
    ghost shows: { LeftBy first.items log.items content.items } by { Prim.hlevel props },
}

impl MemoryDisk {
    ghost use Rattle.state_file.specs.MemoryDisk.{Picks, SameMoment, nth_call, state_of};
    ghost use Rattle.state_file.specs.MemoryDisk.{fail_of, failures_of, past_ends_of, stop_of};

    /// A disk with these bytes, all synced.
    pub fn of(alloc: Global, bytes: &[u8]) -> Result<Self, AllocError>
        ensures state { IfOk result (λ disk. state_of disk ≡ settled bytes.now) }
        ensures plan { IfOk result (λ disk. (stop_of disk ≡ None) × (fail_of disk ≡ None)) }
        ensures failures { IfOk result (λ disk. (failures_of disk ≡ 0) × (past_ends_of disk ≡ 0)) }
    {
        Ok(MemoryDisk {
            alloc,
            content: bytes.to_vec(alloc)?,
            first: bytes.to_vec(alloc)?,
            log: Vec::new(alloc),
            plan: Plan {
                stop: None,
                fail: None,
            },
            failures: Count::new(),
            past_ends: Count::new(),
        })
    }

    /// Refuses the n-th call from now (1 is the next one), and no other. If that is a write, it writes the first half
    /// of its bytes, rounded down. This replaces a failure that is still to come; 0 cancels it.
    pub fn fail_at(&mut self, n: u32)
        ensures fail { fail_of self.new ≡ nth_call n }
        ensures stop { stop_of self.new ≡ stop_of self.old }
        ensures moment { SameMoment self.old self.new }
    {
        self.plan.fail = n.checked_sub(1);
    }

    /// Stops the disk before the n-th call from now (1 is the next one): this call and all later ones are refused, and
    /// do nothing. This replaces another stop; 0 cancels it.
    pub fn stop_at(&mut self, n: u32)
        ensures stop { stop_of self.new ≡ nth_call n }
        ensures fail { fail_of self.new ≡ fail_of self.old }
        ensures moment { SameMoment self.old self.new }
    {
        self.plan.stop = n.checked_sub(1);
    }

    /// One of the contents that a crash may leave now, by `pick`. If the disk has stopped, it is one of that moment, as
    /// calls did nothing since.
    pub fn stop(&self, pick: Pick) -> Result<Vec<u8>, AllocError>
        ensures left { IfOk result (λ c. MayLeave (state_of self.now) c.items) }
        ensures picked { IfOk result (λ c. Picks pick (state_of self.now) c.items) }
    {
        match pick {
            Pick::Old => base(&self.first, &self.log).to_vec(self.alloc),
            Pick::New => self.content.to_vec(self.alloc),
            Pick::Fill(byte) => longest_left(
                self.alloc,
                base(&self.first, &self.log),
                &self.log,
                byte,
            ),
        }
    }
}

impl Disk for MemoryDisk {
    ghost use Rattle.state_file.specs.MemoryDisk.{CallComes, SyncsInMemory, WritesInMemory, answer_of};
    ghost use Rattle.state_file.specs.MemoryDisk.{left_since_of, moment_of, state_of};
    ghost use Rattle.state_file.specs.MemoryDisk.{failures_of, next_fate, past_ends_of};

    ghost state = { state_of };

    ghost moment = { moment_of };

    ghost left_since = { left_since_of };

    ghost failures = { failures_of };

    ghost past_ends = { past_ends_of };

    ghost honest = { λ _. true };

    ghost gives_bytes = { λ disk _. disk.bytes };

    ghost shows = { λ disk _. disk.shows };

    ghost counts_now = { λ disk t c _ early left. left_now disk.first.items disk.log.items t c early left };

    ghost only_now = { λ disk c _ since. left_only_now disk.first.items disk.log.items c since };

    fn len(&mut self) -> Result<u64, DiskFault>
        ensures value { result ≡ answer_of (next_fate self.old) (Ok (length (state_of self.old).content)) }
        ensures length { IfOk result (λ n. n ≡ length (state_of self.old).content) }
        ensures wavers { IfOk result (λ n. (c : List ℕ) × MayLeave (state_of self.old) c × (n ≡ length c)) }
        ensures keeps_state { state_of self.new ≡ state_of self.old }
        ensures past_ends { past_ends_of self.new ≡ past_ends_of self.old }
        ensures call { CallComes self.old self.new result }
    {
        self.plan.admit(&mut self.failures)?;
        Ok(self.content.len() as u64)
    }

    fn read_at(&mut self, at: u64, into: &mut [u8]) -> Result<(), DiskFault>
        ensures value { result ≡ answer_of (next_fate self.old)
            (if nat_le (at + length into.old) (length (state_of self.old).content) then Ok tt else Err
            DiskFault.PastEnd) }
        ensures within { OnOk result (at + length into.old ≤ length (state_of self.old).content) }
        ensures bytes { OnOk result (into.new ≡ slice_range (state_of self.old).content at (at + length into.old)) }
        ensures past_end { result ≡ Err DiskFault.PastEnd →
            length (state_of self.old).content < at + length into.old }
        ensures wavers { OnOk result ((c : List ℕ) × MayLeave (state_of self.old) c ×
            (at + length into.old ≤ length c) × (into.new ≡ slice_range c at (at + length into.old))) }
        ensures past_ends { Counts is_past_end (past_ends_of self.old) (past_ends_of self.new) result }
        ensures keeps_state { state_of self.new ≡ state_of self.old }
        ensures call { CallComes self.old self.new result }
    {
        self.plan.admit(&mut self.failures)?;
        match part(&self.content, at, into.len()) {
            Some(part) => {
                into.copy_from_slice(part);
                Ok(())
            }
            None => {
                self.past_ends.add_one();
                refuse(&mut self.failures, DiskFault::PastEnd)
            }
        }
    }

    fn write_at(&mut self, at: u64, bytes: &[u8]) -> Result<(), DiskFault>
        ensures stores { WritesInMemory at bytes.now (state_of self.old) (state_of self.new) (next_fate self.old)
            result }
        ensures written { WritesBytes at bytes.now (state_of self.old) (state_of self.new) result }
        ensures past_ends { past_ends_of self.new ≡ past_ends_of self.old }
        ensures call { CallComes self.old self.new result }
    {
        match self.plan.next() {
            Fate::Runs => match write(&mut self.content, &mut self.log, at, bytes, bytes.len()) {
                Ok(()) => Ok(()),
                Err(_) => refuse(&mut self.failures, DiskFault::OutOfMemory),
            },
            Fate::Fails => match write(
                &mut self.content,
                &mut self.log,
                at,
                bytes,
                bytes.len() / 2,
            ) {
                Ok(()) => refuse(&mut self.failures, DiskFault::Failed),
                Err(_) => refuse(&mut self.failures, DiskFault::OutOfMemory),
            },
            Fate::Stopped => refuse(&mut self.failures, DiskFault::Failed),
        }
    }

    fn sync(&mut self) -> Result<(), DiskFault>
        ensures flushes { SyncsInMemory (state_of self.old) (state_of self.new) (next_fate self.old) result }
        ensures synced { Syncs (state_of self.old) (state_of self.new) result }
        ensures past_ends { past_ends_of self.new ≡ past_ends_of self.old }
        ensures call { CallComes self.old self.new result }
    {
        self.plan.admit(&mut self.failures)?;
        match keep(self.alloc, &self.content, &mut self.log) {
            Ok(()) => Ok(()),
            Err(_) => refuse(&mut self.failures, DiskFault::OutOfMemory),
        }
    }
}

// Counts a refused call.
fn refuse<T>(failures: &mut Count, fault: DiskFault) -> Result<T, DiskFault>
    ensures fault { result ≡ Err fault }
    ensures failures { failures.new ≡ failures.old + 1 }
{
    failures.add_one();
    Err(fault)
}
