//! A store in memory.

ghost use Rattle.std.specs.Prelude.{◌⊎◌, length, ◌≡◌, ◌≢◌, ◌≤◌, ◌<◌, ◌+◌, true, false, [], ◌∷◌, ◌++◌, IfErr};
ghost use Rattle.std.specs.Prelude.{OnOk, OnErr, if◌then◌else◌, slice_get, vec_len, vec_capacity};
ghost use Rattle.state_file.specs.Disk.{Counts};
ghost use Rattle.state_file.specs.Store.{AddsGiven, AddsLoad, Appends, Collects, Loads, is_out_of_memory};
ghost use Rattle.state_file.specs.Store.{is_stopped as is_stopped_fault, unreadable_slot};

use crate::record::{Record, RecordList};
use crate::store::{SlotList, Store, StoreFault};
use std::alloc::Global;
use typecodes::Count;

/// What a cut append leaves: the old records, or these and the new one.
#[derive(Clone, Copy, Debug, PartialEq, Eq)]
pub enum Cut {
    Old,
    New,
}

/// Records in memory. It is honest. `cut_at` makes a later append fail, as a device would.
#[derive(Drop)]
pub struct MemoryStore {
    records: Vec<Record>,
    limit: u32,
    // how many appends come before the one that is cut, and what that one leaves
    cut: Option<(u32, Cut)>,
    stopped: bool,
    failures: Count,
    refusals: Count,
    // slots that load was asked for, and records that it gave
    loads: SlotList,
    given: RecordList,
    ghost at_most_limit: { length records.items ≤ limit },
}

impl MemoryStore {
    ghost use Rattle.state_file.specs.MemoryStore.{KeepsLoads, KeepsRecords, cut_of, cut_of_append, failures_of};
    ghost use Rattle.state_file.specs.MemoryStore.{given_of, is_stopped, limit_of, loads_of, records_of, refusals_of};

    /// An empty store of at most `limit` records.
    pub fn with_limit(alloc: Global, limit: u32) -> Self
        ensures records { records_of result ≡ [] }
        ensures limit { limit_of result ≡ limit }
        ensures cut { cut_of result ≡ None }
        ensures stopped { is_stopped result ≡ false }
        ensures failures { failures_of result ≡ 0 }
        ensures refusals { refusals_of result ≡ 0 }
        ensures loads { loads_of result ≡ [] }
        ensures given { given_of result ≡ [] }
    {
        MemoryStore {
            records: Vec::new(alloc),
            limit,
            cut: None,
            stopped: false,
            failures: Count::new(),
            refusals: Count::new(),
            loads: SlotList::new(),
            given: RecordList::new(),
        }
    }

    /// Cuts the n-th append from now (1 is the next one): it answers 45 and leaves what `cut` says. This replaces a cut
    /// that is still to come; 0 cancels it.
    ///
    /// Only appends that reach the device count, not those that are answered 26, 46 or 52.
    pub fn cut_at(&mut self, n: u32, cut: Cut)
        ensures cut { cut_of self.new ≡ cut_of_append n cut }
        ensures stopped { is_stopped self.new ≡ is_stopped self.old }
        ensures failures { failures_of self.new ≡ failures_of self.old }
        ensures records { KeepsRecords self.old self.new }
        ensures loads { KeepsLoads self.old self.new }
    {
        self.cut = n.checked_sub(1).map(|before| (before, cut));
    }

    /// Opens the place again after a failure.
    pub fn reopen(&mut self)
        ensures stopped { is_stopped self.new ≡ false }
        ensures cut { cut_of self.new ≡ cut_of self.old }
        ensures failures { failures_of self.new ≡ failures_of self.old }
        ensures records { KeepsRecords self.old self.new }
        ensures loads { KeepsLoads self.old self.new }
    {
        self.stopped = false;
    }

    // Stops the store, as its device failed. The cut is over.
    fn fail(&mut self) -> StoreFault
        ensures fault { result ≡ StoreFault.DeviceFailed }
        ensures stopped { is_stopped self.new ≡ true }
        ensures failures { failures_of self.new ≡ failures_of self.old + 1 }
        ensures records { KeepsRecords self.old self.new }
        ensures loads { KeepsLoads self.old self.new }
        ensures cut { cut_of self.new ≡ None }
    {
        self.cut = None;
        self.stopped = true;
        self.failures.add_one();
        StoreFault::DeviceFailed
    }
}

impl Store for MemoryStore {
    ghost use Rattle.state_file.specs.MemoryStore.{Cuts, HadBeen, HasRoom, KeepsRecords, LeavesInMemory};
    ghost use Rattle.state_file.specs.inner.MemoryStore.{had_been_all};
    ghost use Rattle.state_file.specs.MemoryStore.{cut_of, failures_of, given_of, is_stopped, limit_of};
    ghost use Rattle.state_file.specs.inner.MemoryStore.{had_been_only};
    ghost use Rattle.state_file.specs.MemoryStore.{loads_of, records_of, refusals_of};

    ghost list = { records_of };

    ghost stopped = { is_stopped };

    ghost failures = { failures_of };

    ghost refusals = { refusals_of };

    // All of its records can be read.
    ghost unreadable = { λ _. [] };

    ghost loads = { loads_of };

    ghost given = { given_of };

    ghost honest = { λ _. true };

    ghost most = { limit_of };

    ghost moment = { λ store. length (records_of store) };

    ghost left_since = { λ store. HadBeen (records_of store) };

    ghost within_limit = { λ store. store.at_most_limit };

    ghost leaves_list = { λ store t _ _ early. had_been_all store.records.items t early };

    ghost leaves_nothing_else = { λ store left _ _ since. had_been_only store.records.items left since };

    /// Record k; None after the last. It fails only where the store has stopped.
    fn load(&mut self, k: u32) -> Result<Option<Record>, StoreFault>
        ensures answer { Loads true (records_of self.old) (is_stopped self.old) k (is_stopped self.new)
            (failures_of self.old)
            (failures_of self.new) result }
        ensures refusals { Counts is_out_of_memory (refusals_of self.old) (refusals_of self.new) result }
        ensures unreadable { Collects unreadable_slot [] [] result }
        ensures loads { AddsLoad is_stopped_fault k (loads_of self.old) (loads_of self.new) result }
        ensures given { AddsGiven (given_of self.old) (given_of self.new) result }
        ensures keeps_records { records_of self.new ≡ records_of self.old }
        ensures any_moment { is_stopped self.old ≡ false →
            LeavesInMemory self.old self.new (λ left. left ≡ records_of self.old) }
        ensures stopped_unchanged { is_stopped self.old ≡ true → self.new ≡ self.old }
        ensures records { KeepsRecords self.old self.new }
        ensures cut { cut_of self.new ≡ cut_of self.old }
        ensures stopped { is_stopped self.new ≡ is_stopped self.old }
        ensures failures { failures_of self.new ≡ failures_of self.old }
        ensures room { HasRoom self.old → HasRoom self.new }
        ensures value { result ≡
            (if is_stopped self.old then Err StoreFault.Stopped else Ok (slice_get (records_of self.old) k)) }
    {
        if self.stopped {
            Err(StoreFault::Stopped)
        } else {
            self.loads.push(k);
            match self.records.get(k as usize) {
                Some(record) => {
                    self.given.push(record);
                    Ok(Some(record.copied()))
                }
                None => Ok(None),
            }
        }
    }

    /// Adds a record at the end. If memory is refused, a cut isn't counted down: one that is due comes with the next
    /// append. Memory is requested only where the records have no room left, and not for a cut that leaves the old
    /// records.
    fn append(&mut self, new: &Record) -> Result<(), StoreFault>
        ensures answer { Appends (limit_of self.old) (records_of self.old) (is_stopped self.old) new.now
            (records_of self.new)
            (is_stopped self.new) (failures_of self.old) (failures_of self.new) result }
        ensures refusals { Counts is_out_of_memory (refusals_of self.old) (refusals_of self.new) result }
        ensures any_moment { is_stopped self.old ≡ false →
            LeavesInMemory self.old self.new
            (λ left. (left ≡ records_of self.old) ⊎ (left ≡ records_of self.old ++ new.now ∷ [])) }
        ensures refused { is_stopped self.old ≡ false → IfErr result (λ fault.
            fault ≢ StoreFault.DeviceFailed →
            LeavesInMemory self.old self.new (λ left. left ≡ records_of self.old)) }
        ensures stopped_unchanged { is_stopped self.old ≡ true → self.new ≡ self.old }
        ensures loads { loads_of self.new ≡ loads_of self.old }
        ensures given { given_of self.new ≡ given_of self.old }
        ensures limit { limit_of self.new ≡ limit_of self.old }
        ensures cut { Cuts (cut_of self.old) (records_of self.old) new.now (records_of self.new) (cut_of self.new)
            result }
        ensures room { HasRoom self.old → result ≢ Err StoreFault.OutOfMemory }
    {
        if self.stopped {
            return Err(StoreFault::Stopped);
        }
        if self.records.len() >= self.limit as usize {
            return Err(StoreFault::Full);
        }
        match self.cut {
            None => push_copy(&mut self.records, &mut self.refusals, new),
            Some((0, Cut::Old)) => Err(self.fail()),
            Some((0, Cut::New)) => {
                push_copy(&mut self.records, &mut self.refusals, new)?;
                Err(self.fail())
            }
            Some((before, cut)) => {
                push_copy(&mut self.records, &mut self.refusals, new)?;
                self.cut = Some((before - 1, cut));
                Ok(())
            }
        }
    }

    fn limit(&self) -> u32 {
        self.limit
    }
}

// Adds a record at the end. A refusal of memory is counted, and leaves the list as it is.
fn push_copy(
    records: &mut Vec<Record>,
    refusals: &mut Count,
    new: &Record,
) -> Result<(), StoreFault>
    ensures ok { OnOk result (records.new.items ≡ records.old.items ++ new.now ∷ []) }
    ensures err { OnErr result (records.new.items ≡ records.old.items) }
    ensures full { OnErr result (vec_capacity records.old ≤ vec_len records.old) }
    ensures fault { IfErr result (λ e. e ≡ StoreFault.OutOfMemory) }
    ensures refusals { Counts is_out_of_memory refusals.old refusals.new result }
{
    match records.push(new.copied()) {
        Ok(()) => Ok(()),
        Err(_) => {
            refusals.add_one();
            Err(StoreFault::OutOfMemory)
        }
    }
}
