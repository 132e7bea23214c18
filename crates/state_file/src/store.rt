//! What a store of records is.

ghost use Rattle.std.specs.Prelude.{◌≡◌, ◌≢◌, ◌⊎◌, ◌≤◌, ◌∷◌, [], ◌++◌, ℕ, List, Bool, true, length};
ghost use Rattle.std.specs.Prelude.{IfErr, IsTrue};
ghost use Rattle.state_file.specs.Disk.{Counts, LeavesOnly};

mod file_store;
mod memory_store;
mod slot_list;

use crate::record::Record;
pub use file_store::FileStore;
pub use memory_store::{Cut, MemoryStore};
pub use slot_list::SlotList;
use thiserror::Error;

/// Why a store doesn't answer.
#[derive(Clone, Copy, Debug, PartialEq, Eq, Error)]
pub enum StoreFault {
    /// 26: a call failed, and the place wasn't opened again since.
    #[error("a call failed, and the place was not opened again since")]
    Stopped,
    /// 43: slot k spells no record, or its tag is wrong.
    #[error("slot {0} spells no record")]
    Damaged(u32),
    /// 45: the device failed.
    #[error("the device failed")]
    DeviceFailed,
    /// 46: memory was refused; nothing changed.
    #[error("out of memory")]
    OutOfMemory,
    /// 52: the store has its greatest number of records; nothing changed.
    #[error("the store is full")]
    Full,
}

impl StoreFault {
    ghost use Rattle.state_file.specs.Store.{store_fault_name, store_fault_number};

    /// The number that reports the fault: 26, 43, 45, 46 or 52.
    pub fn number(self) -> u8
        ensures { result ≡ store_fault_number self }
    {
        match self {
            StoreFault::Stopped => 26,
            StoreFault::Damaged(_) => 43,
            StoreFault::DeviceFailed => 45,
            StoreFault::OutOfMemory => 46,
            StoreFault::Full => 52,
        }
    }

    /// The name that is printed beside the number.
    pub fn name(self) -> &'static str
        ensures { result.now ≡ store_fault_name self }
    {
        match self {
            StoreFault::Stopped => "Stopped",
            StoreFault::Damaged(_) => "Damaged",
            StoreFault::DeviceFailed => "DeviceFailed",
            StoreFault::OutOfMemory => "OutOfMemory",
            StoreFault::Full => "Full",
        }
    }
}

/// A list of records that grows at its end.
pub trait Store {
    ghost use Rattle.state_file.specs.declared.record.Record.{Record as R};
    ghost use Rattle.state_file.specs.Store.{Appends, CanFollow, Collects, Loads, WhileRunning, is_out_of_memory};
    ghost use Rattle.state_file.specs.Store.{AddsGiven, AddsLoad, is_stopped, unreadable_slot};

    // its records
    ghost list: { Self → List R };

    // whether a call failed, so that no other is answered
    ghost stopped: { Self → Bool };

    // how often its device failed
    ghost failures: { Self → ℕ };

    // how often memory was refused to it
    ghost refusals: { Self → ℕ };

    // slots that `load` reported as unreadable, the last one first
    ghost unreadable: { Self → List ℕ };

    // slots that `load` was asked for while the store ran, the last one first
    ghost loads: { Self → List ℕ };

    // records that `load` gave, the first one first
    ghost given: { Self → List R };

    // whether its device keeps what was synced
    ghost honest: { Self → Bool };

    // the greatest number of records
    ghost most: { Self → ℕ };

    // this moment, as a number that doesn't fall
    ghost moment: { Self → ℕ };

    // The lists that a crash may have left at any moment since that one, inside a call or between two. A crash image
    // that doesn't decode counts as every list, so a clause that bounds the lists excludes it.
    ghost left_since: { Self → ℕ → List R → Type 0 };

    /// Record k; None after the last.
    fn load(&mut self, k: u32) -> Result<Option<Record>, StoreFault>
        ensures answer { Loads (honest self.old) (list self.old) (stopped self.old) k (stopped self.new)
            (failures self.old)
            (failures self.new) result }
        ensures refusals { Counts is_out_of_memory (refusals self.old) (refusals self.new) result }
        ensures unreadable { Collects unreadable_slot (unreadable self.old) (unreadable self.new) result }
        ensures loads { AddsLoad is_stopped k (loads self.old) (loads self.new) result }
        ensures given { AddsGiven (given self.old) (given self.new) result }
        ensures keeps_records { list self.new ≡ list self.old }
        ensures any_moment { WhileRunning (honest self.old) (stopped self.old)
            (LeavesOnly moment left_since self.old self.new (λ left. left ≡ list self.old)) }
        ensures stopped_unchanged { stopped self.old ≡ true → self.new ≡ self.old }
        ensures honest { honest self.new ≡ honest self.old }
        ensures most { most self.new ≡ most self.old };

    /// Adds a record at the end. The caller gives a Key first, and then records that a file of the Key's version can
    /// hold. A crash at any moment leaves the old records, or these and the new one. If the call is refused with
    /// anything but 45, it leaves the old ones.
    fn append(&mut self, new: &Record) -> Result<(), StoreFault>
        requires { IsTrue (honest self.old) → CanFollow (list self.old) new.now }
        ensures any_moment { WhileRunning (honest self.old) (stopped self.old)
            (LeavesOnly moment left_since self.old self.new
            (λ left. (left ≡ list self.old) ⊎ (left ≡ list self.old ++ new.now ∷ []))) }
        ensures refused { WhileRunning (honest self.old) (stopped self.old)
            (IfErr result (λ fault. fault ≢ StoreFault.DeviceFailed →
            LeavesOnly moment left_since self.old self.new (λ left. left ≡ list self.old))) }
        ensures stopped_unchanged { stopped self.old ≡ true → self.new ≡ self.old }
        ensures answer { Appends (most self.old) (list self.old) (stopped self.old) new.now (list self.new)
            (stopped self.new)
            (failures self.old) (failures self.new) result }
        ensures refusals { Counts is_out_of_memory (refusals self.old) (refusals self.new) result }
        ensures unreadable { unreadable self.new ≡ unreadable self.old }
        ensures loads { loads self.new ≡ loads self.old }
        ensures given { given self.new ≡ given self.old }
        ensures honest { honest self.new ≡ honest self.old }
        ensures most { most self.new ≡ most self.old };

    /// The greatest number of records.
    fn limit(&self) -> u32
        ensures { result ≡ most self.now };

    // There are never more records than that.
    ghost within_limit: { (store : Self) → length (list store) ≤ most store };

    // While no call has failed, a crash leaves the list ..
    ghost leaves_list: { (store : Self) (t : ℕ) → WhileRunning (honest store) (stopped store)
        (t ≤ moment store → left_since store t (list store)) };

    // .. and nothing else.
    ghost leaves_nothing_else: { (store : Self) (left : List R) → WhileRunning (honest store) (stopped store)
        (left_since store (moment store) left → left ≡ list store) };
}
