//! Disks: bytes that a crash may change where they weren't synced.

ghost use Rattle.std.specs.Prelude.{◌≡◌, ◌+◌, ◌<◌, ◌≤◌, ℕ, List, Bool, IsTrue, length, slice_range, IfOk, OnOk};
ghost use Rattle.typecodes.specs.Layout.{AreBytes};
ghost use Rattle.state_file.specs.Disk.{CallsDisk, Counts, DiskState, IsSteady, MayLeave, Syncs, WritesBytes};
ghost use Rattle.state_file.specs.Disk.{is_past_end};

mod log;
mod memory_disk;

pub use memory_disk::{MemoryDisk, Pick};
use thiserror::Error;

/// Why a disk refused a call.
#[derive(Clone, Copy, Debug, PartialEq, Eq, Error)]
pub enum DiskFault {
    /// The device failed.
    #[error("the device failed")]
    Failed,
    /// A read reaches past the end.
    #[error("a read reaches past the end")]
    PastEnd,
    /// Memory was refused.
    #[error("out of memory")]
    OutOfMemory,
}

/// A disk. A crash, as when the power goes, may change bytes that weren't synced.
///
/// Only an honest disk promises the clauses about bytes and crashes. `MemoryDisk` is proved honest; for a file of the
/// machine it is a premise.
pub trait Disk {
    // What a read gives, and what a crash at this moment may leave. While reads waver, after a sync that failed, each
    // gives some content that a crash may leave.
    ghost state: { Self → DiskState };

    // this moment, as a number that doesn't fall
    ghost moment: { Self → ℕ };

    // what a crash may have left at any moment since that one, inside a call or between two
    ghost left_since: { Self → ℕ → List ℕ → Type 0 };

    // how many calls it refused
    ghost failures: { Self → ℕ };

    // how many of these read past the end
    ghost past_ends: { Self → ℕ };

    // whether it keeps these promises
    ghost honest: { Self → Bool };

    /// The length in bytes.
    fn len(&mut self) -> Result<u64, DiskFault>
        ensures length { IsTrue (honest self.old) → IsSteady (state self.old) →
            IfOk result (λ n. n ≡ length (state self.old).content) }
        ensures wavers { IsTrue (honest self.old) →
            IfOk result (λ n. (c : List ℕ) × MayLeave (state self.old) c × (n ≡ length c)) }
        ensures keeps_state { IsTrue (honest self.old) → state self.new ≡ state self.old }
        ensures past_ends { past_ends self.new ≡ past_ends self.old }
        ensures call { CallsDisk honest state moment left_since failures self.old self.new result };

    /// Fills `into`, of one byte at least, from offset `at` on. A read past the end is refused, and no other one as
    /// `PastEnd`. After an Err, `into` may hold anything.
    fn read_at(&mut self, at: u64, into: &mut [u8]) -> Result<(), DiskFault>
        requires { 0 < length into.old }
        ensures within { IsTrue (honest self.old) → IsSteady (state self.old) →
            OnOk result (at + length into.old ≤ length (state self.old).content) }
        ensures bytes { IsTrue (honest self.old) → IsSteady (state self.old) →
            OnOk result (into.new ≡ slice_range (state self.old).content at (at + length into.old)) }
        ensures past_end { IsTrue (honest self.old) → IsSteady (state self.old) → result ≡ Err DiskFault.PastEnd →
            length (state self.old).content < at + length into.old }
        ensures wavers { IsTrue (honest self.old) →
            OnOk result ((c : List ℕ) × MayLeave (state self.old) c × (at + length into.old ≤ length c) ×
            (into.new ≡ slice_range c at (at + length into.old))) }
        ensures past_ends { Counts is_past_end (past_ends self.old) (past_ends self.new) result }
        ensures keeps_state { IsTrue (honest self.old) → state self.new ≡ state self.old }
        ensures call { CallsDisk honest state moment left_since failures self.old self.new result };

    /// Writes one byte or more at `at`, over old bytes and past the end. Until a sync succeeds, a crash may leave any
    /// bytes in this range.
    fn write_at(&mut self, at: u64, bytes: &[u8]) -> Result<(), DiskFault>
        requires { 0 < length bytes.now }
        ensures written { IsTrue (honest self.old) → WritesBytes at bytes.now (state self.old) (state self.new) result }
        ensures past_ends { past_ends self.new ≡ past_ends self.old }
        ensures call { CallsDisk honest state moment left_since failures self.old self.new result };

    /// After an Ok a crash leaves what a read gives.
    fn sync(&mut self) -> Result<(), DiskFault>
        ensures synced { IsTrue (honest self.old) → Syncs (state self.old) (state self.new) result }
        ensures past_ends { past_ends self.new ≡ past_ends self.old }
        ensures call { CallsDisk honest state moment left_since failures self.old self.new result };

    ghost gives_bytes: { (disk : Self) → IsTrue (honest disk) → AreBytes (state disk).content };

    // A crash may leave what a read gives.
    ghost shows: { (disk : Self) → IsTrue (honest disk) → MayLeave (state disk) (state disk).content };

    // What a crash may leave now is among what it may have left since any earlier moment.
    ghost counts_now: { (disk : Self) (t : ℕ) (c : List ℕ) → IsTrue (honest disk) → t ≤ moment disk →
        MayLeave (state disk) c → left_since disk t c };

    // Since this moment it is nothing else.
    ghost only_now: { (disk : Self) (c : List ℕ) → IsTrue (honest disk) → left_since disk (moment disk) c →
        MayLeave (state disk) c };
}
