//! An open file, read and written at offsets.

ghost use Rattle.std.specs.Prelude.{◌≡◌, ◌++◌, ◌∷◌, ◌≤◌, [], ℕ, List, Bool, IfOk, IsTrue, length};
ghost use Rattle.std.specs.Io.{ReadsAtMost, WritesAtMost};
ghost use Rattle.state_file.specs.Disk.{DiskState, MayLeave, Syncs};
ghost use Rattle.typecodes.specs.Layout.{AreBytes};
ghost use Rattle.typecodes.specs.Message.{read_outcome};
ghost use Rattle.command.specs.OffsetFile.{CallsFile, GivesPart, Shows, TakesPart, kept};
ghost use Rattle.command.specs.Trace.{Happening, measured, read_at, synced, written_at};

use std::io;
use std::io::ErrorKind;

/// A file read and written at offsets. Each method makes one call of the system, and notes it. Reading an open gate of
/// a file that isn't locked may take a second call, for the length: a gate opened since the length was last asked reads
/// as closed.
///
/// Only an honest file promises the clauses about bytes and crashes, which are those of a `Disk`, and a disk over it is
/// honest.
pub trait OffsetFile {
    // what happened to it, in order
    ghost trace: { Self → List Happening };

    // what a read gives, and what a crash at this moment may leave, as of a disk
    ghost state: { Self → DiskState };

    // this moment, as a number that doesn't fall
    ghost moment: { Self → ℕ };

    // what a crash may have left at any moment since that one, inside a call or between two
    ghost left_since: { Self → ℕ → List ℕ → Type 0 };

    // whether it keeps these promises
    ghost honest: { Self → Bool };

    /// Its length in bytes.
    fn len(&mut self) -> io::Result<u64>
        ensures trace { trace self.new ≡ trace self.old ++ measured (kept result) ∷ [] }
        ensures shows { IsTrue (honest self.old) →
            IfOk result (λ n. (c : List ℕ) × Shows (state self.old) c × (n ≡ length c)) }
        ensures keeps_state { IsTrue (honest self.old) → state self.new ≡ state self.old }
        ensures call { CallsFile honest state moment left_since self.old self.new };

    /// Reads into the buffer from offset `at` on, as `Read::read` does.
    fn read_at(&mut self, at: u64, into: &mut [u8]) -> io::Result<usize>
        ensures bound { ReadsAtMost result into.new }
        ensures trace { trace self.new ≡ trace self.old
            ++ read_at at (length into.old) (read_outcome result into.new) ∷ [] }
        ensures gives { IsTrue (honest self.old) →
            GivesPart at (length into.old) (state self.old) (read_outcome result into.new) }
        ensures keeps_state { IsTrue (honest self.old) → state self.new ≡ state self.old }
        ensures call { CallsFile honest state moment left_since self.old self.new };

    /// Writes a beginning of these bytes at offset `at`, as `Write::write` does.
    fn write_at(&mut self, at: u64, bytes: &[u8]) -> io::Result<usize>
        ensures bound { WritesAtMost result bytes.now }
        ensures trace { trace self.new ≡ trace self.old
            ++ written_at at bytes.now (read_outcome result bytes.now) ∷ [] }
        ensures takes { IsTrue (honest self.old) →
            TakesPart at bytes.now (state self.old) (state self.new) (read_outcome result bytes.now) }
        ensures call { CallsFile honest state moment left_since self.old self.new };

    /// Syncs the content and the length.
    fn sync(&mut self) -> io::Result<()>
        ensures trace { trace self.new ≡ trace self.old ++ synced (kept result) ∷ [] }
        ensures synced { IsTrue (honest self.old) → Syncs (state self.old) (state self.new) result }
        ensures call { CallsFile honest state moment left_since self.old self.new };

    ghost gives_bytes: { (file : Self) → IsTrue (honest file) → AreBytes (state file).content };

    // A crash may leave what a read gives.
    ghost shows: { (file : Self) → IsTrue (honest file) → MayLeave (state file) (state file).content };

    // What a crash may leave now is among what it may have left since any earlier moment.
    ghost counts_now: { (file : Self) (t : ℕ) (c : List ℕ) → IsTrue (honest file) → t ≤ moment file →
        MayLeave (state file) c → left_since file t c };

    // Since this moment it is nothing else.
    ghost only_now: { (file : Self) (c : List ℕ) → IsTrue (honest file) → left_since file (moment file) c →
        MayLeave (state file) c };
}

/// The answer, with only the kind of its error.
pub fn kind_kept<T: Copy>(answer: &io::Result<T>) -> Result<T, ErrorKind>
    ensures { result ≡ kept answer.now }
{
    match answer {
        Ok(value) => Ok(*value),
        Err(error) => Err(error.kind()),
    }
}
