//! A file whose content is replaced. It is judged once it is open, and cut only then.

ghost use Rattle.std.specs.Prelude.{◌≡◌, ◌++◌, ◌∷◌, [], List, Bool, Some};
ghost use Rattle.std.specs.List.{list_any};
ghost use Rattle.command.specs.Target.{MakesEmpty, Replaces, cutting, looking, writing_all};
ghost use Rattle.command.specs.Trace.{Happening};
ghost use Rattle.command.specs.declared.file_id.FileId.{FileId as File};

use crate::file_id::{FileId, KeptFiles};
use crate::refusal::Refusal;

/// A file open for writing, with its old content. That a machine's file makes the calls that it notes is read and
/// tested.
pub trait Target {
    ghost id: { Self → File };

    // a regular file may have a key, and can be cut
    ghost is_regular: { Self → Bool };

    // what was done with it, in order
    ghost acts: { Self → List Happening };

    /// Which file it is.
    fn id(&self) -> FileId
        ensures { result ≡ id self.now };

    /// Whether it is a regular file.
    fn is_regular(&self) -> bool
        ensures { result ≡ is_regular self.now };

    /// Whether it begins as a state file with a key does, whatever its first gate is.
    fn has_key(&mut self) -> Result<bool, Refusal>
        ensures { acts self.new ≡ acts self.old ++ looking result ∷ [] };

    /// Cuts it to no bytes.
    fn cut(&mut self) -> Result<(), Refusal>
        ensures { acts self.new ≡ acts self.old ++ cutting result ∷ [] };

    /// Writes all of these bytes, from its beginning on.
    fn write_all(&mut self, bytes: &[u8]) -> Result<(), Refusal>
        ensures { acts self.new ≡ acts self.old ++ writing_all bytes.now result ∷ [] };
}

/// Why a file wasn't written.
#[derive(Clone, Copy, Debug, PartialEq, Eq)]
pub enum NotReplaced {
    /// It is one of the files that are never overwritten.
    Kept,
    /// It has a key.
    HasKey,
    /// A call of the system failed.
    Failed,
}

/// Replaces the file's content by these bytes. A kept file, or a regular one that has a key, isn't changed.
pub fn replace<T: Target>(target: &mut T, kept: &KeptFiles, bytes: &[u8]) -> Result<(), NotReplaced>
    ensures { Replaces (list_any (λ file. ⟦<Option<FileId> as PartialEq>⟧.eq file (Some (T.id target.old))) kept.now)
        (T.is_regular target.old) bytes.now result (T.acts target.old) (T.acts target.new) }
{
    if kept.contains(target.id()) {
        return Err(NotReplaced::Kept);
    }
    if target.is_regular() {
        make_empty(target)?;
    }
    match target.write_all(bytes) {
        Ok(()) => Ok(()),
        Err(_) => Err(NotReplaced::Failed),
    }
}

// Cuts the file, if it has no key.
fn make_empty<T: Target>(target: &mut T) -> Result<(), NotReplaced>
    ensures { MakesEmpty result (T.acts target.old) (T.acts target.new) }
{
    match target.has_key() {
        Ok(false) => {}
        Ok(true) => return Err(NotReplaced::HasKey),
        Err(_) => return Err(NotReplaced::Failed),
    }
    match target.cut() {
        Ok(()) => Ok(()),
        Err(_) => Err(NotReplaced::Failed),
    }
}
