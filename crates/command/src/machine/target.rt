//! A file of a machine that is open for writing.

ghost use Rattle.std.specs.Prelude.{◌≡◌, IfErr};

use crate::file_id::FileId;
use crate::key_start::has_key;
use crate::refusal::Refusal;
use crate::standard::Standard;
use crate::target::Target;
use crate::trace::{Event, Trace, Traced};
use std::fs;
use std::fs::{File, Files, OpenOptions, TryLockError};

/// A file of a machine, open for writing. Standard error says what failed.
#[derive(Drop)]
pub(super) struct MachineTarget<'a, R> {
    rt: &'a R,
    standard: &'a Standard,
    path: &'a str,
    file: File,
    id: FileId,
    is_regular: bool,
    trace: Trace,
}

impl<'a, R: Files<File = File>> MachineTarget<'a, R> {
    // Makes the file if there is none. Its content stays.
    pub(super) fn open(rt: &'a R, standard: &'a Standard, path: &'a str) -> Result<Self, Refusal>
        ensures { IfErr result (λ refusal. refusal ≡ Refusal.FileFailed) }
    {
        let opened = OpenOptions::new().write(true).create(true).open(rt, path);
        let file = standard.checked(path, "can't be opened", opened)?;
        let found = standard.checked(path, "can't be opened", file.metadata())?;
        Ok(MachineTarget {
            rt,
            standard,
            path,
            file,
            id: FileId::of(&found),
            is_regular: found.is_file(),
            trace: Trace::new(),
        })
    }

    // The lock is taken first, and held until the file is closed: no other process makes a key in it meanwhile. A
    // process that holds the lock may be making a key. Where the file system has no locks, no state file can be locked
    // either.
    fn holds_key(&self) -> Result<bool, Refusal> {
        let locked = self.file.try_lock();
        if self.begins_as_a_state_file()? {
            return Ok(true);
        }
        if let Err(TryLockError::WouldBlock) = locked {
            self.standard.say_why(self.path, "isn't written", "another process has locked it");
            return Err(Refusal::FileFailed);
        }
        Ok(false)
    }

    // Opens the file again, for reading. An empty file, such as one that was made just now, isn't opened.
    fn begins_as_a_state_file(&self) -> Result<bool, Refusal> {
        let found = self
            .standard
            .checked(self.path, "can't be opened", self.file.metadata())?;
        if found.len() == 0 {
            return Ok(false);
        }
        let opened = fs::open(self.rt, self.path);
        let file = self
            .standard
            .checked(self.path, "can't be opened to be read", opened)?;
        let again = self
            .standard
            .checked(self.path, "can't be opened to be read", file.metadata())?;
        if FileId::of(&again) != self.id {
            self.standard.say_why(
                self.path,
                "isn't written",
                "another file came to stand there",
            );
            return Err(Refusal::FileFailed);
        }
        self.standard
            .checked(self.path, "can't be read", has_key(&file))
    }
}

impl<R: Files<File = File>> Target for MachineTarget<'_, R> {
    ghost id = { λ target. target.id };

    ghost is_regular = { λ target. target.is_regular };

    ghost acts = { λ target. target.trace.events };

    fn id(&self) -> FileId {
        self.id
    }

    fn is_regular(&self) -> bool {
        self.is_regular
    }

    fn has_key(&mut self) -> Result<bool, Refusal> {
        let answer = self.holds_key();
        self.trace.note(&match answer {
            Ok(has_key) => Event::Looked(has_key),
            Err(_) => Event::NotLooked,
        });
        answer
    }

    fn cut(&mut self) -> Result<(), Refusal> {
        let answer = self
            .standard
            .checked(self.path, "can't be cut", self.file.set_len(0));
        self.trace.note(&match answer {
            Ok(()) => Event::Cut,
            Err(_) => Event::NotCut,
        });
        answer
    }

    fn write_all(&mut self, bytes: &[u8]) -> Result<(), Refusal> {
        let written = typecodes::write_all(&mut self.file, bytes);
        let answer = self
            .standard
            .checked(self.path, "can't be written", written);
        self.trace.note(&match answer {
            Ok(()) => Event::Wrote(bytes),
            Err(_) => Event::NotWrote,
        });
        answer
    }
}
