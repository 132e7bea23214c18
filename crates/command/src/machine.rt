//! The files of a machine: which of them are opened, read and written, and in which order.

ghost use Rattle.std.specs.Prelude.{◌≡◌, ◌++◌, ◌∷◌, [], List, None, IfErr, IfOk, ⊤};
ghost use Rattle.command.specs.FileDisk.{file_of};
ghost use Rattle.command.specs.StateFile.{IsOpenedAt};
ghost use Rattle.command.specs.Trace.{Happening, opening};

mod file;
mod target;

use crate::file_disk::FileDisk;
use crate::file_id::{FileId, KeptFiles};
use crate::files::{Folder, LineFiles, NewContent, Outlet, SignerFolder};
use crate::key_start::has_key;
use crate::random_file::RandomFile;
use crate::refusal::Refusal;
use crate::standard::Standard;
use crate::state::{StateAlarm, StateFile};
use crate::system_file::{Access, SystemFile};
use crate::target::{NotReplaced, Target, replace};
use crate::trace::{Event, Role, Trace, Traced};
pub use file::MachineFile;
use sign_core::RngSource;
use std::fs::{File, Files};
use std::marker::Model;
use std::{fs, io};
use target::MachineTarget;

/// The files of a machine. Contracts don't know their content.
///
/// No contract says that the machine opens the path that it gets, that nothing was read yet of a file which `open`
/// hands out, or that `read` reads once. The trace begins when the file is handed out. Of several reads in one call it
/// would have the one whose answer is returned. These are a few lines of code, read and tested; so is that files are
/// written by `replace`.
#[derive(Drop)]
pub struct Machine<'a, R> {
    rt: R,
    standard: &'a Standard,
    opened: KeptFiles,
    trace: Trace,
}

impl<'a, R> Model for Machine<'a, R> {
    ghost Value = { List Happening };

    ghost view = { λ machine. machine.trace.events };
}

impl<'a, R: Files<File = File>> Machine<'a, R> {
    /// The files of a runtime, to which nothing happened yet.
    pub fn new(rt: R, standard: &'a Standard) -> Self
        ensures { result ≡ [] }
    {
        Machine {
            rt,
            standard,
            opened: KeptFiles::new(standard.output.id(), standard.errors.id()),
            trace: Trace::new(),
        }
    }

    // Remembers the file, so that it is never overwritten.
    fn open_file(&mut self, role: Role, path: &'a str) -> Result<MachineFile<'a>, Refusal>
        ensures trace { self.new ≡ self.old ++ opening role path.now result ∷ [] }
        ensures role { IfOk result (λ file. file.role ≡ role) }
        ensures err { IfErr result (λ refusal. refusal ≡ Refusal.FileFailed) }
    {
        match self.find_file(role, path) {
            Ok(file) => {
                self.trace.note(&Event::Opened(role, path));
                Ok(file)
            }
            Err(refusal) => {
                self.trace.note(&Event::NotOpened(role, path));
                Err(refusal)
            }
        }
    }

    // As `open_file`, without the note in the trace.
    fn find_file(&mut self, role: Role, path: &'a str) -> Result<MachineFile<'a>, Refusal>
        ensures trace { self.new ≡ self.old }
        ensures role { IfOk result (λ file. file.role ≡ role) }
        ensures err { IfErr result (λ refusal. refusal ≡ Refusal.FileFailed) }
    {
        let standard = self.standard;
        let file = standard.checked(path, "can't be opened", fs::open(&self.rt, path))?;
        let found = standard.checked(path, "can't be opened", file.metadata())?;
        // Bytes of a key, drawn as random, would be handed out with signatures.
        if role == Role::Random && found.is_file() {
            if standard.checked(path, "can't be read", has_key(&file))? {
                standard.say_why(path, "isn't read as random bytes", "it holds a key");
                return Err(Refusal::FileFailed);
            }
        }
        self.opened.note(role, FileId::of(&found));
        Ok(MachineFile {
            role,
            path,
            file,
            standard,
        })
    }

    // Replaces a file's content. Standard error says why it wasn't written.
    fn write_file(&self, path: &str, bytes: &[u8]) -> Result<(), Refusal>
        ensures { IfErr result (λ refusal. refusal ≡ Refusal.FileFailed) }
    {
        let mut target = MachineTarget::open(&self.rt, self.standard, path)?;
        match replace(&mut target, &self.opened, bytes) {
            Ok(()) => return Ok(()),
            Err(NotReplaced::Kept) => {
                let reason = if self.standard.output.is(target.id()) {
                    "it is the standard output"
                } else if self.standard.errors.is(target.id()) {
                    "it is the standard error"
                } else {
                    "it is a file of this line"
                };
                self.standard.say_why(path, "isn't written", reason);
            }
            Err(NotReplaced::HasKey) => {
                self.standard
                    .say_why(path, "isn't written", "it holds a key");
            }
            // Standard error says so already.
            Err(NotReplaced::Failed) => {}
        }
        Err(Refusal::FileFailed)
    }

    // Remembers the file, so that it is never overwritten.
    fn disk_over(&mut self, file: StateFile<'a, SystemFile>) -> FileDisk<StateFile<'a, SystemFile>>
        ensures trace { self.new ≡ self.old }
        ensures file { file_of result ≡ file.entry }
    {
        self.opened.note(Role::State, file.id());
        FileDisk::new(file)
    }
}

impl<R> Traced for Machine<'_, R> {
    ghost trace = { λ machine. machine };
}

impl<'a, R: Files<File = File>> Folder for Machine<'a, R> {
    type File = MachineFile<'a>;

    ghost content = { λ _ _. None };

    fn read(&mut self, file: &mut MachineFile<'a>, buffer: &mut [u8]) -> io::Result<usize> {
        let answer = file.read_checked(buffer);
        self.trace.note_read(file.role, answer, buffer)
    }
}

impl<'a, R: Files<File = File>> LineFiles<'a> for Machine<'a, R> {
    fn open(&mut self, role: Role, path: &'a str) -> Result<MachineFile<'a>, Refusal> {
        self.open_file(role, path)
    }
}

impl<R: Files<File = File>> Outlet for Machine<'_, R> {
    fn write(&mut self, role: Role, path: &str, bytes: &[u8]) -> Result<(), Refusal> {
        let answer = self.write_file(path, bytes);
        self.trace.note(&match answer {
            Ok(()) => Event::Written(role, path, bytes),
            Err(_) => Event::NotWritten(role, path),
        });
        answer
    }
}

impl<'a, R: Files<File = File>> SignerFolder<'a> for Machine<'a, R> {
    type Disk = FileDisk<StateFile<'a, SystemFile>>;

    type Random = RngSource<RandomFile<MachineFile<'a>>>;

    type Alarm = StateAlarm<'a>;

    // nothing happened to it yet; no more is known of a disk over a file of the machine
    ghost is_opened = { λ path disk. IsOpenedAt path (file_of disk) };

    ghost is_closed = { λ _ _. ⊤ };

    fn open_state(
        &mut self,
        path: &'a str,
    ) -> Result<FileDisk<StateFile<'a, SystemFile>>, Refusal> {
        match StateFile::open(&self.rt, self.standard, path, Access::ReadAndWrite) {
            Ok(file) => {
                self.trace.note(&Event::Opened(Role::State, path));
                Ok(self.disk_over(file))
            }
            Err(refusal) => {
                self.trace.note(&match refusal {
                    Refusal::Locked => Event::Locked(path),
                    _ => Event::NotOpened(Role::State, path),
                });
                Err(refusal)
            }
        }
    }

    fn open_state_to_read(
        &mut self,
        path: &'a str,
    ) -> Result<FileDisk<StateFile<'a, SystemFile>>, Refusal> {
        match StateFile::open(&self.rt, self.standard, path, Access::Read) {
            Ok(file) => {
                self.trace.note(&Event::OpenedToRead(path));
                Ok(self.disk_over(file))
            }
            Err(refusal) => {
                self.trace.note(&match refusal {
                    Refusal::Locked => Event::Locked(path),
                    _ => Event::NotOpened(Role::State, path),
                });
                Err(refusal)
            }
        }
    }

    fn open_state_unlocked(
        &mut self,
        path: &'a str,
    ) -> Result<FileDisk<StateFile<'a, SystemFile>>, Refusal> {
        match StateFile::open_unlocked(&self.rt, self.standard, path) {
            Ok(file) => {
                self.trace.note(&Event::OpenedUnlocked(path));
                Ok(self.disk_over(file))
            }
            Err(refusal) => {
                self.trace.note(&Event::NotOpened(Role::State, path));
                Err(refusal)
            }
        }
    }

    fn open_or_make_state(
        &mut self,
        path: &'a str,
        content: NewContent,
    ) -> Result<FileDisk<StateFile<'a, SystemFile>>, Refusal> {
        match StateFile::open_or_make(&self.rt, self.standard, path, content) {
            Ok(file) => {
                self.trace.note(&Event::Made(path));
                Ok(self.disk_over(file))
            }
            Err(refusal) => {
                self.trace.note(&match refusal {
                    Refusal::Locked => Event::Locked(path),
                    _ => Event::NotMade(path),
                });
                Err(refusal)
            }
        }
    }

    fn alarm(&self, path: &'a str) -> StateAlarm<'a> {
        StateAlarm::new(self.standard, path)
    }

    fn warn_moved(&self, old: &str, new: &str) {
        self.standard.warn_moved(old, new);
    }

    fn close_state(&mut self, disk: FileDisk<StateFile<'a, SystemFile>>) {
        drop(disk);
    }

    fn open_random(
        &mut self,
        path: &'a str,
    ) -> Result<RngSource<RandomFile<MachineFile<'a>>>, Refusal> {
        match self.open_file(Role::Random, path) {
            Ok(file) => Ok(RngSource::new(RandomFile::new(file))),
            Err(refusal) => Err(refusal),
        }
    }
}
