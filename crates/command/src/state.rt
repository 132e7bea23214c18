//! A state file of the machine: opening, locking, its mode. Standard error says what failed.

ghost use Rattle.std.specs.Prelude.{◌≡◌, ◌++◌, ◌∷◌, [], List, length, IfErr, true};
ghost use Rattle.std.specs.Io.{ReadsAtMost};
ghost use Rattle.typecodes.specs.Message.{read_outcome};
ghost use Rattle.command.specs.FileDisk.{OpensState, OpensUnlocked};
ghost use Rattle.command.specs.OffsetFile.{kept};
ghost use Rattle.command.specs.Trace.{Happening, measured, read_at, synced, written_at};

use crate::file_calls::FileCalls;
use crate::file_disk::FileDisk;
use crate::file_id::FileId;
use crate::files::NewContent;
use crate::offset_file::{OffsetFile, kind_kept};
use crate::refusal::Refusal;
use crate::standard::Standard;
use crate::system_file::{Access, SystemFile};
use crate::trace::{Event, Trace};
use sign_core::Alarm;
use state_file::{Disk, SlotList};
use std::fs::{File, Files, OpenOptions, Permissions, TryLockError};
use std::io::ErrorKind;
use std::os::unix::fs::{FileExt, OpenOptionsExt, PermissionsExt};
use std::path::Path;
use std::{fs, io};

// Only the owner may read and write.
const PRIVATE: u32 = 0o600;

// The bytes of a state file that holds only the key.
const KEY_ALONE: u64 = 257;

// The bytes from one gate to the next.
const SLOT: u64 = 256;

// The first byte of a state file that has a key.
const OPEN_GATE: u8 = 0xA5;

// The closed gate that this program writes; any value but 0xA5 closes a gate.
const CLOSED_GATE: u8 = 0;

/// An open state file, over the calls of the system.
///
/// Proved: it notes each call, and while it is locked it is honest where its file is. The rest is tested or read, since
/// no contract of the standard library speaks of it. The file is a regular one and no standard stream. Only
/// `open_or_make` makes it, sets its mode and syncs its folder. A file that is locked already is refused with 54.
///
/// Another process may append to a file that isn't locked here. It is shown as it was when its length was last asked: a
/// gate opened since then, whose slot wasn't whole, reads as closed.
#[derive(Drop)]
pub struct StateFile<'a, F> {
    path: &'a str,
    file: F,
    id: FileId,
    is_locked: bool,
    // In bytes, when it was last asked.
    length: u64,
    standard: &'a Standard,
    trace: Trace,
}

impl<'a> StateFile<'a, SystemFile> {
    /// Opens the state file at this path, and locks it without waiting. It is never made. 54: it is locked. 53: it
    /// isn't a regular file, it is a standard stream, or a call failed.
    pub fn open<R: Files<File = File>>(
        rt: &R,
        standard: &'a Standard,
        path: &'a str,
        access: Access,
    ) -> Result<Self, Refusal>
        ensures { OpensState path.now result }
    {
        let file = open_regular(rt, standard, path, access)?;
        StateFile::lock(standard, path, file, access)
    }

    /// As `open`, for reading alone and without a lock.
    pub fn open_unlocked<R: Files<File = File>>(
        rt: &R,
        standard: &'a Standard,
        path: &'a str,
    ) -> Result<Self, Refusal>
        ensures { OpensUnlocked path.now result }
    {
        let file = open_regular(rt, standard, path, Access::Read)?;
        StateFile::take(standard, path, file, Access::Read)
    }

    /// As `open`, for reading and writing; makes the file if there is none. If it may take the new content, its mode
    /// becomes 0600. The folder is synced even if the file was there: a run that crashed may have made it.
    pub fn open_or_make<R: Files<File = File>>(
        rt: &R,
        standard: &'a Standard,
        path: &'a str,
        content: NewContent,
    ) -> Result<Self, Refusal>
        ensures { OpensState path.now result }
    {
        let made = OpenOptions::new()
            .read(true)
            .write(true)
            .create_new(true)
            .mode(PRIVATE)
            .open(rt, path);
        let file = match made {
            Err(error) if error.kind() == ErrorKind::AlreadyExists => {
                StateFile::open(rt, standard, path, Access::ReadAndWrite)?
            }
            made => StateFile::lock(
                standard,
                path,
                standard.checked(path, "can't be opened", made)?,
                Access::ReadAndWrite,
            )?,
        };
        file.make_private(content)?;
        sync_folder(rt, standard, path)?;
        Ok(file)
    }

    // The opened file, if it is a regular one and no standard stream. Its trace is empty.
    fn take(
        standard: &'a Standard,
        path: &'a str,
        file: File,
        access: Access,
    ) -> Result<Self, Refusal>
        ensures { OpensUnlocked path.now result }
    {
        let found = standard.checked(path, "can't be opened", file.metadata())?;
        if !found.is_file() {
            return Err(not_regular(standard, path));
        }
        let id = FileId::of(&found);
        standard.refuse_state(path, id)?;
        Ok(StateFile {
            path,
            file: SystemFile::new(file, access),
            id,
            is_locked: false,
            length: 0,
            standard,
            trace: Trace::new(),
        })
    }

    // As `take`, with the lock.
    fn lock(
        standard: &'a Standard,
        path: &'a str,
        file: File,
        access: Access,
    ) -> Result<Self, Refusal>
        ensures { OpensState path.now result }
    {
        let state = StateFile::take(standard, path, file, access)?;
        match state.file.file.try_lock() {
            Ok(()) => Ok(state.locked()),
            Err(TryLockError::WouldBlock) => {
                standard.say_why(
                    path,
                    "can't be locked",
                    "it is locked already, by another process or by this one",
                );
                Err(Refusal::Locked)
            }
            Err(TryLockError::Error(error)) => {
                standard.say_failed(path, "can't be locked", &error);
                Err(Refusal::FileFailed)
            }
        }
    }

    // Sets mode 0600 if it may take this content: a file that is refused later keeps its mode.
    fn make_private(&self, content: NewContent) -> Result<(), Refusal>
        ensures { IfErr result (λ refusal. refusal ≡ Refusal.FileFailed) }
    {
        if !self.may_take(content)? {
            return Ok(());
        }
        let set = self
            .file
            .file
            .set_permissions(Permissions::from_mode(PRIVATE));
        self.standard
            .checked(self.path, "its mode can't be set", set)
    }

    // Whether it is shorter than a key, or its first gate is closed. A key also can't replace more than 257 bytes.
    fn may_take(&self, content: NewContent) -> Result<bool, Refusal>
        ensures { IfErr result (λ refusal. refusal ≡ Refusal.FileFailed) }
    {
        let found = self.standard.checked(
            self.path,
            "its length can't be read",
            self.file.file.metadata(),
        )?;
        if found.len() < KEY_ALONE {
            return Ok(true);
        }
        if found.len() > KEY_ALONE && content == NewContent::Key {
            return Ok(false);
        }
        let mut gate = [0; 1];
        self.standard.checked(
            self.path,
            "can't be read",
            self.file.file.read_at(&mut gate, 0),
        )?;
        Ok(gate[0] != OPEN_GATE)
    }
}

impl<'a, F: FileCalls> StateFile<'a, F> {
    ghost use Rattle.std.specs.Prelude.{IsTrue};
    ghost use Rattle.command.specs.declared.file_disk.FileDisk.{FileDisk as D};
    ghost use Rattle.command.specs.declared.state.StateFile.{StateFile as S};
    ghost use Rattle.command.specs.StateFile.{trace_of};

    // It, once it is locked: where its file is honest, so is it, and so is a disk over it.
    fn locked(self) -> Self
        ensures path { result.path.now ≡ self.entry.path.now }
        ensures trace { trace_of result ≡ trace_of self.entry }
        ensures locked { result.is_locked ≡ true }
        ensures honest { IsTrue (F.honest self.entry.file) → IsTrue (⟦<StateFile<'a, F> as OffsetFile>⟧.honest result) }
        ensures disk { (disk : D (S F)) → disk.file ≡ result → IsTrue (F.honest self.entry.file) →
            IsTrue (⟦<FileDisk<StateFile<'a, F>> as Disk>⟧.honest disk) }
    {
        let mut state = self;
        state.is_locked = true;
        state
    }
}

impl<F> StateFile<'_, F> {
    /// Which file of the machine it is.
    pub fn id(&self) -> FileId {
        self.id
    }

    // Returns the answer. Standard error says what failed.
    fn checked<T>(&self, tried: &str, answer: io::Result<T>) -> io::Result<T>
        ensures { result ≡ answer }
    {
        if let Err(error) = &answer {
            self.standard.say_failed(self.path, tried, error);
        }
        answer
    }
}

/// Warns of a state file, on standard error.
#[derive(Drop)]
pub struct StateAlarm<'a> {
    standard: &'a Standard,
    path: &'a str,
    slots: SlotList,
}

impl<'a> StateAlarm<'a> {
    ghost use Rattle.command.specs.FileDisk.{slots_of};

    /// The alarm of the state file at this path.
    pub fn new(standard: &'a Standard, path: &'a str) -> Self
        ensures { slots_of result ≡ [] }
    {
        StateAlarm {
            standard,
            path,
            slots: SlotList::new(),
        }
    }
}

impl Alarm for StateAlarm<'_> {
    ghost use Rattle.command.specs.FileDisk.{slots_of};

    ghost slots = { slots_of };

    fn bytes_behind(&mut self, slot: u32) {
        self.standard.warn_behind(self.path, slot);
        self.slots.push(slot);
    }
}

fn open_regular<R: Files<File = File>>(
    rt: &R,
    standard: &Standard,
    path: &str,
    access: Access,
) -> Result<File, Refusal>
    ensures { IfErr result (λ refusal. refusal ≡ Refusal.FileFailed) }
{
    // Checked before opening, too: opening a device may do something.
    let found = standard.checked(path, "can't be opened", fs::metadata(rt, path))?;
    if !found.is_file() {
        return Err(not_regular(standard, path));
    }
    let opened = OpenOptions::new()
        .read(true)
        .write(access == Access::ReadAndWrite)
        .open(rt, path);
    standard.checked(path, "can't be opened", opened)
}

fn not_regular(standard: &Standard, path: &str) -> Refusal
    ensures { result ≡ Refusal.FileFailed }
{
    standard.say_why(path, "can't be opened", "it isn't a regular file");
    Refusal::FileFailed
}

// Reads a file that isn't locked. Another process may have opened the last gate below its length since the length was
// asked. Then this gate reads as closed: its slot wasn't whole.
fn read_unlocked<F: FileCalls>(
    file: &mut F,
    length: u64,
    at: u64,
    into: &mut [u8],
) -> io::Result<usize>
    ensures { ReadsAtMost result into.new }
{
    let answer = file.read_at(at, into);
    let gate = length.saturating_sub(1) / SLOT * SLOT;
    let Ok(n) = &answer else {
        return answer;
    };
    if gate < at || gate - at >= *n as u64 {
        return answer;
    }
    let gate_read = (gate - at) as usize;
    if into[gate_read] == OPEN_GATE {
        match file.len() {
            Ok(now) if now > gate.saturating_add(SLOT) => into[gate_read] = CLOSED_GATE,
            _ => {}
        }
    }
    answer
}

impl<F: FileCalls> OffsetFile for StateFile<'_, F> {
    ghost use Rattle.command.specs.StateFile.{honest_of, left_since_of, moment_of, state_of, trace_of};
    ghost use Rattle.command.specs.inner.StateFile.{its_file};

    ghost trace = { trace_of };

    ghost state = { state_of F.FileCalls };

    ghost moment = { moment_of F.FileCalls };

    ghost left_since = { left_since_of F.FileCalls };

    ghost honest = { honest_of F.FileCalls };

    ghost gives_bytes = { λ state is_honest. F.gives_bytes state.file (its_file state.is_locked _ is_honest) };

    ghost shows = { λ state is_honest. F.shows state.file (its_file state.is_locked _ is_honest) };

    ghost counts_now = { λ state t c is_honest early left.
        F.counts_now state.file t c (its_file state.is_locked _ is_honest) early left };

    ghost only_now = { λ state c is_honest since.
        F.only_now state.file c (its_file state.is_locked _ is_honest) since };

    fn len(&mut self) -> io::Result<u64> {
        let answer = self.file.len();
        let answer = self.checked("its length can't be read", answer);
        if let Ok(length) = &answer {
            self.length = *length;
        }
        self.trace.note(&Event::Measured(kind_kept(&answer)));
        answer
    }

    fn read_at(&mut self, at: u64, into: &mut [u8]) -> io::Result<usize> {
        let answer = if self.is_locked {
            self.file.read_at(at, into)
        } else {
            read_unlocked(&mut self.file, self.length, at, into)
        };
        let answer = self.checked("can't be read", answer);
        let size = into.len();
        if let Ok(0) = &answer {
            self.standard.say_why(
                self.path,
                "can't be read",
                "it ended before the bytes that are wanted",
            );
        }
        match &answer {
            Ok(n) => self.trace.note(&Event::ReadAt(at, size, Ok(&into[..*n]))),
            Err(error) => self.trace.note(&Event::ReadAt(at, size, Err(error.kind()))),
        }
        answer
    }

    fn write_at(&mut self, at: u64, bytes: &[u8]) -> io::Result<usize> {
        let answer = self.file.write_at(at, bytes);
        let answer = self.checked("can't be written", answer);
        if let Ok(0) = &answer {
            self.standard
                .say_why(self.path, "can't be written", "no byte was taken");
        }
        let taken = match &answer {
            Ok(n) => Ok(&bytes[..*n]),
            Err(error) => Err(error.kind()),
        };
        self.trace.note(&Event::WrittenAt(at, bytes, taken));
        answer
    }

    fn sync(&mut self) -> io::Result<()> {
        let answer = self.file.sync();
        let answer = self.checked("can't be synced", answer);
        self.trace.note(&Event::Synced(kind_kept(&answer)));
        answer
    }
}

fn sync_folder<R: Files<File = File>>(
    rt: &R,
    standard: &Standard,
    path: &str,
) -> Result<(), Refusal>
    ensures { IfErr result (λ refusal. refusal ≡ Refusal.FileFailed) }
{
    let folder = folder_of(path);
    let opened = standard.checked(folder, "can't be opened", File::open(rt, folder))?;
    standard.checked(folder, "can't be synced", opened.sync_all())
}

fn folder_of(path: &str) -> &str {
    match Path::new(path).parent() {
        Some(folder) if !folder.as_str().is_empty() => folder.as_str(),
        _ => ".",
    }
}
