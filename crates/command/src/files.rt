//! The files that a line names: how they are opened and written, and what is read of them.

ghost use Rattle.std.specs.Prelude.{◌≡◌, ◌++◌, ◌∷◌, ◌<◌, ◌≤◌, ◌^◌, [], ℕ, List, None, length, take, IfErr, IfOk};
ghost use Rattle.std.specs.Prelude.{MatchResult};
ghost use Rattle.std.specs.Io.{ReadsAtMost};
ghost use Rattle.std.specs.Io.KnownBytes.{Consumes, IsAtEnd, ReadConsumes};
ghost use Rattle.std.specs.declared.option.Option.{Option};
ghost use Rattle.typecodes.specs.Message.{IsContent, read_outcome};
ghost use Rattle.typecodes.specs.Reading.{ReadsToEnd as EndsOrFails};
ghost use Rattle.command.specs.Files.{BeginsContent, CantKeep, FailsFile, FailsToReadOrKeep, FillsRoom, FillsOrFails};
ghost use Rattle.command.specs.Files.{KeepsContents, KeepsOtherContents, ReadsAllOrFails, ReadsFile, ReadsKey};
ghost use Rattle.command.specs.Files.{ReadsStart, ShowsContent, decisive};
ghost use Rattle.command.specs.inner.Files.{ReadsFileOnce, left_of};
ghost use Rattle.command.specs.FileDisk.{IsStateRefusal};
ghost use Rattle.command.specs.Trace.{ReadsOnce, ReadsToEnd, making, opening, opening_state};
ghost use Rattle.command.specs.Trace.{opening_state_to_read, opening_unlocked, writing};
ghost use Rattle.command.specs.declared.trace.Role.{Role as FileRole};

use crate::refusal::Refusal;
use crate::trace::{Role, Traced};
use sign_core::{Alarm, AnyPublic, KeyFault, Source};
use state_file::Disk;
use std::alloc::{AllocError, Global};
use std::convert::Infallible;
use std::io;
use std::io::ErrorKind;
use typecodes::{Message, PIECE, PieceTaker, ReadError, read_full, read_to_end};

/// A file that was opened.
pub trait OpenFile {
    ghost role: { Self → FileRole };

    // the bytes that reads will give, where they are known
    ghost remaining: { Self → Option (List ℕ) };
}

/// Where files are read, and never written.
pub trait Folder: Traced {
    /// A file that was opened.
    type File: OpenFile + Drop;

    // the content of the file at a path, where it is known
    ghost content: { Self → List ℕ → Option (List ℕ) };

    /// Reads into the buffer, as `Read::read` does.
    fn read(&mut self, file: &mut Self::File, buffer: &mut [u8]) -> io::Result<usize>
        requires { 0 < length buffer.old }
        ensures trace { ReadsOnce (Self.File.role file.old) (Self.trace self.old) (read_outcome result buffer.new)
            (Self.trace self.new) }
        ensures role { Self.File.role file.new ≡ Self.File.role file.old }
        ensures bound { ReadsAtMost result buffer.new }
        ensures bytes { ReadConsumes (Self.File.remaining file.old) (Self.File.remaining file.new) result buffer.new }
        ensures content { KeepsContents (content self.old) (content self.new) };
}

/// Where a line's files are opened. The line outlives them, so they may keep its paths.
pub trait LineFiles<'a>: Folder {
    /// Opens the file at exactly this path for reading.
    fn open(&mut self, role: Role, path: &'a str) -> Result<Self::File, Refusal>
        ensures trace { Self.trace self.new ≡ Self.trace self.old ++ opening role path.now result ∷ [] }
        ensures content { KeepsContents (Self.content self.old) (Self.content self.new) }
        ensures role { IfOk result (λ file. Self.File.role file ≡ role) }
        ensures shows { IfOk result (λ file.
            ShowsContent (Self.content self.old path.now) (Self.File.remaining file)) }
        ensures err { IfErr result (λ refusal. refusal ≡ Refusal.FileFailed) };
}

/// Where files are written.
pub trait Outlet: Traced {
    /// Replaces the content of the file at exactly this path, which is made if there is none. A file that was opened
    /// here, or that has a key, isn't written (53). All of this is judged on the open file, which is cut only then.
    fn write(&mut self, role: Role, path: &str, bytes: &[u8]) -> Result<(), Refusal>
        ensures trace { Self.trace self.new ≡ Self.trace self.old ++ writing role path.now bytes.now result ∷ [] }
        ensures err { IfErr result (λ refusal. refusal ≡ Refusal.FileFailed) };
}

/// What a state file that is opened or made will hold.
#[derive(Clone, Copy, Debug, PartialEq, Eq)]
pub enum NewContent {
    /// A new key: in place of under 257 bytes, or of 257 with a closed first gate.
    Key,
    /// Another file's records: in place of anything without an open first gate.
    Records,
}

/// Where a signer's commands open and write their files.
pub trait SignerFolder<'a>: LineFiles<'a> + Outlet {
    /// The disk over a state file.
    type Disk: Disk + Drop;

    /// The source over a file of random bytes.
    type Random: Source + Drop;

    /// What warns the user of a state file.
    type Alarm: Alarm + Drop;

    // opening the state file at this path may give this disk
    ghost is_opened: { List ℕ → Self.Disk → Type 0 };

    // a state file with this disk was closed
    ghost is_closed: { Self → Self.Disk → Type 0 };

    /// Opens the state file at exactly this path for reading and writing, and locks it without waiting. It must be a
    /// regular file, and is never made.
    ///
    /// 54: it is locked. 53: it can't be opened. Each leaves its own trace, so neither can be reported for the other.
    fn open_state(&mut self, path: &'a str) -> Result<Self::Disk, Refusal>
        ensures trace { Self.trace self.new ≡ Self.trace self.old ++ opening_state path.now result ∷ [] }
        ensures content { KeepsContents (Self.content self.old) (Self.content self.new) }
        ensures opened { IfOk result (is_opened path.now) }
        ensures err { IfErr result IsStateRefusal };

    /// As `open_state`, for reading alone: its disk refuses each write.
    fn open_state_to_read(&mut self, path: &'a str) -> Result<Self::Disk, Refusal>
        ensures trace { Self.trace self.new ≡ Self.trace self.old ++ opening_state_to_read path.now result ∷ [] }
        ensures content { KeepsContents (Self.content self.old) (Self.content self.new) }
        ensures opened { IfOk result (is_opened path.now) }
        ensures err { IfErr result IsStateRefusal };

    /// As `open_state_to_read`, without the lock: another process may write to it meanwhile.
    fn open_state_unlocked(&mut self, path: &'a str) -> Result<Self::Disk, Refusal>
        ensures trace { Self.trace self.new ≡ Self.trace self.old ++ opening_unlocked path.now result ∷ [] }
        ensures content { KeepsContents (Self.content self.old) (Self.content self.new) }
        ensures opened { IfOk result (is_opened path.now) }
        ensures err { IfErr result (λ refusal. refusal ≡ Refusal.FileFailed) };

    /// As `open_state`, but makes the file if there is none. Only its owner may read and write a file that may take the
    /// new content. Its folder is synced, so that its name survives a crash.
    fn open_or_make_state(
        &mut self,
        path: &'a str,
        content: NewContent,
    ) -> Result<Self::Disk, Refusal>
        ensures trace { Self.trace self.new ≡ Self.trace self.old ++ making path.now result ∷ [] }
        ensures content { KeepsOtherContents path.now (Self.content self.old) (Self.content self.new) }
        ensures opened { IfOk result (is_opened path.now) }
        ensures err { IfErr result IsStateRefusal };

    /// What warns the user of the state file at this path. It was told of nothing yet.
    fn alarm(&self, path: &'a str) -> Self::Alarm
        ensures { Self.Alarm.slots result ≡ [] };

    /// Warns the user that the records of the file at `old` were moved before: if that wasn't to `new`, two can sign.
    fn warn_moved(&self, old: &str, new: &str);

    /// Closes a state file, which frees its lock, if it has one. `is_closed` says nothing of the files of a `Machine`.
    /// Nothing says that the files of `audit-given` are closed.
    fn close_state(&mut self, disk: Self::Disk)
        ensures trace { Self.trace self.new ≡ Self.trace self.old }
        ensures closed { is_closed self.new disk }
        ensures stays { (other : Self.Disk) → is_closed self.old other → is_closed self.new other };

    /// Opens the file of random bytes at exactly this path. The source gives its bytes from the first on.
    fn open_random(&mut self, path: &'a str) -> Result<Self::Random, Refusal>
        ensures trace { Self.trace self.new ≡ Self.trace self.old ++ opening Role.Random path.now result ∷ [] }
        ensures content { KeepsContents (Self.content self.old) (Self.content self.new) }
        ensures shows { IfOk result (λ source.
            ShowsContent (Self.content self.old path.now) (Self.Random.upcoming source)) }
        ensures err { IfErr result (λ refusal. refusal ≡ Refusal.FileFailed) };
}

/// An opened file of a folder, as a message that is read in pieces.
#[derive(Drop)]
pub struct FileReader<'a, D, F> {
    pub folder: &'a mut D,
    pub file: &'a mut F,
}

impl<D: Folder> Message for FileReader<'_, D, D::File> {
    ghost remaining = { λ reader. D.File.remaining reader.file.now };

    // A read is the file's; the folder notes it, and its contents stay.
    ghost transition = { λ old outcome new. (new.folder.ghost_name ≡ old.folder.ghost_name)
        × (new.file.ghost_name ≡ old.file.ghost_name)
        × (D.File.role new.file.now ≡ D.File.role old.file.now)
        × ReadsOnce (D.File.role old.file.now) (D.trace old.folder.now) outcome (D.trace new.folder.now)
        × KeepsContents (D.content old.folder.now) (D.content new.folder.now) };

    fn read_into(&mut self, buffer: &mut [u8]) -> io::Result<usize> {
        self.folder.read(self.file, buffer)
    }
}

/// How many first bytes of a signature decide: one more than the largest has, of eight levels of H25/W1. How much of a
/// file is held in memory is tested.
pub const DECISIVE: usize = 74_989;

// The decisive bytes after the first piece.
const AFTER_A_PIECE: usize = DECISIVE - PIECE;

/// Reads a public key's file to its end, and decodes the key. It holds 69 bytes, one more than any key has, and counts
/// the rest.
pub fn read_key<D: Folder>(
    folder: &mut D,
    file: &mut D::File,
) -> io::Result<Result<AnyPublic, KeyFault>>
    ensures reads { ReadsAllOrFails (D.File.role file.old) (D.File.remaining file.old) ReadsKey result
        (D.trace folder.old) (D.trace folder.new) }
    ensures content { KeepsContents (D.content folder.old) (D.content folder.new) }
{
    let mut bytes = [0; 69];
    let n = read_into(folder, file, &mut bytes)?;
    if n < bytes.len() {
        return Ok(AnyPublic::read(&bytes[..n]));
    }
    let length = n + count_rest(folder, file)?;
    Ok(Err(KeyFault::Length(length)))
}

/// Opens a public key's file and reads it as `read_key` does.
pub fn read_key_file<'a, D: LineFiles<'a>>(
    folder: &mut D,
    role: Role,
    path: &'a str,
) -> Result<Result<AnyPublic, KeyFault>, Refusal>
    ensures reads { MatchResult result
        (λ key. (bytes : List ℕ) × ReadsFile (D.content folder.old) role path.now bytes (D.trace folder.old)
        (D.trace folder.new) × ReadsKey bytes key)
        (λ refusal. FailsFile role path.now refusal (D.trace folder.old) (D.trace folder.new)) }
    ensures content { KeepsContents (D.content folder.old) (D.content folder.new) }
{
    let mut file = folder.open(role, path)?;
    Ok(read_key(folder, &mut file)?)
}

/// Opens a file and reads all of it into memory.
pub fn read_file<'a, D: LineFiles<'a>>(
    alloc: Global,
    folder: &mut D,
    role: Role,
    path: &'a str,
) -> Result<Vec<u8>, Refusal>
    ensures reads { MatchResult result
        (λ bytes. ReadsFile (D.content folder.old) role path.now bytes.items (D.trace folder.old)
        (D.trace folder.new))
        (λ refusal. FailsToReadOrKeep role path.now refusal (D.trace folder.old) (D.trace folder.new)) }
    ensures content { KeepsContents (D.content folder.old) (D.content folder.new) }
{
    let mut file = folder.open(role, path)?;
    read_all(alloc, folder, &mut file)
}

/// Opens a signature's file and reads its first bytes into memory, at most `DECISIVE`.
pub fn read_signature_file<'a, D: LineFiles<'a>>(
    alloc: Global,
    folder: &mut D,
    role: Role,
    path: &'a str,
) -> Result<Vec<u8>, Refusal>
    ensures reads { MatchResult result
        (λ first. ReadsStart (D.content folder.old) role path.now first.items (D.trace folder.old)
        (D.trace folder.new))
        (λ refusal. FailsToReadOrKeep role path.now refusal (D.trace folder.old) (D.trace folder.new)) }
    ensures content { KeepsContents (D.content folder.old) (D.content folder.new) }
{
    let mut file = folder.open(role, path)?;
    read_start(alloc, folder, &mut file)
}

fn read_all<D: Folder>(
    alloc: Global,
    folder: &mut D,
    file: &mut D::File,
) -> Result<Vec<u8>, Refusal>
    ensures reads { MatchResult result
        (λ bytes. IsContent (D.File.remaining file.old) bytes.items
        × ReadsToEnd (D.File.role file.old) bytes.items (D.trace folder.old) (D.trace folder.new))
        (λ refusal. CantKeep (D.File.role file.old) refusal (D.trace folder.old) (D.trace folder.new)) }
    ensures content { KeepsContents (D.content folder.old) (D.content folder.new) }
{
    let mut kept = Kept {
        bytes: Vec::new(alloc),
    };
    match read_rest(folder, file, &mut kept) {
        Ok(()) => Ok(kept.bytes),
        Err(ReadError::Failed(error)) => Err(Refusal::from(error)),
        Err(ReadError::TooLong) => Err(Refusal::FileFailed),
        Err(ReadError::Refused(_)) => Err(Refusal::OutOfMemory),
    }
}

// Nearly every signature is shorter than a piece. Memory for more is taken only where the file goes on.
fn read_start<D: Folder>(
    alloc: Global,
    folder: &mut D,
    file: &mut D::File,
) -> Result<Vec<u8>, Refusal>
    ensures reads { MatchResult result
        (λ first. BeginsContent (D.File.remaining file.old) first.items
        × FillsRoom (D.File.role file.old) decisive first.items (D.trace folder.old) (D.trace folder.new))
        (λ refusal. CantKeep (D.File.role file.old) refusal (D.trace folder.old) (D.trace folder.new)) }
    ensures content { KeepsContents (D.content folder.old) (D.content folder.new) }
{
    let mut bytes = Vec::new(alloc);
    let n = read_piece::<D, PIECE>(folder, file, &mut bytes)?;
    if n < PIECE {
        return Ok(bytes);
    }
    read_piece::<D, AFTER_A_PIECE>(folder, file, &mut bytes)?;
    Ok(bytes)
}

// Reads N bytes, or fewer at the file's end, and appends them. Gives how many.
fn read_piece<D: Folder, const N: usize>(
    folder: &mut D,
    file: &mut D::File,
    bytes: &mut Vec<u8>,
) -> Result<usize, Refusal>
    requires { N < 2 ^ 63 }
    ensures kept { IfOk result (λ n. (piece : List ℕ) × (bytes.new.items ≡ bytes.old.items ++ piece)
        × (length piece ≡ n) × FillsRoom (D.File.role file.old) N piece (D.trace folder.old) (D.trace folder.new)
        × Consumes (D.File.remaining file.old) (D.File.remaining file.new) piece
        × (n < N → IsAtEnd (D.File.remaining file.new))) }
    ensures refused { IfErr result (λ refusal.
        CantKeep (D.File.role file.old) refusal (D.trace folder.old) (D.trace folder.new)) }
    ensures role { D.File.role file.new ≡ D.File.role file.old }
    ensures content { KeepsContents (D.content folder.old) (D.content folder.new) }
{
    let mut piece = [0; N];
    let n = read_into(folder, file, &mut piece)?;
    if append(bytes, &piece[..n]).is_err() {
        return Err(Refusal::OutOfMemory);
    }
    Ok(n)
}

// Appends bytes. No bytes take no memory.
fn append(bytes: &mut Vec<u8>, more: &[u8]) -> Result<(), AllocError>
    ensures kept { IfOk result (λ _. bytes.new.items ≡ bytes.old.items ++ more.now) }
    ensures refused { IfErr result (λ _. 1 ≤ length more.now) }
{
    if more.is_empty() {
        return Ok(());
    }
    bytes.extend_from_slice(more)
}

// Keeps a file's bytes.
#[derive(Drop)]
struct Kept {
    bytes: Vec<u8>,
}

impl PieceTaker for Kept {
    ghost use Rattle.std.proofs.Common.{append-nil, append_assoc, ap, sym, ◌∙◌};

    type Error = AllocError;

    ghost takes = { λ old bytes new. new.bytes.items ≡ old.bytes.items ++ bytes };

    ghost refuses = { λ _ piece _ _. 1 ≤ length piece };

    fn take_piece(&mut self, piece: &[u8]) -> Result<(), AllocError> {
        append(&mut self.bytes, piece)
    }

    ghost takes_nothing = { λ state. sym (append-nil state.bytes.items) };

    ghost takes_more = { λ old middle new first later one more.
        more ∙ ap (λ l. l ++ later) one ∙ append_assoc old.bytes.items first later };
}

// Counts a file's bytes. A count that doesn't fit is never given.
#[derive(Drop)]
struct Counted {
    bytes: usize,
}

impl PieceTaker for Counted {
    ghost use Rattle.command.specs.inner.Files.{CountsBytes};
    ghost use Rattle.command.specs.inner.Files.{counts_more, counts_nothing};

    type Error = Infallible;

    ghost takes = { λ old bytes new. CountsBytes old.bytes bytes new.bytes };

    ghost refuses = { λ _ _ _ _. ⊥ };

    fn take_piece(&mut self, piece: &[u8]) -> Result<(), Infallible> {
        self.bytes = self.bytes.saturating_add(piece.len());
        Ok(())
    }

    ghost takes_nothing = { λ state. counts_nothing state.bytes };

    ghost takes_more = { λ old middle new first later one more.
        counts_more old.bytes middle.bytes new.bytes first later one more };
}

fn count_rest<D: Folder>(folder: &mut D, file: &mut D::File) -> io::Result<usize>
    ensures counts { ReadsAllOrFails (D.File.role file.old) (D.File.remaining file.old) (λ rest n. n ≡ length rest)
        result (D.trace folder.old) (D.trace folder.new) }
    ensures bound { IfOk result (λ n. n < 2 ^ 60) }
    ensures content { KeepsContents (D.content folder.old) (D.content folder.new) }
{
    let mut counted = Counted { bytes: 0 };
    match read_rest(folder, file, &mut counted) {
        Ok(()) => Ok(counted.bytes),
        Err(ReadError::Failed(error)) => Err(error),
        Err(ReadError::TooLong) => Err(io::Error::from(ErrorKind::FileTooLarge)),
        Err(ReadError::Refused(never)) => match never {},
    }
}

fn read_rest<D: Folder, T: PieceTaker>(
    folder: &mut D,
    file: &mut D::File,
    taker: &mut T,
) -> Result<(), ReadError<T::Error>>
    ensures reads { EndsOrFails (ReadsFileOnce (D.File.role file.old)) left_of T.takes T.refuses result
        (D.File.remaining file.old, D.trace folder.old) (D.File.remaining file.new, D.trace folder.new)
        taker.old taker.new }
    ensures content { KeepsContents (D.content folder.old) (D.content folder.new) }
{
    read_to_end(&mut FileReader { folder, file }, taker)
}

/// Reads until the buffer is full or the file ends, and gives the number of bytes.
pub fn read_into<D: Folder>(
    folder: &mut D,
    file: &mut D::File,
    buffer: &mut [u8],
) -> io::Result<usize>
    ensures within { IfOk result (λ n. n ≤ length buffer.new) }
    ensures bytes { IfOk result (λ n.
        Consumes (D.File.remaining file.old) (D.File.remaining file.new) (take n buffer.new)) }
    ensures end { IfOk result (λ n. n < length buffer.new → IsAtEnd (D.File.remaining file.new)) }
    ensures role { D.File.role file.new ≡ D.File.role file.old }
    ensures trace { FillsOrFails (D.File.role file.old) result buffer.new (D.trace folder.old) (D.trace folder.new) }
    ensures content { KeepsContents (D.content folder.old) (D.content folder.new) }
{
    read_full(&mut FileReader { folder, file }, buffer)
}
