//! What a program does to files, for contracts alone: a list that takes no bytes.

ghost use Rattle.std.specs.Prelude.{◌≡◌, List, [], ◌∷◌, ◌++◌};
ghost use Rattle.std.specs.Borrow.{ftrue};
ghost use Rattle.std.specs.Io.{ReadsAtMost};
ghost use Rattle.command.specs.Trace.{Happening, happening_of};

use std::io;
use std::io::ErrorKind;
use std::marker::Model;

/// Has a trace of what happened to files, for contracts.
pub trait Traced {
    // in order
    ghost trace: { Self → List Happening };
}

/// Which of a command's files.
#[derive(Clone, Copy, Debug, PartialEq, Eq)]
pub enum Role {
    /// The state file.
    State,
    /// The public key.
    Public,
    /// The message.
    Message,
    /// The signature.
    Signature,
    /// Random bytes.
    Random,
}

/// What happened to a file. It may borrow a state file's bytes, so it has no `Debug`.
#[derive(Clone, Copy)]
pub enum Event<'a> {
    /// It is opened, by this path.
    Opened(Role, &'a str),
    /// It can't be opened.
    NotOpened(Role, &'a str),
    /// The state file of this path is opened for reading alone.
    OpenedToRead(&'a str),
    /// The state file of this path is opened for reading alone, and isn't locked.
    OpenedUnlocked(&'a str),
    /// The state file of this path is opened, and was made if there was none.
    Made(&'a str),
    /// It can't be opened or made.
    NotMade(&'a str),
    /// The state file of this path is locked by another.
    Locked(&'a str),
    /// A read gives these bytes.
    Given(Role, &'a [u8]),
    /// A read fails.
    Failed(Role, ErrorKind),
    /// The length is requested.
    Measured(Result<u64, ErrorKind>),
    /// A read at this offset, for this number of bytes, gives these.
    ReadAt(u64, usize, Result<&'a [u8], ErrorKind>),
    /// A write of these bytes at this offset takes the first of them.
    WrittenAt(u64, &'a [u8], Result<&'a [u8], ErrorKind>),
    /// What was written is synced.
    Synced(Result<(), ErrorKind>),
    /// Whether the file that is open for writing has a key.
    Looked(bool),
    /// That couldn't be read.
    NotLooked,
    /// It is cut to no bytes.
    Cut,
    /// It can't be cut.
    NotCut,
    /// These bytes are written to it, from its beginning on.
    Wrote(&'a [u8]),
    /// Not all of these bytes are written.
    NotWrote,
    /// The file of this path has these bytes and no others.
    Written(Role, &'a str, &'a [u8]),
    /// It isn't written, or a call to open or write it failed. Its content isn't known.
    NotWritten(Role, &'a str),
}

/// What happened to files, in order. Contracts alone see it.
#[derive(Drop)]
pub struct Trace {
    pub ghost events: { List Happening },
}

// The list takes no bytes, so the tactics find no proof of `new` and `and`: they are proved by hand.
impl Model for Trace {
    ghost also_owns = { λ _. ftrue };
}

impl Trace {
    ghost use Rattle.typecodes.specs.Message.{read_outcome};
    ghost use Rattle.command.specs.Trace.{ReadsOnce, happening_of};

    /// An empty trace.
    pub fn new() -> Trace
        ensures { result.events ≡ [] }
    {
        Trace {}
    }

    /// This trace, and this event after it.
    pub fn and(&self, _event: &Event<'_>) -> Trace
        ensures { result.events ≡ self.now.events ++ happening_of _event.now ∷ [] }
    {
        Trace {}
    }

    /// Notes this event.
    pub fn note(&mut self, event: &Event<'_>)
        ensures { self.new.events ≡ self.old.events ++ happening_of event.now ∷ [] }
    {
        *self = self.and(event);
    }

    /// Notes a read into this buffer, and gives its answer.
    pub fn note_read(
        &mut self,
        role: Role,
        answer: io::Result<usize>,
        buffer: &[u8],
    ) -> io::Result<usize>
        requires { ReadsAtMost answer buffer.now }
        ensures answer { result ≡ answer }
        ensures notes { ReadsOnce role self.old.events (read_outcome answer buffer.now) self.new.events }
    {
        *self = match &answer {
            Ok(n) => self.and(&Event::Given(role, &buffer[..*n])),
            Err(error) => self.and(&Event::Failed(role, error.kind())),
        };
        answer
    }
}
