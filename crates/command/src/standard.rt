//! The process's standard streams, and what standard error says of failed calls of the system.

ghost use Rattle.std.specs.Prelude.{◌≡◌, IfErr};

mod progress_line;

use crate::file_id::FileId;
use crate::key_start::has_key;
use crate::refusal::Refusal;
use arrayvec::ArrayString;
use std::cell::Cell;
use std::fmt::{Display, Formatter, Write as _};
use std::fs::{File, Files};
use std::io::{ErrorKind, IsTerminal, Read, Stderr, Write};
use std::os::fd::AsFd;
use std::os::unix::fs::FileTypeExt;
use std::{fmt, fs, io};

/// Standard output or standard error: which file of the machine it is, if this is known.
#[derive(Drop)]
pub struct Stream {
    id: Option<FileId>,
    // nothing more is written to it: it is a file with a key, or an output where a write failed
    is_shut: Cell<bool>,
    ends_at_failure: bool,
}

impl Stream {
    // The stream at this path. A device other than a terminal, such as /dev/null, counts as no file. A file with a key
    // is shut from the beginning.
    fn of<R: Files<File = File>>(
        rt: &R,
        path: &str,
        is_terminal: bool,
        ends_at_failure: bool,
    ) -> Self {
        let (id, has_key) = match fs::metadata(rt, path) {
            Ok(found) if is_terminal || !found.file_type().is_char_device() => {
                (
                    Some(FileId::of(&found)),
                    found.is_file() && leads_to_key(rt, path),
                )
            }
            _ => (None, false),
        };
        Stream {
            id,
            is_shut: Cell::new(has_key),
            ends_at_failure,
        }
    }

    /// The file that it is, if known.
    pub fn id(&self) -> Option<FileId> {
        self.id
    }

    pub fn is(&self, id: FileId) -> bool {
        self.id == Some(id)
    }
}

// False if the file can't be read.
fn leads_to_key<R: Files<File = File>>(rt: &R, path: &str) -> bool {
    match fs::open(rt, path) {
        Ok(file) => has_key(&file).unwrap_or(false),
        Err(_) => false,
    }
}

/// A writer to a standard stream. It refuses to write to a file with a key, and to an output where a write failed, so
/// that the lost line isn't written later. It erases a line of progress first.
#[derive(Drop)]
pub struct StreamWriter<'a, W> {
    pub standard: &'a Standard,
    pub stream: &'a Stream,
    pub writer: W,
}

impl<W: Write> Write for StreamWriter<'_, W> {
    ghost contents = { λ stream. W.contents stream.writer };

    fn write(&mut self, bytes: &[u8]) -> io::Result<usize> {
        if self.stream.is_shut.get() {
            return Err(io::Error::from(ErrorKind::ResourceBusy));
        }
        self.standard.erase_line();
        let answer = self.writer.write(bytes);
        if answer.is_err() && self.stream.ends_at_failure {
            self.stream.is_shut.set(true);
        }
        answer
    }

    fn flush(&mut self) -> io::Result<()> {
        self.writer.flush()
    }
}

/// The standard streams. None of them is closed, so no file that is opened later takes their descriptors.
#[derive(Drop)]
pub struct Standard {
    pub output: Stream,
    pub errors: Stream,
    /// Whether standard error is a terminal.
    pub is_on_terminal: bool,
    // whether a line of progress is on the screen, behind the cursor
    has_line: Cell<bool>,
    stderr: Stderr,
    // in place of each closed stream, as long as this value lives
    _null_devices: [Option<File>; 3],
}

impl Standard {
    /// Called before any file is opened. In place of a closed stream it opens /dev/null for reading, which has no input
    /// and refuses output.
    pub fn take(rt: &HostRuntime) -> io::Result<Self> {
        let stderr = rt.stderr();
        // A new file gets the lowest free descriptor, so each device gets its stream's.
        let input = null_device(rt, &rt.stdin())?;
        let output = null_device(rt, &rt.stdout())?;
        let errors = null_device(rt, &stderr)?;
        let is_on_terminal = stderr.is_terminal();
        Ok(Standard {
            output: Stream::of(rt, "/proc/self/fd/1", rt.stdout().is_terminal(), true),
            errors: Stream::of(rt, "/proc/self/fd/2", is_on_terminal, false),
            is_on_terminal,
            has_line: Cell::new(false),
            stderr,
            _null_devices: [input, output, errors],
        })
    }

    /// Says on standard error what was tried with the file of this path, and the system's reason why it failed.
    pub fn say_failed(&self, path: &str, tried: &str, error: &io::Error) {
        let mut text = ArrayString::<256>::new();
        let _ = write!(text, "{error}");
        // Without the number of the error.
        let reason = text.as_str().split(" (os error").next();
        self.say_why(path, tried, reason.unwrap_or(""));
    }

    /// As `tell`, for a reason of this program's own.
    pub fn say_why(&self, path: &str, tried: &str, reason: &str) {
        let mut line = self.line();
        let _ = write!(line, "hbsign: {}: {tried}: {reason}\n", Escaped(path));
        let _ = line.pass_on();
    }

    /// Says a sentence of this program's own on standard error.
    pub fn say(&self, sentence: &str) {
        let mut line = self.line();
        let _ = write!(line, "hbsign: {sentence}\n");
        let _ = line.pass_on();
    }

    // An empty line, for standard error.
    fn line(&self) -> Line<StreamWriter<'_, Stderr>> {
        Line {
            text: ArrayString::new(),
            writer: StreamWriter {
                standard: self,
                stream: &self.errors,
                writer: self.stderr,
            },
        }
    }

    /// Warns on standard error that the records of `old` were moved before: if not to `new`, two files can sign.
    pub fn warn_moved(&self, old: &str, new: &str) {
        let mut line = self.line();
        let _ = write!(
            line,
            "hbsign: {}: was moved before; if that wasn't to {}, two files can sign now: delete {}\n",
            Escaped(old),
            Escaped(new),
            Escaped(new)
        );
        let _ = line.pass_on();
    }

    /// Warns on standard error that bytes stand behind the last record, in this slot, of the state file at this path.
    pub fn warn_behind(&self, path: &str, slot: u32) {
        let mut found = ArrayString::<64>::new();
        let _ = write!(found, "bytes stand behind the last record (slot {slot})");
        self.say_why(
            path,
            found.as_str(),
            "the file seems cut short or damaged; don't sign, compare it with an anchor",
        );
    }

    /// The answer of a call of the system on the file of this path. Standard error says why it failed (53).
    pub fn checked<T>(&self, path: &str, tried: &str, answer: io::Result<T>) -> Result<T, Refusal>
        ensures { IfErr result (λ refusal. refusal ≡ Refusal.FileFailed) }
    {
        match answer {
            Ok(value) => Ok(value),
            Err(error) => {
                self.say_failed(path, tried, &error);
                Err(Refusal::FileFailed)
            }
        }
    }

    /// Refuses a state file that is standard output or standard error (53), and shuts that stream.
    pub fn refuse_state(&self, path: &str, id: FileId) -> Result<(), Refusal>
        ensures { IfErr result (λ refusal. refusal ≡ Refusal.FileFailed) }
    {
        let is_output = self.output.is(id);
        let is_errors = self.errors.is(id);
        if !is_output && !is_errors {
            return Ok(());
        }
        if is_output {
            self.output.is_shut.set(true);
        }
        if is_errors {
            self.errors.is_shut.set(true);
        }
        let reason = if is_output {
            "it is the standard output"
        } else {
            "it is the standard error"
        };
        self.say_why(path, "can't be opened", reason);
        Err(Refusal::FileFailed)
    }
}

// /dev/null, opened for reading, if this stream is closed.
fn null_device<S: AsFd>(rt: &HostRuntime, stream: &S) -> io::Result<Option<File>> {
    if stream.as_fd().try_clone_to_owned().is_ok() {
        return Ok(None);
    }
    Ok(Some(fs::open(rt, "/dev/null")?))
}

/// Standard input. Standard error says what failed.
#[derive(Drop)]
pub struct Input<'a, R> {
    pub standard: &'a Standard,
    pub reader: R,
}

impl<R: Read> Read for Input<'_, R> {
    ghost remaining = { λ input. R.remaining input.reader };

    fn read(&mut self, buffer: &mut [u8]) -> io::Result<usize> {
        let answer = self.reader.read(buffer);
        if let Err(error) = &answer {
            self.standard
                .say_failed("standard input", "can't be read", error);
        }
        answer
    }
}

// Gathers a line, so that one of usual length is written in one piece.
#[derive(Drop)]
struct Line<W> {
    text: ArrayString<1024>,
    writer: W,
}

impl<W: Write> Line<W> {
    fn pass_on(&mut self) -> io::Result<()> {
        self.writer.write_all(self.text.as_bytes())?;
        self.text.clear();
        Ok(())
    }
}

impl<W: Write> fmt::Write for Line<W> {
    fn write_str(&mut self, text: &str) -> fmt::Result {
        if self.text.try_push_str(text).is_ok() {
            return Ok(());
        }
        if self.pass_on().is_err() || self.writer.write_all(text.as_bytes()).is_err() {
            return Err(fmt::Error);
        }
        Ok(())
    }
}

// A path with its control characters as hex digits, so that it can't change the terminal. An empty one has quotes.
#[derive(Clone, Copy)]
struct Escaped<'a>(&'a str);

impl Display for Escaped<'_> {
    fn fmt<W: fmt::Write>(&self, f: &mut Formatter<W>) -> fmt::Result {
        if self.0.is_empty() {
            f.write_str("''")?;
        }
        for c in self.0.chars() {
            if c.is_control() {
                write!(f, "\\x{:02x}", c as u32)?;
            } else {
                f.write_char(c)?;
            }
        }
        Ok(())
    }
}
