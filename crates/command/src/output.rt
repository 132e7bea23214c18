//! Where the program writes, with a count of the texts that couldn't be written.

ghost use Rattle.std.specs.Prelude.{◌≡◌, ◌++◌, ℕ, OnOk, codes, decimal};
ghost use Rattle.std.specs.Io.KnownBytes.{Appends};
ghost use Rattle.command.specs.Output.{CountsFailure, Prints, behind_line, could_be_line, level_line, level_lines};
ghost use Rattle.command.specs.Output.{moved_line, part_text, signatures_line, taken_of, text_of};

use crate::described::SignedLevel;
use crate::hex_text::write_hex;
use crate::listing_text::{write_entries, write_signed_levels, write_spec};
use key_audit::Entry;
use std::io;
use std::io::Write;
use typecodes::{Count, Spec};

/// A part of a text.
#[derive(Clone, Copy, Debug)]
pub enum Part<'a> {
    /// These characters.
    Text(&'a str),
    /// A number, in decimal.
    Number(u64),
    /// These bytes, as they are.
    Bytes(&'a [u8]),
    /// These bytes, in lower-case hex.
    Hex(&'a [u8]),
    /// A line for each level with its number of free leaves; level 0 is the first.
    Levels(&'a [u32]),
    /// A line with the version of the file in which the records go on; nothing for None.
    Moved(Option<u16>),
    /// The text of a key's spec.
    Spec(&'a Spec),
    /// A line for each of a key's records; record 0 is the first.
    Entries(&'a [Entry]),
    /// A line for each level of an HSS signature; level 0 is the first.
    SignedLevels(&'a [SignedLevel]),
    /// A line that says whether a signature could be a key's; nothing for None.
    CouldBe(Option<bool>),
    /// A line with the number of new names that a key can still sign; 2^64 or more for None.
    Signatures(Option<u64>),
    /// A line with the last record's slot, if bytes stand behind it; nothing for None.
    Behind(Option<u32>),
}

/// A writer of the program's texts. As a `Write` it takes the replies of `serve`, which aren't texts.
pub trait Output: Write {
    // how many texts couldn't be written
    ghost failures: { Self → ℕ };

    /// Writes the parts of a text in order, and flushes. Tested: it fails only where the writer below fails, and holds
    /// no text back.
    fn print(&mut self, parts: &[Part<'_>]) -> io::Result<()>
        ensures { Prints (text_of parts.now) (taken_of (Self.contents self.old) (failures self.old))
            (taken_of (Self.contents self.new) (failures self.new)) result };
}

/// A writer, with its count of failures.
#[derive(Drop)]
pub struct Printer<W> {
    pub writer: W,
    failures: Count,
}

impl<W: Write> Printer<W> {
    ghost use Rattle.command.specs.Streams.{failures_of};

    /// Over this writer; nothing failed yet.
    pub fn new(writer: W) -> Self
        ensures writer { result.writer ≡ writer }
        ensures failures { failures_of result ≡ 0 }
    {
        Printer {
            writer,
            failures: Count::new(),
        }
    }
}

impl<W: Write> Write for Printer<W> {
    ghost contents = { λ p. W.contents p.writer };

    fn write(&mut self, bytes: &[u8]) -> io::Result<usize> {
        self.writer.write(bytes)
    }

    fn flush(&mut self) -> io::Result<()> {
        self.writer.flush()
    }
}

impl<W: Write> Output for Printer<W> {
    ghost failures = { λ p. p.failures };

    fn print(&mut self, parts: &[Part<'_>]) -> io::Result<()> {
        write_text(&mut self.writer, &mut self.failures, parts)
    }
}

// Stops at the first part that fails.
fn write_text<W: Write>(writer: &mut W, failures: &mut Count, parts: &[Part<'_>]) -> io::Result<()>
    ensures { Prints (text_of parts.now) (taken_of (W.contents writer.old) failures.old)
        (taken_of (W.contents writer.new) failures.new) result }
{
    for part in parts {
        counted(write_part(writer, part), failures)?;
    }
    counted(writer.flush(), failures)
}

fn write_part<W: Write>(writer: &mut W, part: &Part<'_>) -> io::Result<()>
    ensures { OnOk result (Appends (W.contents writer.old) (W.contents writer.new) (part_text part.now)) }
{
    match part {
        Part::Text(text) => writer.write_all(text.as_bytes()),
        Part::Number(number) => writer.write_fmt(*number),
        Part::Bytes(bytes) => writer.write_all(bytes),
        Part::Hex(bytes) => write_hex(writer, bytes),
        Part::Levels(left) => write_levels(writer, left),
        Part::Moved(version) => write_moved(writer, *version),
        Part::Spec(spec) => write_spec(writer, spec),
        Part::Entries(entries) => write_entries(writer, entries),
        Part::SignedLevels(levels) => write_signed_levels(writer, levels),
        Part::CouldBe(could_be) => write_could_be(writer, *could_be),
        Part::Signatures(number) => write_signatures(writer, *number),
        Part::Behind(slot) => write_behind(writer, *slot),
    }
}

fn write_levels<W: Write>(writer: &mut W, left: &[u32]) -> io::Result<()>
    ensures { OnOk result (Appends (W.contents writer.old) (W.contents writer.new) (level_lines 0 left.now)) }
{
    for level in 0..left.len() {
        write_level(writer, level, left[level])?;
    }
    Ok(())
}

fn write_level<W: Write>(writer: &mut W, level: usize, left: u32) -> io::Result<()>
    ensures { OnOk result (Appends (W.contents writer.old) (W.contents writer.new) (level_line level left)) }
{
    writer.write_all("level ".as_bytes())?;
    writer.write_fmt(level as u64)?;
    writer.write_all(" left ".as_bytes())?;
    writer.write_fmt(u64::from(left))?;
    writer.write_all("\n".as_bytes())
}

fn write_moved<W: Write>(writer: &mut W, version: Option<u16>) -> io::Result<()>
    ensures { OnOk result (Appends (W.contents writer.old) (W.contents writer.new) (moved_line version)) }
{
    let Some(version) = version else {
        return Ok(());
    };
    writer.write_all("moved ".as_bytes())?;
    writer.write_fmt(u64::from(version))?;
    writer.write_all("\n".as_bytes())
}

fn write_could_be<W: Write>(writer: &mut W, could_be: Option<bool>) -> io::Result<()>
    ensures { OnOk result (Appends (W.contents writer.old) (W.contents writer.new) (could_be_line could_be)) }
{
    match could_be {
        Some(true) => writer.write_all("could be of this key yes\n".as_bytes()),
        Some(false) => writer.write_all("could be of this key no\n".as_bytes()),
        None => Ok(()),
    }
}

fn write_signatures<W: Write>(writer: &mut W, number: Option<u64>) -> io::Result<()>
    ensures { OnOk result (Appends (W.contents writer.old) (W.contents writer.new) (signatures_line number)) }
{
    match number {
        Some(number) => write_count(writer, "signatures ", number),
        None => writer.write_all("signatures at least 2^64\n".as_bytes()),
    }
}

// A line of a word, with the blank behind it, and a number.
fn write_count<W: Write>(writer: &mut W, word: &str, number: u64) -> io::Result<()>
    ensures { OnOk result (Appends (W.contents writer.old) (W.contents writer.new)
        (word.now ++ decimal number ++ codes "\n")) }
{
    writer.write_all(word.as_bytes())?;
    writer.write_fmt(number)?;
    writer.write_all("\n".as_bytes())
}

fn write_behind<W: Write>(writer: &mut W, slot: Option<u32>) -> io::Result<()>
    ensures { OnOk result (Appends (W.contents writer.old) (W.contents writer.new) (behind_line slot)) }
{
    let Some(slot) = slot else {
        return Ok(());
    };
    writer.write_all("behind ".as_bytes())?;
    writer.write_fmt(u64::from(slot))?;
    writer.write_all("\n".as_bytes())
}

/// Returns the answer, and counts it if it failed. No other function counts.
pub fn counted<T, E>(answer: Result<T, E>, failures: &mut Count) -> Result<T, E>
    ensures answer { result ≡ answer }
    ensures counts { CountsFailure answer failures.old failures.new }
{
    if answer.is_err() {
        failures.add_one();
    }
    answer
}
