//! The whole program: reads a line, does what it requests, and reports the answer.

ghost use Rattle.std.specs.Prelude.{◌≡◌, ◌≢◌, ◌+◌, ◌<◌, ◌⊎◌, [], length, map, true};
ghost use Rattle.command.specs.Files.{files_seen};
ghost use Rattle.command.specs.Line.{AreTexts, IsLineOf, Task as LineTask};
ghost use Rattle.command.specs.LineFault.{HasText, line_faults};
ghost use Rattle.command.specs.Program.{AsksToServe, Explains, HasRepliesAlone, Helps, KeepsErrorsUnlessServing};
ghost use Rattle.command.specs.Program.{MayReportServing, RefusesLine, RefusesWords, ReportsOutOfMemory, Runs};
ghost use Rattle.command.specs.Program.{RunsTask};
ghost use Rattle.command.specs.Program.{Says, begins_with_serve};
ghost use Rattle.command.specs.Notes.{NotesAnswer, NotesOutput, NotesRun};
ghost use Rattle.command.specs.Output.{Fails, WritesText, text_of};
ghost use Rattle.command.specs.Streams.{output_seen, streams, taken};

use crate::answer::{OUTPUT_FAILED, report, report_serving};
use crate::files::SignerFolder;
use crate::line::{LineReader, VERSION};
use crate::line_fault::LineFault;
use crate::notes::Notes;
use crate::output::{Output, Part};
use crate::refusal::Refusal;
use crate::serve::Serve;
use sign_core::TreeProgress;
use state_file::{Disk, FileStore, Store};
use std::alloc::Global;
use std::convert::AsStr;
use std::io::Read;
use typecodes::Message;

/// The exit status of a line that is refused.
pub const LINE_REFUSED: u8 = 2;

/// Does what the words of a line, without the program's name, request. Gives the exit status.
///
/// A line on the output reports the answer. For `serve` the output has replies alone: where serving fails, or there was
/// no memory to read the line, a line on `errors` says so. A wrong line is explained on `errors` alone. Status 2 means
/// a wrong line, name or spec. The folder, the disk and the source tell of their failed calls elsewhere. `progress`
/// hears of the trees that are made, `notes` of a refusal and of an output that failed; neither changes any of this.
pub fn run<'a, L, D, S, I, O, E, P, N>(
    alloc: Global,
    lines: &mut L,
    folder: &mut D,
    words: &'a [S],
    input: &mut I,
    output: &mut O,
    errors: &mut E,
    progress: &P,
    notes: &mut N,
) -> u8
where
    L: LineReader,
    D: SignerFolder<'a>,
    S: AsStr,
    I: Read,
    O: Output,
    E: Output,
    P: TreeProgress,
    N: Notes,
    ensures runs { Runs D.Disk.Disk ⟦<FileStore<D::Disk> as Store>⟧ D.Random.Source ⟦<I as Message>⟧
        (output_seen O.contents O.failures)
        (map S.text words.now) (files_seen (D.content folder.old) D.is_opened (D.is_closed folder.new))
        (L.refusals lines.new ≡ L.refusals lines.old + 1) (D.trace folder.old) (D.trace folder.new)
        (streams input.old output.old (taken E.contents E.failures errors.old))
        (streams input.new output.new (taken E.contents E.failures errors.new)) result }
    ensures requests { (task : LineTask) → IsLineOf (map S.text words.now) task
        → RunsTask D.Disk.Disk ⟦<FileStore<D::Disk> as Store>⟧ D.Random.Source ⟦<I as Message>⟧
        (output_seen O.contents O.failures) (map S.text words.now)
        (files_seen (D.content folder.old) D.is_opened (D.is_closed folder.new)) task
        (L.refusals lines.new ≡ L.refusals lines.old + 1) (D.trace folder.old) (D.trace folder.new)
        (streams input.old output.old (taken E.contents E.failures errors.old))
        (streams input.new output.new (taken E.contents E.failures errors.new)) result }
    ensures replies { AreTexts (map S.text words.now) → AsksToServe (map S.text words.now)
        → HasRepliesAlone D.Disk.Disk ⟦<FileStore<D::Disk> as Store>⟧ D.Random.Source ⟦<I as Message>⟧
        (output_seen O.contents O.failures) (files_seen (D.content folder.old) D.is_opened (D.is_closed folder.new))
        (D.trace folder.old) (D.trace folder.new)
        (streams input.old output.old (taken E.contents E.failures errors.old))
        (streams input.new output.new (taken E.contents E.failures errors.new)) }
    ensures input { (input.new ≡ input.old) ⊎ AsksToServe (map S.text words.now) }
    ensures opens_none { line_faults (map S.text words.now) ≢ [] → D.trace folder.new ≡ D.trace folder.old }
    ensures refuses { result ≡ 2 → RefusesWords (taken O.contents O.failures output.old)
        (taken O.contents O.failures output.new)
        (taken E.contents E.failures errors.old) (taken E.contents E.failures errors.new) }
    ensures silent { result ≢ 2 → (taken E.contents E.failures errors.new ≡ taken E.contents E.failures errors.old)
        ⊎ MayReportServing (map S.text words.now) (L.refusals lines.new ≡ L.refusals lines.old + 1) }
    ensures accepted { line_faults (map S.text words.now) ≡ [] → KeepsErrorsUnlessServing (map S.text words.now)
        (taken E.contents E.failures errors.old) (taken E.contents E.failures errors.new) }
    ensures notes { NotesRun (taken O.contents O.failures output.old) (taken O.contents O.failures output.new)
        (taken E.contents E.failures errors.old) (taken E.contents E.failures errors.new)
        (N.told notes.old) (N.told notes.new) result }
{
    match lines.read(words) {
        Ok(request) => request.fulfil(alloc, folder, input, output, errors, progress, notes),
        Err(fault) => explain(&fault, begins_with_serve(words), output, errors, notes),
    }
}

fn begins_with_serve<S: AsStr>(words: &[S]) -> bool
    ensures { result ≡ begins_with_serve (map S.text words.now) }
{
    match words.first() {
        Some(word) => word.as_str() == Serve::NAME,
        None => false,
    }
}

// Prints the help or the version, what is wrong with the line, or that memory was refused.
fn explain<O: Output, E: Output, N: Notes>(
    fault: &LineFault,
    serves: bool,
    output: &mut O,
    errors: &mut E,
    notes: &mut N,
) -> u8
    requires { HasText fault.now }
    ensures explains { Explains serves fault.now (taken O.contents O.failures output.old)
        (taken O.contents O.failures output.new)
        (taken E.contents E.failures errors.old) (taken E.contents E.failures errors.new) result }
    ensures refuses { result ≡ 2 → RefusesLine (taken O.contents O.failures output.old)
        (taken O.contents O.failures output.new)
        (taken E.contents E.failures errors.old) (taken E.contents E.failures errors.new) }
    ensures silent { result ≢ 2 → (taken E.contents E.failures errors.new ≡ taken E.contents E.failures errors.old)
        ⊎ ((serves ≡ true) × (fault.now ≡ LineFault.OutOfMemory)) }
    ensures notes { NotesRun (taken O.contents O.failures output.old) (taken O.contents O.failures output.new)
        (taken E.contents E.failures errors.old) (taken E.contents E.failures errors.new)
        (N.told notes.old) (N.told notes.new) result }
{
    match fault {
        LineFault::Help(text) => print(&[Part::Text(text.as_str())], output, notes),
        LineFault::Version => print(
            &[Part::Text("hbsign "), Part::Text(VERSION), Part::Text("\n")],
            output,
            notes,
        ),
        LineFault::Refused(text) => {
            let _ = errors.print(&[Part::Text(text.as_str())]);
            LINE_REFUSED
        }
        LineFault::OutOfMemory => report_no_memory(serves, output, errors, notes),
    }
}

/// Reports that memory was refused before the line was read: on the output, or for `serve`, whose output has replies
/// alone, on `errors`. Gives the exit status.
pub fn report_no_memory<O: Output, E: Output, N: Notes>(
    serves: bool,
    output: &mut O,
    errors: &mut E,
    notes: &mut N,
) -> u8
    ensures reports { ReportsOutOfMemory serves (taken O.contents O.failures output.old)
        (taken O.contents O.failures output.new)
        (taken E.contents E.failures errors.old) (taken E.contents E.failures errors.new) result }
    ensures status { result ≢ 2 }
    ensures notes { NotesAnswer (taken O.contents O.failures output.old) (taken O.contents O.failures output.new)
        (taken E.contents E.failures errors.old) (taken E.contents E.failures errors.new)
        (N.told notes.old) (N.told notes.new) result }
{
    if serves {
        report_serving(&Err(Refusal::OutOfMemory), errors, notes)
    } else {
        report(&Err(Refusal::OutOfMemory), "", output, notes)
    }
}

// Prints help or the version, and gives the exit status.
fn print<O: Output, N: Notes>(parts: &[Part<'_>], output: &mut O, notes: &mut N) -> u8
    ensures helps { Helps (text_of parts.now) (taken O.contents O.failures output.old)
        (taken O.contents O.failures output.new) result }
    ensures notes { NotesOutput (taken O.contents O.failures output.old) (taken O.contents O.failures output.new)
        (N.told notes.old) (N.told notes.new) result }
{
    match output.print(parts) {
        Ok(()) => 0,
        Err(_) => {
            notes.unwritten();
            OUTPUT_FAILED
        }
    }
}
