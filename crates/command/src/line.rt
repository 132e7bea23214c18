//! The words of a command line, as `clap` reads them.

ghost use Rattle.std.specs.Prelude.{◌≡◌, ◌≢◌, ◌⊎◌, ◌+◌, ℕ, [], Ok, IfErr, IfOk, MatchResult, map};
ghost use Rattle.clap.specs.Words.{HasKind, app_of, fault_of, kind_of, subcommand_of, subcommand_rows_of};
ghost use Rattle.clap.specs.Words.{first_value, found_of};
ghost use Rattle.command.specs.Line.{AreTexts, FindsTask, IsLineOf, IsShownLineOf, bare_app, fixed_task_named};
ghost use Rattle.command.specs.Line.{hbsign_app, usage_kind, task_found, task_of};
ghost use Rattle.command.specs.inner.Line.{task_or_fault};
ghost use Rattle.command.specs.Line.{Task as LineTask};
ghost use Rattle.command.specs.LineFault.{CountsRefusals, HasLineFault, HasText, line_faults};

use crate::answer::{report, report_serving};
use crate::audit::Audit;
use crate::audit_given::AuditGiven;
use crate::files::SignerFolder;
use crate::line_fault::LineFault;
use crate::list::ListState;
use crate::make::Make;
use crate::migrate::Migrate;
use crate::notes::Notes;
use crate::output::Output;
use crate::public::Public;
use crate::retire::Retire;
use crate::serve::Serve;
use crate::sign::Sign;
use crate::texts::Texts;
use crate::usage_fault::UsageFault;
use crate::verify::Verify;
use clap::error::ErrorKind;
use clap::{ArgMatches, Command, Error};
use sign_core::TreeProgress;
use state_file::{Disk, FileStore, Store};
use std::alloc::{AllocError, Global};
use std::convert::AsStr;
use typecodes::{Count, Message};

/// What a line requests.
#[derive(Debug, Drop)]
pub enum CommandLine<'a> {
    /// To make a key.
    Make(Make<'a>),
    /// To sign a message.
    Sign(Sign<'a>),
    /// To verify a signature.
    Verify(Verify<'a>),
    /// To retire leaves.
    Retire(Retire<'a>),
    /// To audit a state file.
    Audit(Audit<'a>),
    /// To check signatures that were given out.
    AuditGiven(AuditGiven<'a>),
    /// To serve requests that come on the input.
    Serve(Serve<'a>),
    /// To move a key to a new state file.
    Migrate(Migrate<'a>),
    /// To list a state file.
    ListState(ListState<'a>),
    /// To write a public key again.
    Public(Public<'a>),
}

impl<'a> CommandLine<'a> {
    ghost use Rattle.command.specs.Files.{files_seen};
    ghost use Rattle.command.specs.Line.{task_of};
    ghost use Rattle.command.specs.Notes.{NotesAnswer};
    ghost use Rattle.command.specs.Program.{RefusesWord, ReportsTask};
    ghost use Rattle.command.specs.Streams.{output_seen, streams, taken};

    /// Does what is requested, reports the answer, and gives the exit status. `progress` hears of the trees that are
    /// made, `notes` of a refusal.
    ///
    /// No command is inlined: each stack frame would otherwise hold the buffers of all.
    pub fn fulfil<D: SignerFolder<'a>, I: Message, O: Output, E: Output, P: TreeProgress, N: Notes>(
        &self,
        alloc: Global,
        folder: &mut D,
        input: &mut I,
        output: &mut O,
        errors: &mut E,
        progress: &P,
        notes: &mut N,
    ) -> u8
        ensures reports { ReportsTask D.Disk.Disk ⟦<FileStore<D::Disk> as Store>⟧ D.Random.Source I.Message
            (output_seen O.contents O.failures)
            (files_seen (D.content folder.old) D.is_opened (D.is_closed folder.new)) (task_of self.now)
            (D.trace folder.old) (D.trace folder.new)
            (streams input.old output.old (taken E.contents E.failures errors.old))
            (streams input.new output.new (taken E.contents E.failures errors.new)) result }
        ensures refuses { result ≡ 2 → RefusesWord (taken O.contents O.failures output.old)
            (taken O.contents O.failures output.new)
            (taken E.contents E.failures errors.old) (taken E.contents E.failures errors.new) }
        ensures notes { NotesAnswer (taken O.contents O.failures output.old) (taken O.contents O.failures output.new)
            (taken E.contents E.failures errors.old) (taken E.contents E.failures errors.new)
            (N.told notes.old) (N.told notes.new) result }
    {
        match self {
            CommandLine::Make(words) => {
                let answer = words.answer(alloc, folder, progress);
                report(&answer, words.spec, output, notes)
            }
            CommandLine::Sign(words) => {
                let answer = words.answer(alloc, folder, progress);
                report(&answer, words.name, output, notes)
            }
            CommandLine::Verify(files) => report(&files.answer(folder), "", output, notes),
            CommandLine::Retire(words) => report(&words.answer(alloc, folder), "", output, notes),
            CommandLine::Audit(words) => report(&words.answer(alloc, folder), "", output, notes),
            CommandLine::AuditGiven(words) => report(
                &words.answer(alloc, folder),
                "",
                output,
                notes,
            ),
            CommandLine::Serve(words) => {
                let served = words.answer(alloc, folder, input, output, progress);
                report_serving(&served, errors, notes)
            }
            CommandLine::Migrate(words) => report(&words.answer(alloc, folder), "", output, notes),
            CommandLine::ListState(words) => report(
                &words.answer(alloc, folder),
                "",
                output,
                notes,
            ),
            CommandLine::Public(words) => report(&words.answer(alloc, folder), "", output, notes),
        }
    }
}

impl UsageFault {
    fn kind(self) -> ErrorKind
        ensures { result ≡ usage_kind self }
    {
        match self {
            UsageFault::Command => ErrorKind::MissingSubcommand,
            UsageFault::Number | UsageFault::Format | UsageFault::Count | UsageFault::Tag => {
                ErrorKind::ValueValidation
            }
            UsageFault::Anchor => ErrorKind::MissingRequiredArgument,
            UsageFault::Pairs => ErrorKind::WrongNumberOfValues,
        }
    }

    // The command whose usage is shown.
    fn command<'a>(self, alloc: Global) -> Result<Command<'a>, AllocError> {
        match self {
            UsageFault::Command => hbsign(alloc),
            UsageFault::Number => Retire::command(alloc)?.bin_name("hbsign retire"),
            UsageFault::Format => Make::command(alloc)?.bin_name("hbsign make"),
            UsageFault::Count | UsageFault::Tag | UsageFault::Anchor => {
                Audit::command(alloc)?.bin_name("hbsign audit")
            }
            UsageFault::Pairs => AuditGiven::command(alloc)?.bin_name("hbsign audit-given"),
        }
    }

    fn message(self) -> &'static str {
        match self {
            UsageFault::Command => "no command was given",
            UsageFault::Number => "UPTO is a decimal number up to 33554432",
            UsageFault::Format => "N of --format is 1 or 2",
            UsageFault::Count => "K of --count is a decimal number up to 2147483648",
            UsageFault::Tag => "T of --tag is 64 hex digits",
            UsageFault::Anchor => "--count and --tag are given together, or neither is",
            UsageFault::Pairs => "FILES are messages, each with its signature after it",
        }
    }
}

/// The program's version. Manual and packages take it from `--version`, and the specification of that line takes it
/// from here: no contract says which version it is.
pub const VERSION: &str = "0.2.0";

/// A reader of lines, which counts how often memory was refused.
pub trait LineReader {
    ghost refusals: { Self → ℕ };

    /// Reads the words of a line, without the program's name. A fault is one that `clap` gives for these words, a usage
    /// fault, or refused memory (46).
    ///
    /// No contract says that 46 comes only where `clap`, or the list of `audit-given`'s files, was refused memory. The
    /// specification of `clap` alone says which words options take, and where these may stand. `help` before another
    /// word may be refused, or answered with help.
    fn read<'a, S: AsStr>(&mut self, words: &'a [S]) -> Result<CommandLine<'a>, LineFault>
        ensures requests { (task : LineTask) → IsLineOf (map S.text words.now) task
            → MatchResult result (λ request. task_of request ≡ task) (λ fault. fault ≡ LineFault.OutOfMemory) }
        ensures shown { (task : LineTask) → IsShownLineOf (map S.text words.now) task
            → IsLineOf (map S.text words.now) task }
        ensures ok { IfOk result (λ _. line_faults (map S.text words.now) ≡ []) }
        ensures finds { IfOk result (λ request. FindsTask (map S.text words.now) (task_of request)) }
        ensures accepts { IfOk result (λ request.
            AreTexts (map S.text words.now) → IsLineOf (map S.text words.now) (task_of request)) }
        ensures err { IfErr result (λ fault. (fault ≡ LineFault.OutOfMemory)
            ⊎ HasLineFault (map S.text words.now) fault) }
        ensures text { IfErr result HasText }
        ensures counts { CountsRefusals result (refusals self.old) (refusals self.new) };
}

/// Reads lines with `clap`.
#[derive(Drop)]
pub struct ClapReader {
    alloc: Global,
    texts: Texts,
    refusals: Count,
}

impl ClapReader {
    ghost use Rattle.command.specs.LineFault.{refusals_of};

    /// A reader that was refused no memory yet.
    pub fn new(alloc: Global) -> Self
        ensures { refusals_of result ≡ 0 }
    {
        ClapReader {
            alloc,
            texts: Texts::new(alloc),
            refusals: Count::new(),
        }
    }
}

impl LineReader for ClapReader {
    ghost use Rattle.command.specs.LineFault.{refusals_of};

    ghost refusals = { refusals_of };

    fn read<'a, S: AsStr>(&mut self, words: &'a [S]) -> Result<CommandLine<'a>, LineFault> {
        // For the prover: this use bounds the number of words.
        let _ = words.len();
        match read(self.alloc, words) {
            Ok(request) => Ok(request),
            Err(error) if matches!(error.kind(), ErrorKind::OutOfMemory) => {
                self.refusals.add_one();
                Err(LineFault::OutOfMemory)
            }
            Err(error) => Err(LineFault::of(&mut self.texts, &error)),
        }
    }
}

fn read<'a, S: AsStr>(alloc: Global, words: &'a [S]) -> Result<CommandLine<'a>, Error>
    ensures ok { IfOk result (λ _. fault_of hbsign_app (map S.text words.now) ≡ []) }
    ensures found { IfOk result (λ request.
        task_found (subcommand_of hbsign_app (map S.text words.now)) ≡ Ok (task_of request)) }
    ensures err { IfErr result (HasKind (line_faults (map S.text words.now))) }
{
    let mut command = hbsign(alloc)?;
    let matches = command.try_get_matches_from_mut(words)?;
    match find_request(alloc, &matches)? {
        Ok(request) => Ok(request),
        Err(fault) => {
            let mut command = fault.command(alloc)?;
            Err(command.error(fault.kind(), fault.message())?)
        }
    }
}

// The program with its commands, for `clap`.
fn hbsign<'a>(alloc: Global) -> Result<Command<'a>, AllocError>
    ensures { IfOk result (λ command. app_of command ≡ hbsign_app) }
{
    bare_hbsign(alloc)?
        .subcommand(Make::command(alloc)?)?
        .subcommand(Sign::command(alloc)?)?
        .subcommand(Verify::command(alloc)?)?
        .subcommand(Retire::command(alloc)?)?
        .subcommand(Audit::command(alloc)?)?
        .subcommand(AuditGiven::command(alloc)?)?
        .subcommand(Serve::command(alloc)?)?
        .subcommand(Migrate::command(alloc)?)?
        .subcommand(ListState::command(alloc)?)?
        .subcommand(Public::command(alloc)?)
}

// Without the commands.
fn bare_hbsign<'a>(alloc: Global) -> Result<Command<'a>, AllocError>
    ensures { IfOk result (λ command. app_of command ≡ bare_app) }
{
    Ok(
        Command::new(alloc, "hbsign")
            .bin_name("hbsign")?
            .about("Hash-based signatures on files")
            .after_help(
                "Exit status:\n  \
                 0  Done; of verify: the signature is the key's for the message; of serve: the input ended\n  \
                 1  Refused: a line on standard output says why, of serve on standard error\n  \
                 2  The line is wrong, or its name or spec is none; no file was opened\n  \
                 3  A file or the machine failed, or the input of serve ended inside a message (27); standard error \
                 says what failed",
            )
            .version(VERSION)
            .no_binary_name(true)
            .subcommand_required(true)
            .arg_required_else_help(true),
    )
}

// The request of the subcommand that was used. Only `audit-given` takes memory, for its list of files.
fn find_request<'a>(
    alloc: Global,
    matches: &ArgMatches<'a>,
) -> Result<Result<CommandLine<'a>, UsageFault>, AllocError>
    ensures { IfOk result (λ found. task_or_fault found ≡ task_found (subcommand_rows_of matches.now)) }
{
    let Some((name, words)) = matches.subcommand() else {
        return Ok(Err(UsageFault::Command));
    };
    match name {
        AuditGiven::NAME => match AuditGiven::of(alloc, words)? {
            Ok(words) => Ok(Ok(CommandLine::AuditGiven(words))),
            Err(fault) => Ok(Err(fault)),
        },
        _ => Ok(find_fixed_request(name, words)),
    }
}

// The request of a subcommand with a fixed number of values.
fn find_fixed_request<'a>(name: &str, words: &ArgMatches<'a>) -> Result<CommandLine<'a>, UsageFault>
    ensures { task_or_fault result ≡ fixed_task_named name.now (first_value (found_of words.now)) }
{
    match name {
        Make::NAME => match Make::of(words) {
            Ok(words) => Ok(CommandLine::Make(words)),
            Err(fault) => Err(fault),
        },
        Sign::NAME => match Sign::of(words) {
            Some(words) => Ok(CommandLine::Sign(words)),
            None => Err(UsageFault::Command),
        },
        Verify::NAME => match Verify::of(words) {
            Some(files) => Ok(CommandLine::Verify(files)),
            None => Err(UsageFault::Command),
        },
        Retire::NAME => match Retire::of(words) {
            Ok(words) => Ok(CommandLine::Retire(words)),
            Err(fault) => Err(fault),
        },
        Audit::NAME => match Audit::of(words) {
            Ok(words) => Ok(CommandLine::Audit(words)),
            Err(fault) => Err(fault),
        },
        Serve::NAME => match Serve::of(words) {
            Some(words) => Ok(CommandLine::Serve(words)),
            None => Err(UsageFault::Command),
        },
        Migrate::NAME => match Migrate::of(words) {
            Some(words) => Ok(CommandLine::Migrate(words)),
            None => Err(UsageFault::Command),
        },
        ListState::NAME => match ListState::of(words) {
            Some(words) => Ok(CommandLine::ListState(words)),
            None => Err(UsageFault::Command),
        },
        Public::NAME => match Public::of(words) {
            Some(words) => Ok(CommandLine::Public(words)),
            None => Err(UsageFault::Command),
        },
        _ => Err(UsageFault::Command),
    }
}
