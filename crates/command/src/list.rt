//! `list FILE [PUBLIC]`.

ghost use Rattle.std.specs.Prelude.{◌≡◌, IfOk, codes};
ghost use Rattle.std.specs.Option.{option_map};
ghost use Rattle.clap.specs.declared.builder.command.Command.{Command as ClapCommand};
ghost use Rattle.clap.specs.Words.{AddsSubcommand, app_of, first_value, found_of, with_subcommand};
ghost use Rattle.command.specs.Files.{files_seen};
ghost use Rattle.command.specs.ListState.{AnswersListed, IsListState, ListsFile, ListsIn, lacks_key, list_answer};
ghost use Rattle.command.specs.ListState.{list_app};

use crate::answer::{Answer, Done};
use crate::argument::{optional, required};
use crate::compared::compare_files;
use crate::described::describe_file;
use crate::files::{LineFiles, SignerFolder};
use crate::key_file;
use crate::refusal::Refusal;
use clap::{ArgMatches, Command};
use key_audit::Listing;
use state_file::{Disk, OpenFault};
use std::alloc::{AllocError, Global};

/// The words of the line.
#[derive(Clone, Copy, Debug)]
pub struct ListState<'a> {
    /// The path of the file.
    pub file: &'a str,
    /// The path of a public key's file, if the line has one.
    pub public: Option<&'a str>,
}

impl<'a> ListState<'a> {
    /// The command's name on the line.
    pub const NAME: &'static str = "list";

    /// The command, for `clap`.
    pub fn command(alloc: Global) -> Result<Command<'a>, AllocError>
        ensures { IfOk result (λ command. (old new : ClapCommand) → AddsSubcommand old command new
            → app_of new ≡ with_subcommand (app_of old) list_app.top) }
    {
        Command::new(alloc, ListState::NAME)
            .about(
                "Shows what a file is: a state file with its leaves and records, a public key, or a signature",
            )
            .after_help(
                "It reads FILE, and PUBLIC where it is given, without a lock. So it runs beside serve and on a copy \
                 that is read-only. Nothing that it prints is secret. It verifies no signature.\n\nExample:\n  \
                 $ hbsign list firmware.key\n  spec lms:H10/W8\n  \
                 format 2\n  level 0 left 1023\n  names 1\n  0 key\n  1 name fw-1.0.2 leaf 0 digest 91c0..\n  \
                 signatures 1023",
            )
            .arg(required(
                alloc,
                "FILE",
                "State file, or a copy of it; or the file of a public key or of a signature",
            ))?
            .arg(optional(
                alloc,
                "PUBLIC",
                "File of a public key: whether the signature could be this key's, by its types",
            ))
    }

    /// The words that `clap` matched; None if FILE is missing.
    pub fn of(matches: &ArgMatches<'a>) -> Option<Self>
        ensures { IsListState (first_value (found_of matches.now) (codes "FILE"))
            (first_value (found_of matches.now) (codes "PUBLIC")) result }
    {
        Some(ListState {
            file: matches.get_str("FILE")?,
            public: matches.get_str("PUBLIC"),
        })
    }

    /// Lists the file; or, with a public key's, says whether it has a signature that could be this key's.
    #[inline(never)]
    pub fn answer<D: SignerFolder<'a>>(&self, alloc: Global, folder: &mut D) -> Answer
        ensures { ListsIn D.Disk.Disk (files_seen (D.content folder.old) D.is_opened (D.is_closed folder.new))
            self.now.file.now (option_map (λ path. path.now) self.now.public) result (D.trace folder.old)
            (D.trace folder.new) }
    {
        match self.public {
            Some(public) => compare_files(alloc, folder, self.file, public),
            None => list_file(alloc, folder, self.file),
        }
    }
}

// Lists a state file, opened for reading alone and without a lock; or says which public key or signature the file is.
fn list_file<'a, D: SignerFolder<'a>>(alloc: Global, folder: &mut D, path: &'a str) -> Answer
    ensures { ListsFile D.Disk.Disk (files_seen (D.content folder.old) D.is_opened (D.is_closed folder.new)) path.now
        result (D.trace folder.old) (D.trace folder.new) }
{
    let disk = folder.open_state_unlocked(path)?;
    let mut alarm = folder.alarm(path);
    let (disk, listed) = key_file::list(alloc, disk, &mut alarm);
    let answer = answer_to(alloc, folder, path, listed);
    folder.close_state(disk);
    answer
}

// A file without a key, as a state file, may be a public key or a signature: these are shorter, or have no open gate.
fn answer_to<'a, D: LineFiles<'a>>(
    alloc: Global,
    folder: &mut D,
    path: &'a str,
    listed: Result<Listing, Refusal>,
) -> Answer
    ensures { AnswersListed (D.content folder.old) path.now listed result (D.trace folder.old) (D.trace folder.new) }
{
    if lacks_key(&listed) {
        return describe_file(alloc, folder, path);
    }
    list_answer(listed)
}

fn lacks_key(listed: &Result<Listing, Refusal>) -> bool
    ensures { result ≡ lacks_key listed.now }
{
    match listed {
        Err(Refusal::Opening(OpenFault::NoKey)) => true,
        _ => false,
    }
}

fn list_answer(listed: Result<Listing, Refusal>) -> Answer
    ensures { result ≡ list_answer listed }
{
    match listed {
        Ok(listing) => Ok(Done::Listed(listing)),
        Err(refusal) => Err(refusal),
    }
}
