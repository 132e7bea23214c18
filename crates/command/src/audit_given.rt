//! `audit-given PUBLIC FILES..`.

ghost use Rattle.std.specs.Prelude.{◌≡◌, ◌⊎◌, List, ℕ, IfErr, IfOk, MatchResult, codes, map, vec_capacity};
ghost use Rattle.std.specs.Option.{option_map};
ghost use Rattle.clap.specs.declared.builder.command.Command.{Command as ClapCommand};
ghost use Rattle.clap.specs.Matches.{matched_of, raw_values};
ghost use Rattle.clap.specs.Words.{AddsSubcommand, app_of, first_value, found_of, with_subcommand};
ghost use Rattle.command.specs.AuditGiven.{AnswersGiven, ChecksIn, FailsPair, FailsPairs, IsAuditGiven, JudgesPairs};
ghost use Rattle.command.specs.AuditGiven.{ReadsPair, ReadsPairs, audit_given_app, pair_of, path_pairs, pairs_of};
ghost use Rattle.command.specs.Files.{KeepsContents};

use crate::answer::{Answer, Done};
use crate::argument::{required, several};
use crate::files;
use crate::files::LineFiles;
use crate::refusal::Refusal;
use crate::trace::Role;
use crate::usage_fault::UsageFault;
use clap::{ArgMatches, Command};
use key_audit::{Given, check_given};
use sign_core::{AnyPublic, KeyFault};
use std::alloc::{AllocError, Global};

/// A message and its signature, by their paths.
#[derive(Clone, Copy, Debug)]
pub struct GivenFiles<'a> {
    /// The message.
    pub message: &'a str,
    /// The signature.
    pub signature: &'a str,
}

/// The files of the line, by their paths.
#[derive(Debug, Drop)]
pub struct AuditGiven<'a> {
    /// The public key.
    pub public: &'a str,
    /// The messages and their signatures.
    pub files: Vec<GivenFiles<'a>>,
}

impl<'a> AuditGiven<'a> {
    /// The command's name on the line.
    pub const NAME: &'static str = "audit-given";

    /// The command, for `clap`.
    pub fn command(alloc: Global) -> Result<Command<'a>, AllocError>
        ensures { IfOk result (λ command. (old new : ClapCommand) → AddsSubcommand old command new
            → app_of new ≡ with_subcommand (app_of old) audit_given_app.top) }
    {
        Command::new(alloc, AuditGiven::NAME)
            .about(
                "Checks signatures that you have: all are valid, and no two by one leaf for different messages, as \
                 by two copies of a key",
            )
            .after_help(
                "Example:\n  $ hbsign audit-given firmware.pub old.bin old.sig new.bin new.sig\n  \
                 given 2 signatures, no leaf twice",
            )
            .arg(required(alloc, "PUBLIC", "File of the public key"))?
            .arg(several(
                alloc,
                "FILES",
                "Files of messages, each with that of its signature after it",
            ))
    }

    /// The words that `clap` matched. `Pairs`: a message has no signature. The list of paths takes memory.
    pub fn of(
        alloc: Global,
        matches: &ArgMatches<'a>,
    ) -> Result<Result<Self, UsageFault>, AllocError>
        ensures { IfOk result (IsAuditGiven (first_value (found_of matches.now) (codes "PUBLIC"))
            (option_map raw_values (matched_of (found_of matches.now) (codes "FILES")))) }
    {
        let Some(public) = matches.get_str("PUBLIC") else {
            return Ok(Err(UsageFault::Command));
        };
        let Some(paths) = matches.get_strs("FILES") else {
            return Ok(Err(UsageFault::Command));
        };
        match pair_paths(alloc, paths)? {
            Some(files) => Ok(Ok(AuditGiven { public, files })),
            None => Ok(Err(UsageFault::Pairs)),
        }
    }

    /// Reads the files, and checks the signatures.
    ///
    /// 46 comes only after a byte was read; that memory was refused then is tested. Only the first 74,989 bytes of a
    /// signature's file decide (`AnswersWhole`).
    #[inline(never)]
    pub fn answer<D: LineFiles<'a>>(&self, alloc: Global, folder: &mut D) -> Answer
        ensures { ChecksIn (D.content folder.old) self.now.public.now (pairs_of self.now) result (D.trace folder.old)
            (D.trace folder.new) }
    {
        let key = files::read_key_file(folder, Role::Public, self.public)?;
        judge_pairs(alloc, folder, key, self.files.as_slice())
    }
}

// None if the number of paths is odd.
fn pair_paths<'a>(
    alloc: Global,
    paths: &[&'a str],
) -> Result<Option<Vec<GivenFiles<'a>>>, AllocError>
    ensures { IfOk result (λ files.
        option_map (λ pairs. map pair_of pairs.items) files ≡ path_pairs (map (λ path. path.now) paths.now)) }
{
    if paths.len() % 2 != 0 {
        return Ok(None);
    }
    let mut files = Vec::new(alloc);
    for i in 0..paths.len() / 2 {
        files.push(GivenFiles {
            message: paths[2 * i],
            signature: paths[2 * i + 1],
        })?;
    }
    Ok(Some(files))
}

fn judge_pairs<'a, D: LineFiles<'a>>(
    alloc: Global,
    folder: &mut D,
    key: Result<AnyPublic, KeyFault>,
    files: &[GivenFiles<'a>],
) -> Answer
    ensures { JudgesPairs (D.content folder.old) key (map pair_of files.now) result (D.trace folder.old)
        (D.trace folder.new) }
{
    let given = read_pairs(alloc, folder, files)?;
    judge_given(alloc, key, given.as_slice())
}

fn judge_given(alloc: Global, key: Result<AnyPublic, KeyFault>, given: &[Given]) -> Answer
    ensures { AnswersGiven key given.now result }
{
    let key = key.map_err(Refusal::Key)?;
    match check_given(alloc, &key, given) {
        Ok(()) => Ok(Done::Checked(given.len())),
        Err(fault) => Err(Refusal::Given(fault)),
    }
}

fn read_pairs<'a, D: LineFiles<'a>>(
    alloc: Global,
    folder: &mut D,
    files: &[GivenFiles<'a>],
) -> Result<Vec<Given>, Refusal>
    ensures { MatchResult result
        (λ given. ReadsPairs (D.content folder.old) (map pair_of files.now) given.items (D.trace folder.old)
        (D.trace folder.new))
        (λ refusal. FailsPairs (D.content folder.old) (map pair_of files.now) refusal (D.trace folder.old)
        (D.trace folder.new)) }
{
    let mut given = Vec::new(alloc);
    for pair in files {
        let read = read_pair(alloc, folder, pair)?;
        if given.push(read).is_err() {
            return Err(Refusal::OutOfMemory);
        }
    }
    Ok(given)
}

fn read_pair<'a, D: LineFiles<'a>>(
    alloc: Global,
    folder: &mut D,
    files: &GivenFiles<'a>,
) -> Result<Given, Refusal>
    ensures content { KeepsContents (D.content folder.old) (D.content folder.new) }
    ensures reads { MatchResult result
        (λ given. ReadsPair (D.content folder.old) (pair_of files.now) given (D.trace folder.old) (D.trace folder.new))
        (λ refusal. FailsPair (D.content folder.old) (pair_of files.now) refusal (D.trace folder.old)
        (D.trace folder.new)) }
{
    let message = files::read_file(alloc, folder, Role::Message, files.message)?;
    let signature = files::read_signature_file(alloc, folder, Role::Signature, files.signature)?;
    Ok(Given { message, signature })
}
