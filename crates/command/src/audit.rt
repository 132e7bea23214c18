//! `audit STATE [--count K] [--tag T]`.

ghost use Rattle.std.specs.Prelude.{◌≡◌, IfOk, MatchOption, codes};
ghost use Rattle.std.specs.Option.{option_map};
ghost use Rattle.clap.specs.declared.builder.command.Command.{Command as ClapCommand};
ghost use Rattle.clap.specs.Words.{AddsSubcommand, app_of, first_value, found_of, with_subcommand};
ghost use Rattle.command.specs.Audit.{AuditsIn, IsAudit, IsAudited, anchor_of_parts, anchor_of_texts};
ghost use Rattle.command.specs.Audit.{audit_app, tag_of_text};
ghost use Rattle.command.specs.Files.{files_seen};
ghost use Rattle.command.specs.Number.{decimal_number};

use crate::answer::{Answer, Done};
use crate::argument::{option, required};
use crate::files::SignerFolder;
use crate::key_file;
use crate::number::read_number;
use crate::refusal::Refusal;
use crate::usage_fault::UsageFault;
use clap::{ArgMatches, Command};
use key_audit::{Anchor, Report};
use std::alloc::{AllocError, Global};

/// The words of the line.
#[derive(Clone, Copy, Debug)]
pub struct Audit<'a> {
    /// The path of the state file.
    pub state: &'a str,
    /// The number of records that the file once had, and the last one's tag.
    pub anchor: Option<Anchor>,
}

// The greatest number of records in a file, 2^31.
const MOST_RECORDS: u32 = 2_147_483_648;

impl<'a> Audit<'a> {
    /// The command's name on the line.
    pub const NAME: &'static str = "audit";

    /// The command, for `clap`.
    pub fn command(alloc: Global) -> Result<Command<'a>, AllocError>
        ensures { IfOk result (λ command. (old new : ClapCommand) → AddsSubcommand old command new
            → app_of new ≡ with_subcommand (app_of old) audit_app.top) }
    {
        Command::new(alloc, Audit::NAME)
            .about(
                "Shows the public key, how many records there are and the free leaves of each level; with an anchor, \
                 whether the file was put back",
            )
            .after_help(
                "It prints 0 for a level below the top that has no tree yet, as right after make: the key ends when \
                 all levels are 0.\n\nExample:\n  $ hbsign audit firmware.key --count 3 --tag 5e3b..\n  \
                 public 0000000500000004..\n  records 4\n  tag 91c0..\n  level 0 left 29",
            )
            .arg(required(
                alloc,
                "STATE",
                "State file, which has the secret of the key and a record of each name that it signed",
            ))?
            .arg(option(
                alloc,
                "count",
                "K",
                "Decimal number of records that the file once had, up to 2147483648; --tag goes with it",
            ))?
            .arg(option(
                alloc,
                "tag",
                "T",
                "Tag of the last of these records, in 64 hex digits; --count goes with it",
            ))
    }

    /// The words that `clap` matched. `Count`: K isn't a decimal number up to 2^31. `Tag`: T isn't 64 hex digits.
    /// `Anchor`: one without the other.
    pub fn of(matches: &ArgMatches<'a>) -> Result<Self, UsageFault>
        ensures { IsAudit (first_value (found_of matches.now) (codes "STATE"))
            (first_value (found_of matches.now) (codes "count")) (first_value (found_of matches.now) (codes "tag"))
            result }
    {
        let Some(state) = matches.get_str("STATE") else {
            return Err(UsageFault::Command);
        };
        match anchor_of(matches.get_str("count"), matches.get_str("tag")) {
            Ok(anchor) => Ok(Audit { state, anchor }),
            Err(fault) => Err(fault),
        }
    }

    /// Audits the state file, opened for reading alone.
    #[inline(never)]
    pub fn answer<D: SignerFolder<'a>>(&self, alloc: Global, folder: &mut D) -> Answer
        ensures { AuditsIn D.Disk.Disk (files_seen (D.content folder.old) D.is_opened (D.is_closed folder.new))
            self.now.state.now self.now.anchor result (D.trace folder.old) (D.trace folder.new) }
    {
        let disk = folder.open_state_to_read(self.state)?;
        let mut alarm = folder.alarm(self.state);
        let (disk, audited) = key_file::audit(alloc, disk, self.anchor, &mut alarm);
        folder.close_state(disk);
        answer_to(audited)
    }
}

fn answer_to(audited: Result<Report, Refusal>) -> Answer
    ensures { IsAudited audited result }
{
    match audited {
        Ok(report) => {
            let public = report.public.write();
            Ok(Done::Audited(public, report))
        }
        Err(refusal) => Err(refusal),
    }
}

// Both texts, or neither.
fn anchor_of(count: Option<&str>, tag: Option<&str>) -> Result<Option<Anchor>, UsageFault>
    ensures { result
        ≡ anchor_of_texts (option_map (λ text. text.now) count.entry) (option_map (λ text. text.now) tag.entry) }
{
    match (count, tag) {
        (None, None) => Ok(None),
        (Some(count), Some(tag)) => read_anchor(count, tag),
        _ => Err(UsageFault::Anchor),
    }
}

fn read_anchor(count: &str, tag: &str) -> Result<Option<Anchor>, UsageFault>
    ensures { result ≡ anchor_of_texts (Some count.now) (Some tag.now) }
{
    let Some(count) = read_number(count.as_bytes(), MOST_RECORDS) else {
        return Err(UsageFault::Count);
    };
    match read_tag(tag) {
        Some(tag) => Ok(Some(Anchor { count, tag })),
        None => Err(UsageFault::Tag),
    }
}

// From 64 hex digits.
fn read_tag(text: &str) -> Option<[u8; 32]>
    ensures { result ≡ tag_of_text text.now }
{
    let mut tag = [0; 32];
    match hex::decode_to_slice(text.as_bytes(), &mut tag) {
        Ok(()) => Some(tag),
        Err(_) => None,
    }
}
