//! `public STATE PUBLIC`.

ghost use Rattle.std.specs.Prelude.{◌≡◌, IfOk, codes};
ghost use Rattle.clap.specs.declared.builder.command.Command.{Command as ClapCommand};
ghost use Rattle.clap.specs.Words.{AddsSubcommand, app_of, first_value, found_of, with_subcommand};
ghost use Rattle.command.specs.Files.{files_seen};
ghost use Rattle.command.specs.Public.{IsPublic, PublishesAudited, PublishesIn, public_answer, public_app};

use crate::answer::{Answer, Done};
use crate::argument::required;
use crate::files::{Outlet, SignerFolder};
use crate::key_file;
use crate::refusal::Refusal;
use crate::signing::write_public;
use arrayvec::ArrayVec;
use clap::{ArgMatches, Command};
use key_audit::Report;
use state_file::Disk;
use std::alloc::{AllocError, Global};

/// The words of the line.
#[derive(Clone, Copy, Debug)]
pub struct Public<'a> {
    /// The path of the state file.
    pub state: &'a str,
    /// The path of the public key's file.
    pub public: &'a str,
}

impl<'a> Public<'a> {
    /// The command's name on the line.
    pub const NAME: &'static str = "public";

    /// The command, for `clap`.
    pub fn command(alloc: Global) -> Result<Command<'a>, AllocError>
        ensures { IfOk result (λ command. (old new : ClapCommand) → AddsSubcommand old command new
            → app_of new ≡ with_subcommand (app_of old) public_app.top) }
    {
        Command::new(alloc, Public::NAME)
            .about("Writes the public key of a state file again")
            .after_help(
                "It reads STATE alone, without a lock. Where make ended before its PUBLIC was written, this writes \
                 it.\n\nExample:\n  $ hbsign public firmware.key firmware.pub\n  public 0000000600000004..",
            )
            .arg(required(alloc, "STATE", "State file, or a copy of it"))?
            .arg(required(alloc, "PUBLIC", "File that the public key is written to"))
    }

    /// The words that `clap` matched; None if one is missing.
    pub fn of(matches: &ArgMatches<'a>) -> Option<Self>
        ensures { IsPublic (first_value (found_of matches.now) (codes "STATE"))
            (first_value (found_of matches.now) (codes "PUBLIC")) result }
    {
        Some(Public {
            state: matches.get_str("STATE")?,
            public: matches.get_str("PUBLIC")?,
        })
    }

    /// Audits the state file, opened for reading alone and without a lock, and writes its public key.
    #[inline(never)]
    pub fn answer<D: SignerFolder<'a>>(&self, alloc: Global, folder: &mut D) -> Answer
        ensures { PublishesIn D.Disk.Disk (files_seen (D.content folder.old) D.is_opened (D.is_closed folder.new))
            self.now.state.now self.now.public.now result (D.trace folder.old) (D.trace folder.new) }
    {
        let disk = folder.open_state_unlocked(self.state)?;
        let mut alarm = folder.alarm(self.state);
        let (disk, audited) = key_file::audit(alloc, disk, None, &mut alarm);
        let published = publish_audited(folder, self.public, audited);
        folder.close_state(disk);
        answer_to(published)
    }
}

fn publish_audited<W: Outlet>(
    outlet: &mut W,
    path: &str,
    audited: Result<Report, Refusal>,
) -> Result<ArrayVec<u8, 68>, Refusal>
    ensures { PublishesAudited audited path.now (W.trace outlet.old) (W.trace outlet.new) result }
{
    match audited {
        Ok(report) => write_public(&report.public, outlet, path),
        Err(refusal) => Err(refusal),
    }
}

fn answer_to(published: Result<ArrayVec<u8, 68>, Refusal>) -> Answer
    ensures { result ≡ public_answer published }
{
    match published {
        Ok(public) => Ok(Done::Published(public)),
        Err(refusal) => Err(refusal),
    }
}
