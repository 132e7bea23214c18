//! `migrate OLD NEW`.

ghost use Rattle.std.specs.Prelude.{◌≡◌, IfOk, codes};
ghost use Rattle.clap.specs.declared.builder.command.Command.{Command as ClapCommand};
ghost use Rattle.clap.specs.Words.{AddsSubcommand, app_of, first_value, found_of, with_subcommand};
ghost use Rattle.command.specs.Files.{files_seen};
ghost use Rattle.command.specs.Migrate.{IsMigrate, MigratesFrom, MigratesIn, MigratesOpened, migrate_answer};
ghost use Rattle.command.specs.Migrate.{migrate_app};

use crate::answer::{Answer, Done};
use crate::argument::required;
use crate::files::{NewContent, SignerFolder};
use crate::key_file;
use crate::refusal::Refusal;
use clap::{ArgMatches, Command};
use state_file::{Disk, SlotList};
use std::alloc::{AllocError, Global};

/// The words of the line.
#[derive(Clone, Copy, Debug)]
pub struct Migrate<'a> {
    /// The path of the old state file, of version 1.
    pub old: &'a str,
    /// The path of the new one, of version 2, which is made if there is none.
    pub new: &'a str,
}

impl<'a> Migrate<'a> {
    /// The command's name on the line.
    pub const NAME: &'static str = "migrate";

    /// The command, for `clap`.
    pub fn command(alloc: Global) -> Result<Command<'a>, AllocError>
        ensures { IfOk result (λ command. (old new : ClapCommand) → AddsSubcommand old command new
            → app_of new ≡ with_subcommand (app_of old) migrate_app.top) }
    {
        Command::new(alloc, Migrate::NAME)
            .about("Moves a key to a new state file of format 2; the old file signs no more")
            .after_help(
                "Example:\n  $ hbsign migrate firmware.key firmware.key2\n  migrated 3 records",
            )
            .arg(required(
                alloc,
                "OLD",
                "State file of format 1, which has the secret of the key and a record of each name that it signed",
            ))?
            .arg(required(
                alloc,
                "NEW",
                "State file that takes its place, which is made where there is none. After a stop, a failure or 50 \
                         never take another NEW: run the same line again, since one OLD goes to one NEW",
            ))
    }

    /// The words that `clap` matched; None if one is missing.
    pub fn of(matches: &ArgMatches<'a>) -> Option<Self>
        ensures { IsMigrate (first_value (found_of matches.now) (codes "OLD"))
            (first_value (found_of matches.now) (codes "NEW")) result }
    {
        Some(Migrate {
            old: matches.get_str("OLD")?,
            new: matches.get_str("NEW")?,
        })
    }

    /// Opens the old state file, then the new one, which is made if there is none, and migrates the records.
    #[inline(never)]
    pub fn answer<D: SignerFolder<'a>>(&self, alloc: Global, folder: &mut D) -> Answer
        ensures { MigratesIn D.Disk.Disk (files_seen (D.content folder.old) D.is_opened (D.is_closed folder.new))
            self.now.old.now self.now.new.now result (D.trace folder.old) (D.trace folder.new) }
    {
        let old = folder.open_state(self.old)?;
        self.migrate_from(alloc, folder, old)
    }

    // Closes both disks.
    fn migrate_from<D: SignerFolder<'a>>(
        &self,
        alloc: Global,
        folder: &mut D,
        old: D::Disk,
    ) -> Answer
        ensures { MigratesFrom D.Disk.Disk
            (files_seen (D.content folder.old) D.is_opened (D.is_closed folder.new)) old self.now.new.now result
            (D.trace folder.old) (D.trace folder.new) }
    {
        match folder.open_or_make_state(self.new, NewContent::Records) {
            Ok(new) => self.migrate_opened(alloc, folder, old, new),
            Err(refusal) => {
                folder.close_state(old);
                Err(refusal)
            }
        }
    }

    // Audits the old records first, and warns before anything is written if they were moved before.
    fn migrate_opened<D: SignerFolder<'a>>(
        &self,
        alloc: Global,
        folder: &mut D,
        old: D::Disk,
        new: D::Disk,
    ) -> Answer
        ensures migrates { MigratesOpened D.Disk.Disk
            (files_seen (D.content folder.old) D.is_opened (D.is_closed folder.new)) old new result }
        ensures trace { D.trace folder.new ≡ D.trace folder.old }
    {
        let mut alarm = folder.alarm(self.old);
        let (old, audited) = key_file::audit(alloc, old, None, &mut alarm);
        match audited {
            Ok(report) => {
                if report.moved.is_some() {
                    folder.warn_moved(self.old, self.new);
                }
                // (the audit warned of bytes behind the last record)
                let mut silent = SlotList::new();
                let (old, new, migrated) = key_file::migrate(alloc, old, new, &mut silent);
                folder.close_state(new);
                folder.close_state(old);
                answer_to(migrated)
            }
            Err(refusal) => {
                folder.close_state(new);
                folder.close_state(old);
                Err(refusal)
            }
        }
    }
}

fn answer_to(migrated: Result<u32, Refusal>) -> Answer
    ensures { result ≡ migrate_answer migrated }
{
    match migrated {
        Ok(count) => Ok(Done::Migrated(count)),
        Err(refusal) => Err(refusal),
    }
}
