//! `retire STATE UPTO`.

ghost use Rattle.std.specs.Prelude.{◌≡◌, IfOk, codes};
ghost use Rattle.clap.specs.declared.builder.command.Command.{Command as ClapCommand};
ghost use Rattle.clap.specs.Words.{AddsSubcommand, app_of, first_value, found_of, with_subcommand};
ghost use Rattle.command.specs.Files.{files_seen};
ghost use Rattle.command.specs.Retire.{IsRetire, RetiresIn, retire_app};

use crate::answer::{Answer, Done};
use crate::argument::required;
use crate::files::SignerFolder;
use crate::key_file;
use crate::number::read_number;
use crate::usage_fault::UsageFault;
use clap::{ArgMatches, Command};
use state_file::{Disk, FileStore, Store};
use std::alloc::{AllocError, Global};

/// The words of the line.
#[derive(Clone, Copy, Debug)]
pub struct Retire<'a> {
    /// The path of the state file.
    pub state: &'a str,
    /// The leaves below this one are retired.
    pub upto: u32,
}

// The leaves of a tree of height 25, 2^25.
const MOST_LEAVES: u32 = 33_554_432;

impl<'a> Retire<'a> {
    /// The command's name on the line.
    pub const NAME: &'static str = "retire";

    /// The command, for `clap`.
    pub fn command(alloc: Global) -> Result<Command<'a>, AllocError>
        ensures { IfOk result (λ command. (old new : ClapCommand) → AddsSubcommand old command new
            → app_of new ≡ with_subcommand (app_of old) retire_app.top) }
    {
        Command::new(alloc, Retire::NAME)
            .about("Skips signatures: the leaves below UPTO will never sign")
            .after_help(
                "Only for a key of which a copy may have signed: it can't be undone.\nUPTO counts in the current \
                 bottom tree. A key of several levels has one from its first signature on; before that this is \
                 refused (32).\n\n\
                 Example:\n  $ hbsign retire firmware.key 8\n  retired upto 8",
            )
            .arg(required(
                alloc,
                "STATE",
                "State file, which has the secret of the key and a record of each name that it signed",
            ))?
            .arg(required(
                alloc,
                "UPTO",
                "Decimal number of the first leaf that stays, up to 33554432; leaves that are used already stay used",
            ))
    }

    /// The words that `clap` matched. `Number`: UPTO isn't a decimal number up to 2^25.
    pub fn of(matches: &ArgMatches<'a>) -> Result<Self, UsageFault>
        ensures { IsRetire (first_value (found_of matches.now) (codes "STATE"))
            (first_value (found_of matches.now) (codes "UPTO")) result }
    {
        let Some(state) = matches.get_str("STATE") else {
            return Err(UsageFault::Command);
        };
        let Some(upto) = matches.get_str("UPTO") else {
            return Err(UsageFault::Command);
        };
        match read_number(upto.as_bytes(), MOST_LEAVES) {
            Some(upto) => Ok(Retire { state, upto }),
            None => Err(UsageFault::Number),
        }
    }

    /// Opens the state file, and retires the leaves.
    #[inline(never)]
    pub fn answer<D: SignerFolder<'a>>(&self, alloc: Global, folder: &mut D) -> Answer
        ensures { RetiresIn D.Disk.Disk ⟦<FileStore<D::Disk> as Store>⟧
            (files_seen (D.content folder.old) D.is_opened (D.is_closed folder.new)) self.now.state.now self.now.upto
            result (D.trace folder.old) (D.trace folder.new) }
    {
        let disk = folder.open_state(self.state)?;
        let mut alarm = folder.alarm(self.state);
        let (disk, retired) = key_file::retire(alloc, disk, self.upto, &mut alarm);
        folder.close_state(disk);
        match retired {
            Ok(()) => Ok(Done::Retired(self.upto)),
            Err(refusal) => Err(refusal),
        }
    }
}
