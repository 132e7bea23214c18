//! `serve STATE [--random FILE]`.

ghost use Rattle.std.specs.Prelude.{◌≡◌, IfOk, codes};
ghost use Rattle.clap.specs.declared.builder.command.Command.{Command as ClapCommand};
ghost use Rattle.clap.specs.Words.{AddsSubcommand, app_of, first_value, found_of, with_subcommand};
ghost use Rattle.command.specs.Files.{files_seen};
ghost use Rattle.command.specs.Serve.{IsServe, ServesIn, ServesOpened, serve_app};

use crate::argument::{random_file, required};
use crate::files::SignerFolder;
use crate::key_file;
use crate::refusal::Refusal;
use clap::{ArgMatches, Command};
use sign_core::TreeProgress;
use state_file::{Disk, FileStore, Store};
use std::alloc::{AllocError, Global};
use std::io::Write;
use typecodes::Message;

/// The words of the line.
#[derive(Clone, Copy, Debug)]
pub struct Serve<'a> {
    /// The path of the state file.
    pub state: &'a str,
    /// The path of the file of random bytes.
    pub random: &'a str,
}

impl<'a> Serve<'a> {
    /// The command's name on the line.
    pub const NAME: &'static str = "serve";

    /// The command, for `clap`.
    pub fn command(alloc: Global) -> Result<Command<'a>, AllocError>
        ensures { IfOk result (λ command. (old new : ClapCommand) → AddsSubcommand old command new
            → app_of new ≡ with_subcommand (app_of old) serve_app.top) }
    {
        Command::new(alloc, Serve::NAME)
            .about(
                "Signs messages that come as requests on standard input, and replies on standard output",
            )
            .after_help(
                "Requests and replies are binary frames, for programs and not for a terminal: docs/FORMATS.md, \
                 \"Frames\".\nThe status is 0 where the input ends between two requests, also after a refusal, whose \
                 number is its reply's.\nAfter a reply of 25 or 26 nobody may open STATE before its file system is \
                 mounted anew.\n\nExample:\n  $ hbsign serve firmware.key <requests >replies",
            )
            .arg(required(
                alloc,
                "STATE",
                "State file, which has the secret of the key and a record of each name that it signed",
            ))?
            .arg(random_file(alloc))
    }

    /// The words that `clap` matched; None if one is missing.
    pub fn of(matches: &ArgMatches<'a>) -> Option<Self>
        ensures { IsServe (first_value (found_of matches.now) (codes "STATE"))
            (first_value (found_of matches.now) (codes "random")) result }
    {
        Some(Serve {
            state: matches.get_str("STATE")?,
            random: matches.get_str("random")?,
        })
    }

    /// Opens the state file, and answers each request of the input by a reply on the output, up to the input's end.
    /// Gives the number of replies, or why it ended before.
    #[inline(never)]
    pub fn answer<D: SignerFolder<'a>, I: Message, W: Write, P: TreeProgress>(
        &self,
        alloc: Global,
        folder: &mut D,
        input: &mut I,
        output: &mut W,
        progress: &P,
    ) -> Result<u64, Refusal>
        ensures { ServesIn D.Disk.Disk ⟦<FileStore<D::Disk> as Store>⟧ D.Random.Source I.Message W.contents
            (files_seen (D.content folder.old) D.is_opened (D.is_closed folder.new)) self.now.state.now
            self.now.random.now (input.old, output.old) (input.new, output.new) result (D.trace folder.old)
            (D.trace folder.new) }
    {
        let disk = folder.open_state(self.state)?;
        let (disk, served) = self.serve_on(alloc, folder, disk, input, output, progress);
        folder.close_state(disk);
        served
    }

    // Opens the random bytes, then serves on this disk.
    fn serve_on<D: SignerFolder<'a>, I: Message, W: Write, P: TreeProgress>(
        &self,
        alloc: Global,
        folder: &mut D,
        disk: D::Disk,
        input: &mut I,
        output: &mut W,
        progress: &P,
    ) -> (D::Disk, Result<u64, Refusal>)
        ensures { ServesOpened D.Disk.Disk ⟦<FileStore<D::Disk> as Store>⟧ D.Random.Source I.Message W.contents
            (D.content folder.old) disk result.0 self.now.random.now (input.old, output.old) (input.new, output.new)
            result.1 (D.trace folder.old) (D.trace folder.new) }
    {
        match folder.open_random(self.random) {
            Ok(random) => {
                let mut alarm = folder.alarm(self.state);
                key_file::serve(alloc, disk, random, input, output, &mut alarm, progress)
            }
            Err(refusal) => (disk, Err(refusal)),
        }
    }
}
