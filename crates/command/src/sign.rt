//! `sign STATE NAME MESSAGE OUT [--random FILE]`.

ghost use Rattle.std.specs.Prelude.{◌≡◌, IfOk, codes, vec_capacity};
ghost use Rattle.clap.specs.declared.builder.command.Command.{Command as ClapCommand};
ghost use Rattle.clap.specs.Words.{AddsSubcommand, app_of, first_value, found_of, with_subcommand};
ghost use Rattle.command.specs.Files.{files_seen};
ghost use Rattle.command.specs.Sign.{IsSign, SignsAndDelivers, SignsFile, SignsIn, SignsOpened};
ghost use Rattle.command.specs.inner.Sign.{ReadiesToSign};
ghost use Rattle.command.specs.Sign.{sign_app};

use crate::answer::{Answer, Done};
use crate::argument::{random_file, required};
use crate::files::{FileReader, SignerFolder};
use crate::key_file;
use crate::refusal::Refusal;
use crate::signing::deliver;
use crate::trace::Role;
use clap::{ArgMatches, Command};
use sign_core::TreeProgress;
use state_file::{Disk, FileStore, Store};
use std::alloc::{AllocError, Global};
use typecodes::Name;

/// The words of the line.
#[derive(Clone, Copy, Debug)]
pub struct Sign<'a> {
    /// The path of the state file.
    pub state: &'a str,
    /// The name under which the message is signed.
    pub name: &'a str,
    /// The path of the message's file.
    pub message: &'a str,
    /// The path of the signature's file.
    pub out: &'a str,
    /// The path of the file of random bytes.
    pub random: &'a str,
}

impl<'a> Sign<'a> {
    /// The command's name on the line.
    pub const NAME: &'static str = "sign";

    /// The command, for `clap`.
    pub fn command(alloc: Global) -> Result<Command<'a>, AllocError>
        ensures { IfOk result (λ command. (old new : ClapCommand) → AddsSubcommand old command new
            → app_of new ≡ with_subcommand (app_of old) sign_app.top) }
    {
        Command::new(alloc, Sign::NAME)
            .about("Signs a message under a name")
            .after_help(
                "Example:\n  $ hbsign sign firmware.key fw-1.0 firmware.bin firmware.sig\n  signed fw-1.0 1452 bytes",
            )
            .arg(required(
                alloc,
                "STATE",
                "State file, which has the secret of the key and a record of each name that it signed",
            ))?
            .arg(required(
                alloc,
                "NAME",
                "A label of your choice, as fw-1.0: 1 to 128 visible ASCII characters without blanks (64 in format 1). \
                         It belongs to one message for ever: the same message gives the same signature again, another \
                         one is refused (21)",
            ))?
            .arg(required(alloc, "MESSAGE", "File of the message"))?
            .arg(required(
                alloc,
                "OUT",
                "File that the signature is written to; it can't be standard output",
            ))?
            .arg(random_file(alloc))
    }

    /// The words that `clap` matched; None if one is missing.
    pub fn of(matches: &ArgMatches<'a>) -> Option<Self>
        ensures { IsSign (first_value (found_of matches.now) (codes "STATE"))
            (first_value (found_of matches.now) (codes "NAME")) (first_value (found_of matches.now) (codes "MESSAGE"))
            (first_value (found_of matches.now) (codes "OUT")) (first_value (found_of matches.now) (codes "random"))
            result }
    {
        Some(Sign {
            state: matches.get_str("STATE")?,
            name: matches.get_str("NAME")?,
            message: matches.get_str("MESSAGE")?,
            out: matches.get_str("OUT")?,
            random: matches.get_str("random")?,
        })
    }

    /// Signs the message with the key of the state file, and writes the signature. A bad name (34) is refused before
    /// any file is opened.
    #[inline(never)]
    pub fn answer<D: SignerFolder<'a>, P: TreeProgress>(
        &self,
        alloc: Global,
        folder: &mut D,
        progress: &P,
    ) -> Answer
        ensures { SignsIn D.Disk.Disk ⟦<FileStore<D::Disk> as Store>⟧ D.Random.Source
            (files_seen (D.content folder.old) D.is_opened (D.is_closed folder.new)) self.now.state.now
            self.now.name.now self.now.message.now self.now.out.now self.now.random.now result (D.trace folder.old)
            (D.trace folder.new) }
    {
        let Ok(name) = Name::new(self.name.as_bytes()) else {
            return Err(Refusal::BadName);
        };
        let disk = folder.open_state(self.state)?;
        let (disk, signed) = self.sign_on(alloc, folder, disk, &name, progress);
        folder.close_state(disk);
        match signed {
            Ok(size) => Ok(Done::Signed(name, size)),
            Err(refusal) => Err(refusal),
        }
    }

    // Opens the message and the random bytes, then signs on this disk.
    fn sign_on<D: SignerFolder<'a>, P: TreeProgress>(
        &self,
        alloc: Global,
        folder: &mut D,
        disk: D::Disk,
        name: &Name,
        progress: &P,
    ) -> (D::Disk, Result<usize, Refusal>)
        ensures { SignsOpened D.Disk.Disk ⟦<FileStore<D::Disk> as Store>⟧ D.Random.Source (D.content folder.old) disk
            result.0 name.now self.now.message.now self.now.out.now self.now.random.now result.1
            (D.trace folder.old) (D.trace folder.new) }
    {
        match self.open_files(folder) {
            Ok((message, random)) => {
                let mut message = message;
                let mut alarm = folder.alarm(self.state);
                sign_file(
                    alloc,
                    folder,
                    disk,
                    random,
                    name,
                    &mut message,
                    self.out,
                    &mut alarm,
                    progress,
                )
            }
            Err(refusal) => (disk, Err(refusal)),
        }
    }

    fn open_files<D: SignerFolder<'a>>(
        &self,
        folder: &mut D,
    ) -> Result<(D::File, D::Random), Refusal>
        ensures { ReadiesToSign D.File.role D.File.remaining D.Random.upcoming (D.content folder.old)
            self.now.message.now self.now.random.now result (D.trace folder.old) (D.trace folder.new) }
    {
        let message = folder.open(Role::Message, self.message)?;
        let random = folder.open_random(self.random)?;
        Ok((message, random))
    }
}

// Signs, and then writes the signature.
fn sign_file<'a, D: SignerFolder<'a>, P: TreeProgress>(
    alloc: Global,
    folder: &mut D,
    disk: D::Disk,
    random: D::Random,
    name: &Name,
    message: &mut D::File,
    out: &str,
    alarm: &mut D::Alarm,
    progress: &P,
) -> (D::Disk, Result<usize, Refusal>)
    requires { D.File.role message.old ≡ Role.Message }
    ensures { SignsAndDelivers D.Disk.Disk ⟦<FileStore<D::Disk> as Store>⟧ D.Random.Source disk result.0 random name.now
        (D.File.remaining message.old) out.now result.1 (D.trace folder.old) (D.trace folder.new) }
{
    let mut signature = Vec::new(alloc);
    let (disk, signed) = read_and_sign(
        alloc,
        folder,
        disk,
        random,
        name,
        message,
        &mut signature,
        alarm,
        progress,
    );
    match signed {
        Ok(()) => (disk, deliver(folder, out, signature.as_slice())),
        Err(refusal) => (disk, Err(refusal)),
    }
}

// On Ok `signature` has the signature.
fn read_and_sign<'a, D: SignerFolder<'a>, P: TreeProgress>(
    alloc: Global,
    folder: &mut D,
    disk: D::Disk,
    random: D::Random,
    name: &Name,
    message: &mut D::File,
    signature: &mut Vec<u8>,
    alarm: &mut D::Alarm,
    progress: &P,
) -> (D::Disk, Result<(), Refusal>)
    requires { D.File.role message.old ≡ Role.Message }
    ensures { SignsFile D.Disk.Disk ⟦<FileStore<D::Disk> as Store>⟧ D.Random.Source disk result.0 random name.now
        (D.File.remaining message.old) (vec_capacity signature.old) signature.new.items result.1
        (D.trace folder.old) (D.trace folder.new) }
{
    let mut reader = FileReader {
        folder,
        file: message,
    };
    let (disk, signed) = key_file::sign(
        alloc,
        disk,
        random,
        name,
        &mut reader,
        signature,
        alarm,
        progress,
    );
    let FileReader { folder, .. } = reader;
    // For the prover: this use tells what the reader noted.
    let _ = &*folder;
    (disk, signed)
}
