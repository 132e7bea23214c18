//! `make STATE PUBLIC SPEC [--format N] [--random FILE]`.

ghost use Rattle.std.specs.Prelude.{◌≡◌, IfOk, codes};
ghost use Rattle.clap.specs.declared.builder.command.Command.{Command as ClapCommand};
ghost use Rattle.clap.specs.Words.{AddsSubcommand, app_of, first_value, found_of, with_subcommand};
ghost use Rattle.command.specs.Files.{files_seen};
ghost use Rattle.command.specs.Make.{IsMake, MakesAndPublishes, MakesIn, MakesOpened, format_of, make_app};

use crate::answer::{Answer, Done};
use crate::argument::{option_or, random_file, required};
use crate::files::{NewContent, SignerFolder};
use crate::key_file;
use crate::number::read_number;
use crate::refusal::Refusal;
use crate::signing::publish;
use crate::usage_fault::UsageFault;
use arrayvec::ArrayVec;
use clap::{ArgMatches, Command};
use sign_core::TreeProgress;
use state_file::{Disk, FileStore, Store, Version};
use std::alloc::{AllocError, Global};
use typecodes::Spec;

/// The words of the line.
#[derive(Clone, Copy, Debug)]
pub struct Make<'a> {
    /// The path of the state file, which is made if there is none.
    pub state: &'a str,
    /// The path of the public key's file.
    pub public: &'a str,
    /// The kind of key, as `lms:H5/W8`.
    pub spec: &'a str,
    /// The version of the state file.
    pub version: Version,
    /// The path of the file of random bytes.
    pub random: &'a str,
}

const DEFAULT_FORMAT: &str = "2";

impl<'a> Make<'a> {
    /// The command's name on the line.
    pub const NAME: &'static str = "make";

    /// The command, for `clap`.
    pub fn command(alloc: Global) -> Result<Command<'a>, AllocError>
        ensures { IfOk result (λ command. (old new : ClapCommand) → AddsSubcommand old command new
            → app_of new ≡ with_subcommand (app_of old) make_app.top) }
    {
        Command::new(alloc, Make::NAME)
            .about("Makes a key")
            .after_help(
                "Example:\n  $ hbsign make firmware.key firmware.pub lms:H10/W8\n  public 0000000600000004..",
            )
            .arg(required(
                alloc,
                "STATE",
                "State file, which is made where there is none; it has the secret of the key",
            ))?
            .arg(required(alloc, "PUBLIC", "File that the public key is written to"))?
            .arg(required(
                alloc,
                "SPEC",
                "lms:H10/W8 has 2^10 signatures of 1452 bytes. H is 5, 10, 15, 20 or 25; W is 1, 2, 4 or 8\n\
                         hss:H10/W8,H10/W8 has 2^20 of 2964 bytes: 1 to 8 levels, the top one first\n\
                         xmss:10 has 2^10 of 2500 bytes; or 16 or 20\n\
                         H10/W8 takes about a second, here and at each sign; each 5 of height take 32 times that",
            ))?
            .arg(option_or(
                alloc,
                "format",
                "N",
                "Format of the state file: 2, whose names have up to 128 bytes; or 1, whose names have up to 64, for \
                         programs that don't read format 2",
                DEFAULT_FORMAT,
            ))?
            .arg(random_file(alloc))
    }

    /// The words that `clap` matched. `Format`: N isn't 1 or 2.
    pub fn of(matches: &ArgMatches<'a>) -> Result<Self, UsageFault>
        ensures { IsMake (first_value (found_of matches.now) (codes "STATE"))
            (first_value (found_of matches.now) (codes "PUBLIC")) (first_value (found_of matches.now) (codes "SPEC"))
            (first_value (found_of matches.now) (codes "format")) (first_value (found_of matches.now) (codes "random"))
            result }
    {
        let state = matches.get_str("STATE").ok_or(UsageFault::Command)?;
        let public = matches.get_str("PUBLIC").ok_or(UsageFault::Command)?;
        let spec = matches.get_str("SPEC").ok_or(UsageFault::Command)?;
        let format = matches.get_str("format").ok_or(UsageFault::Command)?;
        let random = matches.get_str("random").ok_or(UsageFault::Command)?;
        match read_format(format) {
            Some(version) => Ok(Make {
                state,
                public,
                spec,
                version,
                random,
            }),
            None => Err(UsageFault::Format),
        }
    }

    /// Makes a key in the state file, which is made if there is none, and writes its public key. A bad spec (51) is
    /// refused before any file is opened.
    #[inline(never)]
    pub fn answer<D: SignerFolder<'a>, P: TreeProgress>(
        &self,
        alloc: Global,
        folder: &mut D,
        progress: &P,
    ) -> Answer
        ensures { MakesIn D.Disk.Disk ⟦<FileStore<D::Disk> as Store>⟧ D.Random.Source
            (files_seen (D.content folder.old) D.is_opened (D.is_closed folder.new)) self.now.state.now
            self.now.public.now self.now.spec.now self.now.version self.now.random.now result (D.trace folder.old)
            (D.trace folder.new) }
    {
        let Ok(spec) = Spec::parse(self.spec) else {
            return Err(Refusal::BadSpec);
        };
        let disk = folder.open_or_make_state(self.state, NewContent::Key)?;
        let (disk, made) = self.make_on(alloc, folder, disk, spec, progress);
        folder.close_state(disk);
        match made {
            Ok(public) => Ok(Done::Published(public)),
            Err(refusal) => Err(refusal),
        }
    }

    // Opens the random bytes, and makes a key on this disk.
    fn make_on<D: SignerFolder<'a>, P: TreeProgress>(
        &self,
        alloc: Global,
        folder: &mut D,
        disk: D::Disk,
        spec: Spec,
        progress: &P,
    ) -> (D::Disk, Result<ArrayVec<u8, 68>, Refusal>)
        ensures { MakesOpened D.Disk.Disk ⟦<FileStore<D::Disk> as Store>⟧ D.Random.Source (D.content folder.old) disk
            result.0 self.now.version spec self.now.public.now self.now.random.now result.1 (D.trace folder.old)
            (D.trace folder.new) }
    {
        match folder.open_random(self.random) {
            Ok(random) => self.make_key(alloc, folder, disk, spec, random, progress),
            Err(refusal) => (disk, Err(refusal)),
        }
    }

    // Makes a key, and then writes its public key.
    fn make_key<D: SignerFolder<'a>, P: TreeProgress>(
        &self,
        alloc: Global,
        folder: &mut D,
        disk: D::Disk,
        spec: Spec,
        random: D::Random,
        progress: &P,
    ) -> (D::Disk, Result<ArrayVec<u8, 68>, Refusal>)
        ensures { MakesAndPublishes D.Disk.Disk ⟦<FileStore<D::Disk> as Store>⟧ D.Random.Source disk result.0
            self.now.version spec random self.now.public.now result.1 (D.trace folder.old) (D.trace folder.new) }
    {
        match key_file::make(alloc, disk, self.version, spec, random, progress) {
            Ok(signer) => {
                let published = publish(&signer, folder, self.public);
                (signer.into_store().into_disk(), published)
            }
            Err(refused) => (refused.given, Err(refused.fault)),
        }
    }
}

fn read_format(text: &str) -> Option<Version>
    ensures { result ≡ format_of text.now }
{
    match read_number(text.as_bytes(), 2) {
        Some(1) => Some(Version::One),
        Some(2) => Some(Version::Two),
        _ => None,
    }
}
