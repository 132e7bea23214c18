//! `verify PUBLIC MESSAGE SIGNATURE`.

ghost use Rattle.std.specs.Prelude.{◌≡◌, ◌↔◌, ℕ, List, Some, take, codes, IfErr, IfOk, IfSome, IsSome, IsErrAnd};
ghost use Rattle.clap.specs.declared.builder.command.Command.{Command as ClapCommand};
ghost use Rattle.clap.specs.Words.{AddsSubcommand, app_of, first_value, found_of, with_subcommand};
ghost use Rattle.command.specs.Verify.{AnswerLeaves, AnswersOf, Judgement, OpensInTurn};
ghost use Rattle.command.specs.Verify.{ReadsInTurn, VerifiesIn, verify_app};
ghost use Rattle.command.specs.Files.{Decides, ReadsKey, ShowsContent};
ghost use Rattle.typecodes.specs.Message.{IsContent};

use crate::answer::{Answer, Done};
use crate::argument::required;
use crate::files;
use crate::files::{DECISIVE, FileReader, Folder, LineFiles};
use crate::refusal::Refusal;
use crate::trace::Role;
use clap::{ArgMatches, Command};
use sign_core::{AnyPublic, KeyFault, verify_any};
use std::alloc::{AllocError, Global};
use typecodes::Message;

/// The files of the line, by their paths.
#[derive(Clone, Copy, Debug)]
pub struct Verify<'a> {
    /// The public key.
    pub public: &'a str,
    /// The message.
    pub message: &'a str,
    /// The signature.
    pub signature: &'a str,
}

/// The files of the line, opened.
#[derive(Drop)]
pub struct Opened<F> {
    /// The public key.
    pub public: F,
    /// The message.
    pub message: F,
    /// The signature.
    pub signature: F,
}

impl<'a> Verify<'a> {
    /// The command's name on the line.
    pub const NAME: &'static str = "verify";

    /// The command, for `clap`.
    pub fn command(alloc: Global) -> Result<Command<'a>, AllocError>
        ensures { IfOk result (λ command. (old new : ClapCommand) → AddsSubcommand old command new
            → app_of new ≡ with_subcommand (app_of old) verify_app.top) }
    {
        Command::new(alloc, Verify::NAME)
            .about("Verifies a signature of a message")
            .after_help(
                "In a script write verify -- PUBLIC MESSAGE SIGNATURE: then status 0 means verified, whatever the \
                 files are named.\n\nExample:\n  $ hbsign verify firmware.pub firmware.bin firmware.sig\n  verified",
            )
            .arg(required(alloc, "PUBLIC", "File of the public key"))?
            .arg(required(alloc, "MESSAGE", "File of the message"))?
            .arg(required(alloc, "SIGNATURE", "File of the signature"))
    }

    /// The words that `clap` matched; None if one is missing.
    pub fn of(matches: &ArgMatches<'a>) -> Option<Self>
        ensures found { IsSome result ↔ (IsSome (first_value (found_of matches.now) (codes "PUBLIC")))
            × (IsSome (first_value (found_of matches.now) (codes "MESSAGE")))
            × (IsSome (first_value (found_of matches.now) (codes "SIGNATURE"))) }
        ensures public { IfSome result (λ files.
            first_value (found_of matches.now) (codes "PUBLIC") ≡ Some files.public.now) }
        ensures message { IfSome result (λ files.
            first_value (found_of matches.now) (codes "MESSAGE") ≡ Some files.message.now) }
        ensures signature { IfSome result (λ files.
            first_value (found_of matches.now) (codes "SIGNATURE") ≡ Some files.signature.now) }
    {
        Some(Verify {
            public: matches.get_str("PUBLIC")?,
            message: matches.get_str("MESSAGE")?,
            signature: matches.get_str("SIGNATURE")?,
        })
    }

    /// Opens the files in the order of the line, up to the first that can't be opened (53).
    pub fn open<D: LineFiles<'a>>(&self, folder: &mut D) -> Result<Opened<D::File>, Refusal>
        ensures opens { OpensInTurn self.now.public.now self.now.message.now self.now.signature.now result
            (D.trace folder.old) (D.trace folder.new) }
        ensures public { IfOk result (λ files. (D.File.role files.public ≡ Role.Public)
            × ShowsContent (D.content folder.old self.now.public.now) (D.File.remaining files.public)) }
        ensures message { IfOk result (λ files. (D.File.role files.message ≡ Role.Message)
            × ShowsContent (D.content folder.old self.now.message.now) (D.File.remaining files.message)) }
        ensures signature { IfOk result (λ files. (D.File.role files.signature ≡ Role.Signature)
            × ShowsContent (D.content folder.old self.now.signature.now) (D.File.remaining files.signature)) }
        ensures err { IfErr result (λ refusal. refusal ≡ Refusal.FileFailed) }
    {
        Ok(Opened {
            public: folder.open(Role::Public, self.public)?,
            message: folder.open(Role::Message, self.message)?,
            signature: folder.open(Role::Signature, self.signature)?,
        })
    }

    /// Reads the files, and verifies the signature.
    ///
    /// 53: a file couldn't be opened, or a read of the key or the signature failed or went past 2^60 bytes. 46: such a
    /// read was refused memory.
    #[inline(never)]
    pub fn answer<D: LineFiles<'a>>(&self, folder: &mut D) -> Answer
        ensures { VerifiesIn (D.content folder.old) self.now.public.now self.now.message.now self.now.signature.now
            result (D.trace folder.old) (D.trace folder.new) }
    {
        let mut files = self.open(folder)?;
        judge_files(
            folder,
            &mut files.public,
            &mut files.message,
            &mut files.signature,
        )
    }
}

// The message is read last, and only if no refusal comes before.
fn judge_files<D: Folder>(
    folder: &mut D,
    public: &mut D::File,
    message: &mut D::File,
    signature: &mut D::File,
) -> Answer
    ensures answers { AnswersOf (D.File.remaining public.old) (D.File.remaining message.old)
        (D.File.remaining signature.old) result }
    ensures order { ReadsInTurn (D.File.role public.old) (D.File.role signature.old) (D.File.role message.old) result
        (D.trace folder.old) (D.trace folder.new) }
{
    let key = files::read_key(folder, public)?;
    let mut bytes = [0; DECISIVE];
    let n = files::read_into(folder, signature, &mut bytes)?;
    let mut message = FileReader {
        folder,
        file: message,
    };
    let answer = judge(key, &mut message, &bytes[..n]);
    let FileReader { folder, .. } = message;
    // For the prover: this use tells what the reader noted.
    let _ = &*folder;
    answer
}

/// Verifies a signature of the message under the public key that was read, or refuses with that key's fault. Only the
/// first bytes of a signature decide: see `DECISIVE`.
pub fn judge<M: Message>(
    key: Result<AnyPublic, KeyFault>,
    message: &mut M,
    signature: &[u8],
) -> Answer
    ensures judges { (p s : List ℕ) → ReadsKey p key → Decides s signature.now
        → (m : List ℕ) × IsContent (M.remaining message.old) m × Judgement p m s result
        × AnswerLeaves M.transition M.remaining p m message.old message.new result }
    ensures no_key { IfErr key (λ fault. IsErrAnd result (λ refusal. refusal ≡ Refusal.Key fault)
        × (message.new ≡ message.old)) }
{
    let key = key.map_err(Refusal::Key)?;
    match verify_any(&key, message, signature) {
        Ok(()) => Ok(Done::Verified),
        Err(refusal) => Err(Refusal::Signature(refusal)),
    }
}
