//! Why a command refuses: each refusal with its number, its name and its line.

ghost use Rattle.std.specs.Prelude.{◌≡◌, ◌++◌, codes, decimal};
ghost use Rattle.std.specs.IoError.{error_kind};
ghost use Rattle.command.specs.Output.{text_of};
ghost use Rattle.command.specs.Refusal.{detail_of, name_of, number_of, refusal_line, refusal_of};

use crate::output::Part;
use key_audit::{AuditFault, GivenFault};
use sign_core::{KeyFault, ServeFault, SignFault};
use state_file::{FormatFault, MigrateFault, OpenFault};
use std::io;
use std::io::ErrorKind;
use typecodes::Refusal as SignatureRefusal;

/// Why a command doesn't do what was requested.
#[derive(Clone, Copy, Debug, PartialEq, Eq)]
pub enum Refusal {
    /// 2, 3 and 6: the bytes are no public key.
    Key(KeyFault),
    /// 1 to 5, 10 to 12 and 14: a signature isn't verified.
    Signature(SignatureRefusal),
    /// 21 to 33, 40, 43 to 46 and 50: the signer refuses.
    Signer(SignFault),
    /// 40 to 43 and 45: the state file's records can't be found.
    Opening(OpenFault),
    /// 41, 45 and 50: the state file isn't prepared for a key.
    Preparing(FormatFault),
    /// 26, 40 and 43 to 48: an audit doesn't accept the state file.
    Audit(AuditFault),
    /// 46, 60 and 61: the check of given signatures fails.
    Given(GivenFault),
    /// 26, 40 to 46, 50 and 52: the records aren't migrated.
    Migration(MigrateFault),
    /// 27, 35 and 36: serving ends before its input does.
    Serving(ServeFault),
    /// 46: memory was refused.
    OutOfMemory,
    /// 53: a file can't be opened, read or written, and no other number says so.
    FileFailed,
    /// 54: the state file is locked.
    Locked,
    /// 34: a name isn't 1 to 128 visible characters of ASCII.
    BadName,
    /// 51: a spec isn't one that `Spec::parse` reads.
    BadSpec,
}

impl Refusal {
    /// Its number, by which clients tell refusals apart.
    pub fn number(&self) -> u8
        ensures { result ≡ number_of self.now }
    {
        match self {
            Refusal::Key(fault) => fault.number(),
            Refusal::Signature(refusal) => refusal.number(),
            Refusal::Signer(fault) => fault.number(),
            Refusal::Opening(fault) => fault.number(),
            Refusal::Preparing(fault) => fault.number(),
            Refusal::Audit(fault) => fault.number(),
            Refusal::Given(fault) => fault.number(),
            Refusal::Migration(fault) => fault.number(),
            Refusal::Serving(fault) => fault.number(),
            Refusal::OutOfMemory => 46,
            Refusal::FileFailed => 53,
            Refusal::Locked => 54,
            Refusal::BadName => 34,
            Refusal::BadSpec => 51,
        }
    }

    fn name(&self) -> &'static str
        ensures { result.now ≡ name_of self.now }
    {
        match self {
            Refusal::Key(fault) => fault.name(),
            Refusal::Signature(refusal) => refusal.name(),
            Refusal::Signer(fault) => fault.name(),
            Refusal::Opening(fault) => fault.name(),
            Refusal::Preparing(fault) => fault.name(),
            Refusal::Audit(fault) => fault.name(),
            Refusal::Given(fault) => fault.name(),
            Refusal::Migration(fault) => fault.name(),
            Refusal::Serving(fault) => fault.name(),
            Refusal::OutOfMemory => "OutOfMemory",
            Refusal::FileFailed => "FileFailed",
            Refusal::Locked => "Locked",
            Refusal::BadName => "BadName",
            Refusal::BadSpec => "BadSpec",
        }
    }

    // Up to two words with a number each, or nothing.
    fn detail(&self) -> [Part<'static>; 4]
        ensures { text_of result ≡ detail_of self.now }
    {
        match self {
            Refusal::Key(KeyFault::Unreadable(fault))
            | Refusal::Signature(SignatureRefusal::Unreadable(fault)) => {
                number_detail(" at ", u64::from(fault.place))
            }
            Refusal::Key(KeyFault::Length(length)) => number_detail(" of ", *length as u64),
            Refusal::Signature(
                SignatureRefusal::TypeMismatch(level) | SignatureRefusal::RootMismatch(level),
            ) => number_detail(" level ", u64::from(*level)),
            Refusal::Signer(
                SignFault::Damaged(slot) | SignFault::Unreadable(slot) | SignFault::Illegal(slot),
            )
            | Refusal::Opening(OpenFault::Damaged(slot))
            | Refusal::Audit(AuditFault::Damaged(slot) | AuditFault::Illegal(slot))
            | Refusal::Migration(MigrateFault::Damaged(slot) | MigrateFault::Illegal(slot)) => {
                number_detail(" slot ", u64::from(*slot))
            }
            Refusal::Given(GivenFault::NotValid(place)) => number_detail(" file ", *place as u64),
            Refusal::Given(GivenFault::LeafTwice(first, second)) => [
                Part::Text(" files "),
                Part::Number(*first as u64),
                Part::Text(" "),
                Part::Number(*second as u64),
            ],
            _ => [NONE; 4],
        }
    }

    /// Its line, with the line's end. The parts take no memory.
    pub fn line(&self) -> [Part<'static>; 9]
        ensures { text_of result ≡ refusal_line self.now ++ codes "\n" }
    {
        let [word, number, second_word, second_number] = self.detail();
        [
            Part::Text("refused "),
            Part::Number(u64::from(self.number())),
            Part::Text(" "),
            Part::Text(self.name()),
            word,
            number,
            second_word,
            second_number,
            Part::Text("\n"),
        ]
    }
}

const NONE: Part<'static> = Part::Text("");

fn number_detail(word: &'static str, number: u64) -> [Part<'static>; 4]
    ensures { text_of result ≡ word.now ++ decimal number }
{
    [Part::Text(word), Part::Number(number), NONE, NONE]
}

/// 46 for an error of kind `OutOfMemory`, 53 for any other.
impl From<io::Error> for Refusal {
    ghost from_gives = { λ error refusal. refusal ≡ refusal_of (error_kind error) };

    fn from(error: io::Error) -> Refusal {
        match error.kind() {
            ErrorKind::OutOfMemory => Refusal::OutOfMemory,
            _ => Refusal::FileFailed,
        }
    }
}
