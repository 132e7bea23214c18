//! A command's answer, the lines that report it, and the exit status.

ghost use Rattle.std.specs.Prelude.{◌≡◌, ◌++◌};
ghost use Rattle.command.specs.Answer.{IsOfWord, ReportsRequest, ReportsServing, answer_line, described_lines};
ghost use Rattle.command.specs.Answer.{done_lines, hss_key_lines, leaf_lines, listing_lines, lms_key_lines};
ghost use Rattle.command.specs.Answer.{public_lines, report_lines, status_of, xmss_key_lines};
ghost use Rattle.command.specs.AnswerLaws.{AnswerLaws};
ghost use Rattle.key_audit.specs.Listing.{shown_of_listing};
ghost use Rattle.command.specs.Notes.{NotesEnd, NotesOutput};
ghost use Rattle.command.specs.inner.Notes.{with_note};
ghost use Rattle.command.specs.Output.{Prints, WritesText, could_be_line};
ghost use Rattle.command.specs.Streams.{taken};

use crate::described::Described;
use crate::notes::Notes;
use crate::output::{Output, Part};
use crate::refusal::Refusal;
use arrayvec::ArrayVec;
use hss::HssPublic;
use key_audit::{
    AuditFault, GivenFault, Listing, Report, count_names, count_signatures, listing_law,
};
use lms::LmsPublic;
use sign_core::{AnyPublic, ServeFault, SignFault};
use state_file::{FormatFault, MigrateFault, OpenFault};
use std::io;
use typecodes::{Name, Refusal as SignatureRefusal, Spec};
use xmss::XmssPublic;

/// No line of an answer begins with a capital letter, so none can be taken for a line of help. Nothing secret is
/// listed: records that differ only in secrets have the same lines. The function does nothing: its contract is proved
/// for all answers.
pub fn answer_laws()
    ensures { AnswerLaws }
{
    listing_law();
}

/// What a command has done.
#[derive(Debug, Drop, PartialEq)]
pub enum Done {
    /// The signature is the key's for the message.
    Verified,
    /// The leaves of the current bottom tree below this one are retired.
    Retired(u32),
    /// A public key of 56 to 68 bytes was written.
    Published(ArrayVec<u8, 68>),
    /// A message was signed under this name; the signature that was written has this size in bytes.
    Signed(Name, usize),
    /// An audit accepted a state file: its public key of 56 to 68 bytes, and the report.
    Audited(ArrayVec<u8, 68>, Report),
    /// The types, free leaves and records of a state file.
    Listed(Listing),
    /// A file is this public key or signature, which could be a key's or not, if there is one to compare it with.
    Described(Described, Option<bool>),
    /// This number of signatures is valid, and no leaf signed two digests.
    Checked(usize),
    /// The new state file has this number of records.
    Migrated(u32),
}

impl Done {
    fn print<O: Output>(&self, output: &mut O) -> io::Result<()>
        ensures { Prints (done_lines self.now) (taken O.contents O.failures output.old)
            (taken O.contents O.failures output.new) result }
    {
        match self {
            Done::Verified => output.print(&[Part::Text("verified\n")]),
            Done::Retired(upto) => {
                let upto = Part::Number(u64::from(*upto));
                output.print(&[Part::Text("retired upto "), upto, Part::Text("\n")])
            }
            Done::Published(public) => {
                let public = Part::Hex(public.as_slice());
                output.print(&[Part::Text("public "), public, Part::Text("\n")])
            }
            Done::Signed(name, size) => output.print(&[
                Part::Text("signed "),
                Part::Bytes(name.as_bytes()),
                Part::Text(" "),
                Part::Number(*size as u64),
                Part::Text(" bytes\n"),
            ]),
            Done::Audited(public, report) => print_report(public.as_slice(), report, output),
            Done::Listed(listing) => print_listing(listing, output),
            Done::Described(described, could_be) => print_described(described, *could_be, output),
            Done::Checked(count) => {
                let count = Part::Number(*count as u64);
                output.print(&[
                    Part::Text("given "),
                    count,
                    Part::Text(" signatures, no leaf twice\n"),
                ])
            }
            Done::Migrated(count) => {
                let count = Part::Number(u64::from(*count));
                output.print(&[Part::Text("migrated "), count, Part::Text(" records\n")])
            }
        }
    }
}

fn print_report<'a, O: Output>(
    public: &'a [u8],
    report: &'a Report,
    output: &mut O,
) -> io::Result<()>
    ensures { Prints (report_lines public.now report.now) (taken O.contents O.failures output.old)
        (taken O.contents O.failures output.new) result }
{
    output.print(&[
        Part::Text("public "),
        Part::Hex(public),
        Part::Text("\nrecords "),
        Part::Number(u64::from(report.records)),
        Part::Text("\ntag "),
        Part::Hex(&report.tag),
        Part::Text("\n"),
        Part::Levels(report.left.as_slice()),
        Part::Moved(report.moved),
    ])
}

fn print_listing<O: Output>(listing: &Listing, output: &mut O) -> io::Result<()>
    ensures { Prints (listing_lines (shown_of_listing listing.now) listing.now.behind)
        (taken O.contents O.failures output.old) (taken O.contents O.failures output.new) result }
{
    let names = count_names(listing.entries.as_slice());
    output.print(&[
        Part::Text("spec "),
        Part::Spec(&listing.spec),
        Part::Text("\nformat "),
        Part::Number(u64::from(listing.version.code())),
        Part::Text("\n"),
        Part::Levels(listing.left.as_slice()),
        Part::Text("names "),
        Part::Number(names as u64),
        Part::Text("\n"),
        Part::Entries(listing.entries.as_slice()),
        Part::Signatures(count_signatures(listing)),
        Part::Behind(listing.behind),
    ])
}

fn print_described<O: Output>(
    described: &Described,
    could_be: Option<bool>,
    output: &mut O,
) -> io::Result<()>
    ensures { Prints (described_lines described.now could_be) (taken O.contents O.failures output.old)
        (taken O.contents O.failures output.new) result }
{
    match described {
        Described::Public(key) => print_public(key, could_be, output),
        Described::LmsSignature { pair, leaf } => {
            print_leaf(&Spec::Lms(*pair), *leaf, could_be, output)
        }
        Described::HssSignature(levels) => output.print(&[
            Part::Text("signature hss\n"),
            Part::SignedLevels(levels.as_slice()),
            Part::CouldBe(could_be),
        ]),
        Described::XmssSignature { tree, leaf } => {
            print_leaf(&Spec::Xmss(*tree), *leaf, could_be, output)
        }
    }
}

// Of a signature of one tree.
fn print_leaf<O: Output>(
    spec: &Spec,
    leaf: u32,
    could_be: Option<bool>,
    output: &mut O,
) -> io::Result<()>
    ensures { Prints (leaf_lines spec.now leaf ++ could_be_line could_be) (taken O.contents O.failures output.old)
        (taken O.contents O.failures output.new) result }
{
    output.print(&[
        Part::Text("signature "),
        Part::Spec(spec),
        Part::Text("\nindex "),
        Part::Number(u64::from(leaf)),
        Part::Text("\n"),
        Part::CouldBe(could_be),
    ])
}

fn print_public<O: Output>(
    key: &AnyPublic,
    could_be: Option<bool>,
    output: &mut O,
) -> io::Result<()>
    ensures { Prints (public_lines key.now ++ could_be_line could_be) (taken O.contents O.failures output.old)
        (taken O.contents O.failures output.new) result }
{
    match key {
        AnyPublic::Lms(key) => print_lms_key(&Spec::Lms(key.pair), key, could_be, output),
        AnyPublic::Hss(key) => print_hss_key(&Spec::Lms(key.top.pair), key, could_be, output),
        AnyPublic::Xmss(key) => print_xmss_key(&Spec::Xmss(key.tree), key, could_be, output),
    }
}

fn print_lms_key<'a, O: Output>(
    spec: &'a Spec,
    key: &'a LmsPublic,
    could_be: Option<bool>,
    output: &mut O,
) -> io::Result<()>
    ensures { Prints (lms_key_lines spec.now key.now ++ could_be_line could_be)
        (taken O.contents O.failures output.old) (taken O.contents O.failures output.new) result }
{
    output.print(&[
        Part::Text("public "),
        Part::Spec(spec),
        Part::Text("\nidentifier "),
        Part::Hex(&key.identifier),
        Part::Text("\nroot "),
        Part::Hex(&key.root),
        Part::Text("\n"),
        Part::CouldBe(could_be),
    ])
}

// The key fixes the types of its top tree alone.
fn print_hss_key<'a, O: Output>(
    top: &'a Spec,
    key: &'a HssPublic,
    could_be: Option<bool>,
    output: &mut O,
) -> io::Result<()>
    ensures { Prints (hss_key_lines top.now key.now ++ could_be_line could_be)
        (taken O.contents O.failures output.old) (taken O.contents O.failures output.new) result }
{
    output.print(&[
        Part::Text("public hss\nlevels "),
        Part::Number(u64::from(key.levels.get())),
        Part::Text("\ntop "),
        Part::Spec(top),
        Part::Text("\nidentifier "),
        Part::Hex(&key.top.identifier),
        Part::Text("\nroot "),
        Part::Hex(&key.top.root),
        Part::Text("\n"),
        Part::CouldBe(could_be),
    ])
}

fn print_xmss_key<'a, O: Output>(
    spec: &'a Spec,
    key: &'a XmssPublic,
    could_be: Option<bool>,
    output: &mut O,
) -> io::Result<()>
    ensures { Prints (xmss_key_lines spec.now key.now ++ could_be_line could_be)
        (taken O.contents O.failures output.old) (taken O.contents O.failures output.new) result }
{
    output.print(&[
        Part::Text("public "),
        Part::Spec(spec),
        Part::Text("\nroot "),
        Part::Hex(&key.root),
        Part::Text("\nseed "),
        Part::Hex(&key.seed),
        Part::Text("\n"),
        Part::CouldBe(could_be),
    ])
}

/// What a command did, or why it refused.
pub type Answer = Result<Done, Refusal>;

/// The exit status where the output can't be written.
pub const OUTPUT_FAILED: u8 = 3;

// The exit status for a bad name or spec.
const WORD_REFUSED: u8 = 2;

/// Prints the answer's lines, and gives the exit status. `notes` hears of a refusal, with `word`, the name or the spec
/// of the line, and of an output that failed.
pub fn report<O: Output, N: Notes>(answer: &Answer, word: &str, output: &mut O, notes: &mut N) -> u8
    ensures reports { ReportsRequest answer.now (taken O.contents O.failures output.old)
        (taken O.contents O.failures output.new) result }
    ensures refuses { result ≡ 2 → IsOfWord answer.now × WritesText (answer_line answer.now)
        (taken O.contents O.failures output.old) (taken O.contents O.failures output.new) }
    ensures notes { NotesOutput (taken O.contents O.failures output.old) (taken O.contents O.failures output.new)
        (N.told notes.old) (N.told notes.new) result }
{
    let printed = match answer {
        Ok(done) => done.print(output),
        Err(refusal) => output.print(&refusal.line()),
    };
    match printed {
        Ok(()) => {
            note(answer, word, notes);
            status(answer)
        }
        Err(_) => {
            notes.unwritten();
            OUTPUT_FAILED
        }
    }
}

fn note<N: Notes>(answer: &Answer, word: &str, notes: &mut N)
    ensures { N.told notes.new ≡ with_note answer.now (N.told notes.old) }
{
    if let Err(refusal) = answer {
        notes.refused(refusal, word);
    }
}

/// Prints why serving ended before its input did, if it did. Gives the exit status, even where this can't be printed.
/// `notes` hears of the refusal.
pub fn report_serving<E: Output, N: Notes>(
    served: &Result<u64, Refusal>,
    errors: &mut E,
    notes: &mut N,
) -> u8
    ensures reports { ReportsServing served.now (taken E.contents E.failures errors.old)
        (taken E.contents E.failures errors.new) result }
    ensures notes { NotesEnd (taken E.contents E.failures errors.old) (taken E.contents E.failures errors.new)
        (N.told notes.old) (N.told notes.new) result }
{
    let Err(refusal) = served else {
        return 0;
    };
    let _ = errors.print(&refusal.line());
    notes.refused(refusal, "");
    status(&Err(*refusal))
}

// 0: done. 2: a bad name or spec. 3: a file or the machine failed, or an input ended inside a message. 1: any other
// refusal.
fn status(answer: &Answer) -> u8
    ensures status { result ≡ status_of answer.now }
    ensures refuses { result ≡ 2 → IsOfWord answer.now }
{
    match answer {
        Ok(_) => 0,
        Err(Refusal::BadName | Refusal::BadSpec) => WORD_REFUSED,
        Err(
            Refusal::OutOfMemory
            | Refusal::FileFailed
            | Refusal::Signature(SignatureRefusal::MessageRead)
            | Refusal::Opening(OpenFault::DeviceFailed)
            | Refusal::Preparing(FormatFault::DeviceFailed)
            | Refusal::Audit(AuditFault::DeviceFailed | AuditFault::OutOfMemory)
            | Refusal::Given(GivenFault::OutOfMemory)
            | Refusal::Migration(MigrateFault::DeviceFailed | MigrateFault::OutOfMemory)
            | Refusal::Serving(ServeFault::MessageRead | ServeFault::WriteFailed)
            | Refusal::Signer(
                SignFault::RandomFailed
                | SignFault::StoreFailed
                | SignFault::MessageRead
                | SignFault::OutOfMemory
                | SignFault::DeviceFailed
                | SignFault::NoMemoryToOpen,
            ),
        ) => 3,
        Err(_) => 1,
    }
}
