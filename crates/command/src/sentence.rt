//! What each refusal means for a person: a line on standard error beside the answer's. No contract has the words.

ghost use Rattle.std.specs.Prelude.{◌≡◌, []};

use crate::notes::Notes;
use crate::refusal::Refusal;
use crate::standard::Standard;
use arrayvec::ArrayString;
use sign_core::ServeFault;
use state_file::SlotList;
use std::fmt::Write;
use typecodes::Spec;

// The most characters of a name, and levels of a key.
const NAME_MOST: usize = 128;

const MOST_LEVELS: usize = 8;

const PAIR: &str = "H5, H10, H15, H20 or H25, a slash, and W1, W2, W4 or W8";

// 27 where `serve` ends.
const CUT_MESSAGE: &str =
    "the input ends inside a message, or a read of it fails: the client sends its request again";

/// Says on standard error what a refusal means, unless the user wants quiet.
#[derive(Drop)]
pub struct Sentences<'a> {
    standard: &'a Standard,
    is_quiet: bool,
    told: SlotList,
}

impl<'a> Sentences<'a> {
    ghost use Rattle.command.specs.inner.Sentence.{told_of};

    pub fn new(standard: &'a Standard, is_quiet: bool) -> Self
        ensures { told_of result ≡ [] }
    {
        Sentences {
            standard,
            is_quiet,
            told: SlotList::new(),
        }
    }

    fn say(&self, sentence: &str) {
        if !self.is_quiet {
            self.standard.say(sentence);
        }
    }
}

impl Notes for Sentences<'_> {
    ghost use Rattle.command.specs.inner.Sentence.{told_of};

    ghost told = { told_of };

    fn refused(&mut self, refusal: &Refusal, word: &str) {
        let mut text = ArrayString::<256>::new();
        // Every text fits.
        let _ = match refusal {
            Refusal::BadName => write_name_fault(&mut text, word),
            Refusal::BadSpec => write_spec_fault(&mut text, word),
            Refusal::Serving(ServeFault::MessageRead) => text.write_str(CUT_MESSAGE),
            _ => text.write_str(sentence(refusal.number())),
        };
        self.say(text.as_str());
        self.told.push(u32::from(refusal.number()));
    }

    fn unwritten(&mut self) {
        self.say("the answer couldn't be written to standard output");
        self.told.push(0);
    }
}

// The table of what refusals mean, by their numbers: of each row of docs/REFUSALS.md when it comes, or what to do, or
// both, as a test compares.
fn sentence(number: u8) -> &'static str {
    match number {
        1 | 2 | 3 | 4 | 5 => "PUBLIC or SIGNATURE is cut, long, swapped, or text",
        6 => "PUBLIC is no public key, perhaps a state file or hex digits",
        10 => "a signature's types aren't its key's: take the signature of this key",
        11 => "the signature hasn't as many levels as the key: take the signature of this key",
        12 => {
            "don't install the image: this isn't the message that was signed, or another key signed it"
        }
        14 | 27 => {
            "a read of MESSAGE failed, as of a folder, or was interrupted, or gave 2^60 bytes"
        }
        21 => "the name is bound to another digest: take another name, or the message from before",
        22 => "no leaf is free: sign with the next key",
        23 => "the random source failed: look at the source",
        24 => {
            "the I drawn for a new tree is in the records already: end serve; use this source no more"
        }
        25 => {
            "a call on the state file failed: mount its file system anew before anything opens the file; \
             then make room, or look at the device"
        }
        26 => {
            "a call failed before in this process: mount its file system anew before anything opens the \
             file; then make room, or look at the device"
        }
        _ => sentence_of_records(number),
    }
}

// The rows on damaged records, memory, and from 30 on on room, leaves, names and frames.
fn sentence_of_records(number: u8) -> &'static str {
    match number {
        28 | 44 => "don't sign; withdraw the public key: nobody knows which leaves were used",
        29 | 46 => "memory was refused: more memory",
        30 => "no room for the records that are needed: take a new key",
        31 => {
            "the records go on in another file: sign with NEW alone; where NEW answers 40, run migrate \
             again"
        }
        32 => {
            "the current bottom tree has fewer leaves, or there is none yet: take a smaller number, if \
             there is one"
        }
        33 => {
            "a new name of more than 64 bytes, on a file of format 1: take a shorter name, or migrate"
        }
        35 => {
            "the input ends inside a frame, before its message: the client sends its request again"
        }
        36 => "a reply can't be written: the client sends its request again",
        _ => sentence_of_files(number),
    }
}

// The rows from 40 on: on opening state files, anchors, other files and given signatures.
fn sentence_of_files(number: u8) -> &'static str {
    match number {
        40 => {
            "is it another file, cut or damaged? Run a stopped make or migrate again, but no make over a \
             file in use"
        }
        41 => "it is no state file: take another",
        42 => {
            "the version is unknown; for migrate also where OLD is of format 2: take a later program; \
             migrate: keep OLD"
        }
        43 => "don't sign; of a copy look at the original; else withdraw the public key",
        45 => {
            "a call on a state file failed: mount its file system anew before anything opens the file; \
             then make room, or look at the device"
        }
        47 | 48 => "don't sign: the file was put back, has lost records, or is another key's",
        50 => {
            "STATE or NEW holds a key: 257 bytes or more, and gate 0 is open: public writes PUBLIC where \
             make didn't; never take another NEW"
        }
        52 => "OLD has 2^31 records, and no room for a Moved: take a new key",
        53 => {
            "a file can't be opened, read or written, or isn't one that may be: see the line before; of OUT \
             take another"
        }
        54 => "another process has the file, or OLD and NEW are one: wait",
        60 => "that signature is of another key or message",
        61 => "withdraw the public key: whoever has both signatures can forge",
        _ => "",
    }
}

// Which character of a text keeps it from being a name.
fn write_name_fault<W: Write>(text: &mut W, name: &str) -> std::fmt::Result {
    if name.is_empty() {
        return text.write_str("a name has a character at least");
    }
    let mut place = 1u64;
    for c in name.chars() {
        if !c.is_ascii_graphic() {
            let code = c as u32;
            return write!(
                text,
                "character {place} of the name (U+{code:04x}) isn't a visible one of ASCII"
            );
        }
        place = place.saturating_add(1);
    }
    let length = name.len();
    write!(
        text,
        "the name has {length} characters, and may have {NAME_MOST}"
    )
}

// Which part of a text keeps it from being a spec.
fn write_spec_fault<W: Write>(text: &mut W, spec: &str) -> std::fmt::Result {
    if spec.starts_with("lms:") {
        return write!(text, "after lms: a SPEC has {PAIR}");
    }
    if let Some(levels) = spec.strip_prefix("hss:") {
        return write_levels_fault(text, levels);
    }
    if spec.starts_with("xmss:") {
        return text.write_str("after xmss: a SPEC has 10, 16 or 20");
    }
    text.write_str("a SPEC begins with lms:, hss: or xmss:")
}

fn write_levels_fault<W: Write>(text: &mut W, levels: &str) -> std::fmt::Result {
    let mut level = 0usize;
    for pair in levels.split(',') {
        if level == MOST_LEVELS {
            break;
        }
        if !is_pair(pair) {
            return write!(text, "level {level} of the SPEC isn't {PAIR}");
        }
        level = level.saturating_add(1);
    }
    write!(text, "a SPEC of HSS has {MOST_LEVELS} levels at most")
}

fn is_pair(text: &str) -> bool {
    let mut spec = ArrayString::<16>::new();
    write!(spec, "lms:{text}").is_ok() && Spec::parse(spec.as_str()).is_ok()
}
