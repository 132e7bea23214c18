//! `hbsign`: hash-based signatures on files (RFC 8554, RFC 8391).
//!
//! ```text
//! $ hbsign make firmware.key firmware.pub lms:H10/W8
//! public 0000000600000004..
//! $ hbsign sign firmware.key fw-1.0.2 firmware.bin firmware.sig
//! signed fw-1.0.2 1452 bytes
//! $ hbsign verify firmware.pub firmware.bin firmware.sig
//! verified
//! ```
//!
//! `program::run` is the whole program, over traits for what it meets: a reader of lines, a folder of files, an input
//! and two outputs. Its contract says which files are opened, read and written, in which order, and which step a signer
//! makes on the disk of a state file. It also says the line printed, the exit status, and the replies of `serve`.
//!
//! - the line: `line`, `argument` and `number`; where it gives no request, `usage_fault`, `line_fault`
//!   and `texts`
//! - the commands: `make`, `sign`, `verify`, `retire`, `audit`, `audit_given`, `serve`, `migrate`, `list`, `public`;
//!   for `list` also `described` (what a key or a signature says) and `compared` (whether they fit)
//! - the answer: `answer`, `refusal`, `listing_text` and `hex_text`, written to `output`; `notes` and `sentence` say
//!   what a refusal means
//! - a signer: `key_file` over the disk of a state file, `signing` over any store
//! - files: `files` has the traits, `trace` what contracts see of the calls
//! - the machine: `machine`, `standard` (its streams, and the lines about failed calls) and `random_file`; `file_id`
//!   (which file a path leads to), `target` (how a file is written), `key_start` (whether it has a key)
//! - a state file: `file_calls` (the calls of the system, which are trusted), made by `system_file`; `state` over them,
//!   `offset_file`, and `file_disk` over that; `disk_file` has an honest file
//! - `progress`: the line that a terminal shows of long work, in the `foreground` alone
#![tactic(auto)]

mod answer;
mod argument;
mod audit;
mod audit_given;
mod compared;
mod described;
mod disk_file;
mod file_calls;
mod file_disk;
mod file_id;
mod files;
mod foreground;
mod hex_text;
mod key_file;
mod key_start;
mod line;
mod line_fault;
mod list;
mod listing_text;
mod machine;
mod make;
mod migrate;
mod notes;
mod number;
mod offset_file;
mod output;
mod program;
mod progress;
mod public;
mod random_file;
mod refusal;
mod retire;
mod sentence;
mod serve;
mod sign;
mod signing;
mod standard;
mod state;
mod system_file;
mod target;
mod texts;
mod trace;
mod usage_fault;
mod verify;

use answer::OUTPUT_FAILED;
use line::ClapReader;
use machine::Machine;
use notes::Notes;
use output::{Output, Part, Printer};
use progress::{Bar, is_quiet};
use sentence::Sentences;
use serve::Serve;
use standard::{Input, Standard, StreamWriter};
use std::env::Env;
use std::io::BufWriter;
use std::process::ExitCode;
use std::{env, io};

fn main(rt: HostRuntime) -> ExitCode {
    ExitCode::from(match Standard::take(&rt) {
        Ok(standard) => run(&rt, &standard),
        // A standard stream is closed, and there is no null device for its place.
        Err(_) => OUTPUT_FAILED,
    })
}

fn run(rt: &HostRuntime, standard: &Standard) -> u8 {
    let mut notes = Sentences::new(standard, is_quiet(rt));
    let stderr = rt.stderr();
    let mut errors = Printer::new(StreamWriter {
        standard,
        stream: &standard.errors,
        writer: io::writer(&stderr),
    });
    let writer = StreamWriter {
        standard,
        stream: &standard.output,
        writer: io::writer(rt),
    };
    // A crash leaves an answer whole or not written: it is written in one piece, unless a listing is longer than this
    // buffer. The buffer is written again when it is dropped; after a failed write, `StreamWriter` refuses that.
    let Ok(writer) = BufWriter::new(rt.alloc(), writer) else {
        return no_memory(rt, &mut errors, &mut notes);
    };
    let mut output = Printer::new(writer);
    match words(rt) {
        Ok(words) => run_line(
            rt,
            standard,
            words.as_slice(),
            &mut output,
            &mut errors,
            &mut notes,
        ),
        Err(error) if error.kind() == io::ErrorKind::OutOfMemory => {
            no_memory(rt, &mut errors, &mut notes)
        }
        Err(_) => {
            let _ = errors.print(&[Part::Text("error: a word of the line isn't UTF-8\n")]);
            program::LINE_REFUSED
        }
    }
}

fn run_line<'a, O: Output, E: Output, N: Notes>(
    rt: &HostRuntime,
    standard: &'a Standard,
    words: &'a [String],
    output: &mut O,
    errors: &mut E,
    notes: &mut N,
) -> u8 {
    program::run(
        rt.alloc(),
        &mut ClapReader::new(rt.alloc()),
        &mut Machine::new(rt, standard),
        words,
        &mut Input {
            standard,
            reader: rt.reader(),
        },
        output,
        errors,
        &&Bar::new(rt, standard),
        notes,
    )
}

// Takes no memory. Tested: the line is on standard error exactly if the first word is `serve`.
fn no_memory<E: Output, N: Notes>(rt: &HostRuntime, errors: &mut E, notes: &mut N) -> u8 {
    program::report_no_memory(serves(rt), &mut Printer::new(io::writer(rt)), errors, notes)
}

// Whether the first word is `serve`.
fn serves(rt: &HostRuntime) -> bool {
    let mut word = [0; Serve::NAME.len() + 1];
    match rt.arg(1, &mut word) {
        Ok(n) => &word[..n] == Serve::NAME.as_bytes(),
        Err(_) => false,
    }
}

// The words of the command line without the program's name.
fn words(rt: &HostRuntime) -> io::Result<Vec<String>> {
    Ok(env::args(rt)?.skip(1).collect(rt.alloc())?)
}
