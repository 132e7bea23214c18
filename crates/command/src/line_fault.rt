//! Why a line gives no request, with the text that is printed for it.

ghost use Rattle.std.specs.Prelude.{◌≡◌, ◌≢◌, ◌<◌, ◌↔◌, ◌⊎◌, IfOk, IsTrue, length, string_bytes};
ghost use Rattle.clap.specs.Words.{kind_of};
ghost use Rattle.command.specs.Output.{CountsFailure};
ghost use Rattle.command.specs.LineFault.{BeginsWithCapital, CountsFault, HasText, IsFaultOf, IsHelp};
ghost use Rattle.command.specs.LineFault.{has_lowercase_line};

use crate::texts::TextMaker;
use clap::Error;
use clap::error::ErrorKind;
use std::alloc::AllocError;

/// Why a line gives no request.
#[derive(Debug, Drop)]
pub enum LineFault {
    /// Help was requested. No line of its text can be taken for an answer: none begins with a letter from a to z.
    Help(String),
    /// The version was requested.
    Version,
    /// The line is wrong. The text says how, and isn't empty.
    Refused(String),
    /// Memory was refused.
    OutOfMemory,
}

const USAGE: &str = "Usage: hbsign <COMMAND>\n";

// For a wrong line, if `clap` gives no text.
const REFUSED_LINE: &str = "error: this line can't be read\n";

impl LineFault {
    /// The fault for an error of `clap` other than refused memory; `OutOfMemory` if there is no memory for its text.
    ///
    /// Which text `clap` makes is tested. Help is replaced only if it could be taken for an answer (`help_or_usage`),
    /// and a refusal only if it is empty (`text_or_refusal`).
    pub fn of<T: TextMaker>(texts: &mut T, error: &Error) -> LineFault
        requires { kind_of error.now ≢ ErrorKind.OutOfMemory }
        ensures kind { (result ≡ LineFault.OutOfMemory) ⊎ IsFaultOf result (kind_of error.now) }
        ensures text { HasText result }
        ensures counts { CountsFault result (T.refusals texts.old) (T.refusals texts.new) }
    {
        match LineFault::with_text(texts, error) {
            Ok(fault) => fault,
            Err(_) => LineFault::OutOfMemory,
        }
    }

    // As `of`, but refused memory is an error.
    fn with_text<T: TextMaker>(texts: &mut T, error: &Error) -> Result<LineFault, AllocError>
        requires { kind_of error.now ≢ ErrorKind.OutOfMemory }
        ensures kind { IfOk result (λ fault. IsFaultOf fault (kind_of error.now)) }
        ensures text { IfOk result HasText }
        ensures counts { CountsFailure result (T.refusals texts.old) (T.refusals texts.new) }
    {
        Ok(match error.kind() {
            ErrorKind::DisplayHelp => {
                let text = texts.of_error(error)?;
                LineFault::Help(help_or_usage(texts, text)?)
            }
            ErrorKind::DisplayVersion => LineFault::Version,
            _ => {
                let text = texts.of_error(error)?;
                LineFault::Refused(text_or_refusal(texts, text)?)
            }
        })
    }
}

// The usage in place of a text that could be taken for an answer.
#[tactic(auto, unfolding(crate::specs::LineFault::has_lowercase_line))]
fn help_or_usage<T: TextMaker>(texts: &mut T, text: String) -> Result<String, AllocError>
    ensures help { IfOk result (λ help. IsHelp (string_bytes help)) }
    ensures kept { IsHelp (string_bytes text) → IfOk result (λ help. string_bytes help ≡ string_bytes text) }
    ensures counts { CountsFailure result (T.refusals texts.old) (T.refusals texts.new) }
{
    if begins_with_capital(text.as_str()) && !has_lowercase_line(text.as_bytes()) {
        Ok(text)
    } else {
        texts.copy(USAGE)
    }
}

fn begins_with_capital(text: &str) -> bool
    ensures { IsTrue result ↔ BeginsWithCapital text.now }
{
    matches!(text.as_bytes().first(), Some(b'A'..=b'Z'))
}

// Whether any line begins with a letter from a to z.
fn has_lowercase_line(text: &[u8]) -> bool
    ensures { result ≡ has_lowercase_line 10 text.now }
{
    let mut before = b'\n';
    for byte in text {
        if before == b'\n' && byte.is_ascii_lowercase() {
            return true;
        }
        before = *byte;
    }
    false
}

// A fixed text in place of an empty one.
fn text_or_refusal<T: TextMaker>(texts: &mut T, text: String) -> Result<String, AllocError>
    ensures text { IfOk result (λ refusal. 0 < length (string_bytes refusal)) }
    ensures kept { 0 < length (string_bytes text)
        → IfOk result (λ refusal. string_bytes refusal ≡ string_bytes text) }
    ensures counts { CountsFailure result (T.refusals texts.old) (T.refusals texts.new) }
{
    if text.is_empty() {
        texts.copy(REFUSED_LINE)
    } else {
        Ok(text)
    }
}
