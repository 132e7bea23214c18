//! Texts in memory, with a count of how often memory was refused.

ghost use Rattle.std.specs.Prelude.{◌≡◌, ℕ, IfOk, string_bytes};
ghost use Rattle.command.specs.Output.{CountsFailure};

use crate::output::counted;
use clap::Error;
use std::alloc::{AllocError, Global};
use typecodes::Count;

/// A maker of texts, which counts how often memory was refused.
pub trait TextMaker {
    ghost refusals: { Self → ℕ };

    /// The text that `clap` makes for an error.
    fn of_error(&mut self, error: &Error) -> Result<String, AllocError>
        ensures { CountsFailure result (refusals self.old) (refusals self.new) };

    /// A copy of a text.
    fn copy(&mut self, text: &str) -> Result<String, AllocError>
        ensures same { IfOk result (λ copy. string_bytes copy ≡ text.now) }
        ensures counts { CountsFailure result (refusals self.old) (refusals self.new) };
}

/// Texts in the program's memory.
#[derive(Drop)]
pub struct Texts {
    alloc: Global,
    pub refusals: Count,
}

impl Texts {
    /// A maker that was refused no memory yet.
    pub fn new(alloc: Global) -> Self
        ensures { result.refusals ≡ 0 }
    {
        Texts {
            alloc,
            refusals: Count::new(),
        }
    }
}

impl TextMaker for Texts {
    ghost refusals = { λ texts. texts.refusals };

    fn of_error(&mut self, error: &Error) -> Result<String, AllocError> {
        let text = format!(in self.alloc; "{error}");
        counted(text, &mut self.refusals)
    }

    fn copy(&mut self, text: &str) -> Result<String, AllocError> {
        let copy = String::from_str(self.alloc, text);
        counted(copy, &mut self.refusals)
    }
}
