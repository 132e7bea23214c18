//! What is wrong with words that `clap` accepts.

/// Why words that `clap` accepts request nothing.
#[derive(Clone, Copy, Debug, PartialEq, Eq)]
pub enum UsageFault {
    /// No command.
    Command,
    /// UPTO isn't a decimal number up to 2^25.
    Number,
    /// N of `--format` isn't 1 or 2.
    Format,
    /// K of `--count` isn't a decimal number up to 2^31.
    Count,
    /// T of `--tag` isn't 64 hex digits.
    Tag,
    /// Only one of `--count` and `--tag`.
    Anchor,
    /// A message without a signature.
    Pairs,
}
