//! The arguments of the commands, for `clap`.

ghost use Rattle.std.specs.Prelude.{◌≡◌, false};
ghost use Rattle.clap.specs.Words.{rule_of};
ghost use Rattle.command.specs.Argument.{default_rule, option_rule, optional_rule, random_rule, required_rule};
ghost use Rattle.command.specs.Argument.{several_rule};

use crate::random_file::DEFAULT_RANDOM;
use clap::Arg;
use std::alloc::Global;

/// A required word.
pub fn required<'a>(alloc: Global, name: &'a str, help: &'a str) -> Arg<'a>
    ensures rule { rule_of result ≡ required_rule name.now }
    ensures own { result.global ≡ false }
{
    Arg::new(alloc, name).help(help).required(true)
}

/// A word that may be left out.
pub fn optional<'a>(alloc: Global, name: &'a str, help: &'a str) -> Arg<'a>
    ensures rule { rule_of result ≡ optional_rule name.now }
    ensures own { result.global ≡ false }
{
    Arg::new(alloc, name).help(help)
}

/// Words, at least one.
pub fn several<'a>(alloc: Global, name: &'a str, help: &'a str) -> Arg<'a>
    ensures rule { rule_of result ≡ several_rule name.now }
    ensures own { result.global ≡ false }
{
    Arg::new(alloc, name)
        .required(true)
        .num_args(1..)
        .help(help)
}

/// An option with a value, which may be left out. Help calls the value `value`.
pub fn option<'a>(alloc: Global, name: &'a str, value: &'a str, help: &'a str) -> Arg<'a>
    ensures rule { rule_of result ≡ option_rule name.now }
    ensures own { result.global ≡ false }
{
    Arg::new(alloc, name)
        .long(name)
        .value_name(value)
        .help(help)
}

/// An option with a value, which is `default` if the line has none. Help calls the value `value`.
pub fn option_or<'a>(
    alloc: Global,
    name: &'a str,
    value: &'a str,
    help: &'a str,
    default: &'a str,
) -> Arg<'a>
    ensures rule { rule_of result ≡ default_rule name.now default.now }
    ensures own { result.global ≡ false }
{
    option(alloc, name, value, help).default_value(default)
}

/// `--random FILE`; without it, the system's random device.
pub fn random_file<'a>(alloc: Global) -> Arg<'a>
    ensures rule { rule_of result ≡ random_rule }
    ensures own { result.global ≡ false }
{
    option_or(
        alloc,
        "random",
        "FILE",
        "Where random bytes come from. Leave it out, but for a hardware source or a test: a file that is given twice \
                 makes the same key twice, and lets others forge",
        DEFAULT_RANDOM,
    )
}
