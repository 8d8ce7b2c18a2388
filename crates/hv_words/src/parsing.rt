//! Commands as the kit's `clap` knows them, and what it reads in words that they take.

ghost use Rattle.std.specs.Prelude.{◌≡◌, IfOk, map, true};
ghost use Rattle.std.specs.String.{string_bytes};
ghost use Rattle.clap.specs.Words.{HasMatchesOf, app_of, kind_of, takes, with_rule};
ghost use Rattle.hv_words.specs.Working.Commands.{argument, option, plain_app};
ghost use Rattle.hv_words.specs.Forms.{is_argument};

use clap::error::ErrorKind;
use clap::{Arg, ArgAction, ArgMatches, Command, Error};
use std::alloc::{AllocError, Global};

/// Whether the word may be an argument or a value.
pub(crate) fn is_argument(word: &str) -> bool
    ensures { result ≡ is_argument word.now }
{
    match word.as_bytes() {
        [] => false,
        [first, ..] => *first != b'-',
    }
}

/// A command that knows neither help nor a version, and whose name isn't among its words.
pub(crate) fn plain_command<'a>(alloc: Global, name: &'a str) -> Command<'a>
    ensures { app_of result ≡ plain_app name.entry.now }
{
    Command::new(alloc, name)
        .no_binary_name(true)
        .disable_help_flag(true)
        .disable_version_flag(true)
}

/// The command with one more argument.
pub(crate) fn with_argument<'a>(
    alloc: Global,
    command: Command<'a>,
    id: &'a str,
) -> Result<Command<'a>, AllocError>
    ensures { IfOk result (λ c. app_of c
        ≡ with_rule (app_of command.entry) (argument id.entry.now)) }
{
    command.arg(Arg::new(alloc, id).required(true))
}

/// The command with one more option, which takes a value.
pub(crate) fn with_option<'a>(
    alloc: Global,
    command: Command<'a>,
    name: &'a str,
) -> Result<Command<'a>, AllocError>
    ensures { IfOk result (λ c. app_of c
        ≡ with_rule (app_of command.entry) (option name.entry.now)) }
{
    let option = Arg::new(alloc, name).long(name).action(ArgAction::Set);
    command.arg(option)
}

/// What the command reads in words that it takes.
pub(crate) fn parse<'a>(
    command: Command<'a>,
    words: &'a [String],
) -> Result<ArgMatches<'a>, AllocError>
    requires { takes (app_of command) (map string_bytes words.now) ≡ true }
    ensures { IfOk result (HasMatchesOf (app_of command.entry) (map string_bytes words.entry.now)) }
{
    match command.try_get_matches_from(words) {
        Ok(matches) => Ok(matches),
        Err(error) => Err(no_memory(error)),
    }
}

/// The only error of words that the command takes.
fn no_memory(error: Error) -> AllocError
    requires { kind_of error ≡ ErrorKind.OutOfMemory }
{
    let _ = error;
    AllocError
}
