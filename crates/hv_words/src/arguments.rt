//! Commands with one argument or two.

ghost use Rattle.std.specs.Prelude.{◌≡◌, IfOk, map, option_map};
ghost use Rattle.std.specs.Option.{is_some};
ghost use Rattle.std.specs.String.{string_bytes};
ghost use Rattle.clap.specs.Words.{app_of};
ghost use Rattle.hv_words.specs.Working.Commands.{one_app, two_app};
ghost use Rattle.hv_words.specs.Forms.{one_text, two_texts};

use crate::parsing::{is_argument, parse, plain_command, with_argument};
use clap::Command;
use std::alloc::{AllocError, Global};

/// The one argument after the command's name, or none where the words are something else. It isn't
/// empty and doesn't begin with a dash.
pub fn read_one<'a>(
    alloc: Global,
    name: &'a str,
    words: &'a [String],
) -> Result<Option<&'a str>, AllocError>
    ensures { IfOk result (λ given. option_map (λ s. s.now) given
        ≡ one_text (map string_bytes words.entry.now)) }
{
    if !is_one(words) {
        return Ok(None);
    }
    let matches = parse(one_command(alloc, name)?, words)?;
    Ok(matches.get_str("first"))
}

/// The two arguments after the command's name, or none where the words are something else. Neither
/// is empty or begins with a dash.
pub fn read_two<'a>(
    alloc: Global,
    name: &'a str,
    words: &'a [String],
) -> Result<Option<(&'a str, &'a str)>, AllocError>
    ensures { IfOk result (λ given. option_map (λ pair. (pair.0.now, pair.1.now)) given
        ≡ two_texts (map string_bytes words.entry.now)) }
{
    if !is_two(words) {
        return Ok(None);
    }
    let matches = parse(two_command(alloc, name)?, words)?;
    Ok(Some((
        matches.get_str("first").unwrap(),
        matches.get_str("second").unwrap(),
    )))
}

fn one_command<'a>(alloc: Global, name: &'a str) -> Result<Command<'a>, AllocError>
    ensures { IfOk result (λ command. app_of command ≡ one_app name.entry.now) }
{
    with_argument(alloc, plain_command(alloc, name), "first")
}

fn two_command<'a>(alloc: Global, name: &'a str) -> Result<Command<'a>, AllocError>
    ensures { IfOk result (λ command. app_of command ≡ two_app name.entry.now) }
{
    with_argument(alloc, one_command(alloc, name)?, "second")
}

fn is_one(words: &[String]) -> bool
    ensures { result ≡ is_some (one_text (map string_bytes words.now)) }
{
    match words {
        [word] => is_argument(word.as_str()),
        [] => false,
        [_, _, ..] => false,
    }
}

fn is_two(words: &[String]) -> bool
    ensures { result ≡ is_some (two_texts (map string_bytes words.now)) }
{
    match words {
        [first, second] => is_argument(first.as_str()) && is_argument(second.as_str()),
        [] => false,
        [_] => false,
        [_, _, _, ..] => false,
    }
}
