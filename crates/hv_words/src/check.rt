//! The words of a check: its arguments and its options.

ghost use Rattle.std.specs.Prelude.{◌≡◌, IfOk, map, option_map};
ghost use Rattle.std.specs.Option.{is_some};
ghost use Rattle.std.specs.String.{string_bytes};
ghost use Rattle.clap.specs.Words.{app_of};
ghost use Rattle.hv_words.specs.Working.Commands.{check_app};
ghost use Rattle.hv_words.specs.Forms.{check_texts, is_budget, is_nodes, option_texts, texts_of};

use crate::parsing::{is_argument, parse, plain_command, with_argument, with_option};
use clap::Command;
use std::alloc::{AllocError, Global};

/// The words of a check: the names of its task and its proof, and the values of its options where
/// these are given.
#[derive(Clone, Copy, Debug, PartialEq, Eq)]
pub struct CheckWords<'a> {
    pub task: &'a str,
    pub proof: &'a str,
    pub nodes: Option<&'a str>,
    pub budget: Option<&'a str>,
}

/// What the words after the command's name say, or none where they are no words of a check: those
/// are `TASK PROOF`, and then at most `--nodes FILE` and `--budget N`, in either order. No argument
/// or value is empty or begins with a dash.
pub fn read_check<'a>(
    alloc: Global,
    name: &'a str,
    words: &'a [String],
) -> Result<Option<CheckWords<'a>>, AllocError>
    ensures { IfOk result (λ given. option_map texts_of given
        ≡ check_texts (map string_bytes words.entry.now)) }
{
    if !is_check(words) {
        return Ok(None);
    }
    let matches = parse(check_command(alloc, name)?, words)?;
    Ok(Some(CheckWords {
        task: matches.get_str("task").unwrap(),
        proof: matches.get_str("proof").unwrap(),
        nodes: matches.get_str("nodes"),
        budget: matches.get_str("budget"),
    }))
}

/// The command of this name that checks.
fn check_command<'a>(alloc: Global, name: &'a str) -> Result<Command<'a>, AllocError>
    ensures { IfOk result (λ command. app_of command ≡ check_app name.entry.now) }
{
    let command = plain_command(alloc, name);
    let command = with_argument(alloc, command, "task")?;
    let command = with_argument(alloc, command, "proof")?;
    let command = with_option(alloc, command, "nodes")?;
    with_option(alloc, command, "budget")
}

fn is_check(words: &[String]) -> bool
    ensures { result ≡ is_some (check_texts (map string_bytes words.now)) }
{
    match words {
        [task, proof, options @ ..] => {
            is_argument(task.as_str()) && is_argument(proof.as_str()) && are_options(options)
        }
        [] => false,
        [_] => false,
    }
}

/// Whether the words are options of a check: at most these two, each with its value.
fn are_options(words: &[String]) -> bool
    ensures { result ≡ is_some (option_texts (map string_bytes words.now)) }
{
    match words {
        [] => true,
        [option, value] => {
            let option = option.as_str();
            is_argument(value.as_str()) && (is_nodes(option) || is_budget(option))
        }
        [option, value, other, second] => {
            let (option, other) = (option.as_str(), other.as_str());
            is_argument(value.as_str())
                && is_argument(second.as_str())
                && (is_nodes(option) && is_budget(other) || is_budget(option) && is_nodes(other))
        }
        [_] => false,
        [_, _, _] => false,
        [_, _, _, _, _, ..] => false,
    }
}

fn is_nodes(word: &str) -> bool
    ensures { result ≡ is_nodes word.now }
{
    word == "--nodes"
}

fn is_budget(word: &str) -> bool
    ensures { result ≡ is_budget word.now }
{
    word == "--budget"
}
