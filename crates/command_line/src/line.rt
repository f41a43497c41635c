//! The command line, and the words that are read by it.

ghost use Rattle.std.specs.Prelude.{◌≡◌, ℕ, List, [], Option, false, None, Some, Ok, map, string_bytes, codes, IfOk, IfSome};
ghost use Rattle.clap.specs.Words.{app_of, rule_of, found_of, rows_of, FailsBy};
ghost use Rattle.command_line.specs.Line.{word_rule, option_rule, bare, command_line, faults, said};
ghost use Rattle.command_line.specs.Words.{IsGo, IsRun, IsMean, IsHelp, IsVersion, IsSingle, IsCommand};
ghost use Rattle.command_line.specs.declared.command.RunOptions.{RunOptions};
ghost use Rattle.command_line.specs.declared.command.Command.{Command};

use crate::command::Command;
use crate::said::command_in;
use clap::error::ErrorKind;
use clap::{Arg, ArgMatches};
use std::alloc::{AllocError, Global};

/// A word by its place.
fn word<'a>(alloc: Global, id: &'a str) -> Arg<'a>
    ensures rule { rule_of result ≡ word_rule id.now }
    ensures own { result.global ≡ false }
{
    Arg::new(alloc, id).required(true)
}

/// A value behind the name of the option.
fn option<'a>(alloc: Global, id: &'a str) -> Arg<'a>
    ensures rule { rule_of result ≡ option_rule id.now }
    ensures own { result.global ≡ false }
{
    Arg::new(alloc, id).long(id)
}

/// A command line without arguments.
fn bare<'a>(alloc: Global) -> clap::Command<'a>
    ensures { app_of result ≡ bare }
{
    clap::Command::new(alloc, "tp")
        .no_binary_name(true)
        .disable_help_flag(true)
}

/// The command line of `tp`.
fn command_line<'a>(alloc: Global) -> Result<clap::Command<'a>, AllocError>
    ensures { IfOk result (λ line. app_of line ≡ command_line) }
{
    bare(alloc)
        .arg(word(alloc, "command"))?
        .arg(word(alloc, "name"))?
        .arg(option(alloc, "buffer"))?
        .arg(option(alloc, "limit"))?
        .arg(option(alloc, "retry"))?
        .arg(option(alloc, "turns"))
}

/// What was said, where the words fit.
fn matches<'a>(alloc: Global, words: &'a [String]) -> Result<ArgMatches<'a>, clap::Error>
    ensures matches { IfOk result (λ matches. rows_of (found_of matches) ≡ said (map string_bytes words.now)) }
    ensures fits { FailsBy (faults (map string_bytes words.now)) result }
{
    command_line(alloc)?.try_get_matches_from(words)
}

/// What a word asks for that stands alone.
#[tactic(auto, using(crate::proofs::LineLaws::apart))]
fn single(word: &str) -> Option<Command>
    ensures found { IfSome result (IsSingle word.now) }
    ensures help { word.now ≡ codes "--help" → result ≡ Some Command.Help }
    ensures version { word.now ≡ codes "--version" → result ≡ Some Command.Version }
{
    if word == "--help" {
        return Some(Command::Help);
    }
    if word == "--version" {
        return Some(Command::Version);
    }
    None
}

/// What the words ask for, where they are a single one.
fn single_of(words: &[String]) -> Option<Command>
    ensures found { IfSome result (IsCommand (map string_bytes words.now)) }
    ensures help { IsHelp (map string_bytes words.now) → result ≡ Some Command.Help }
    ensures version { IsVersion (map string_bytes words.now) → result ≡ Some Command.Version }
    ensures not_fit { faults (map string_bytes words.now) ≡ [] → result ≡ None }
{
    if words.len() != 1 {
        return None;
    }
    single(words[0].as_str())
}

/// What the words ask for, or None where they ask for nothing that there is.
pub fn command_of(alloc: Global, words: &[String]) -> Result<Option<Command>, AllocError>
    ensures found { IfOk result (λ command. IfSome command (IsCommand (map string_bytes words.now))) }
    ensures go { IfOk result (λ command. (name : List ℕ) (options : RunOptions) → IsGo (map string_bytes words.now) name options
        → command ≡ Some (Command.Go name options)) }
    ensures run { IfOk result (λ command. (name : List ℕ) (options : RunOptions) → IsRun (map string_bytes words.now) name options
        → command ≡ Some (Command.Run name options)) }
    ensures mean { IfOk result (λ command. (name : List ℕ) (turns : Option ℕ) → IsMean (map string_bytes words.now) name turns
        → command ≡ Some (Command.Mean name turns)) }
    ensures help { IsHelp (map string_bytes words.now) → result ≡ Ok (Some Command.Help) }
    ensures version { IsVersion (map string_bytes words.now) → result ≡ Ok (Some Command.Version) }
{
    if let Some(command) = single_of(words) {
        return Ok(Some(command));
    }
    match matches(alloc, words) {
        Ok(matches) => Ok(command_in(&matches)),
        Err(error) => {
            if error.kind() == ErrorKind::OutOfMemory {
                return Err(AllocError);
            }
            Ok(None)
        }
    }
}
