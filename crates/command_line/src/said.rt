//! What a line that fits says.

ghost use Rattle.std.specs.Prelude.{◌≡◌, ℕ, List, Option, Some, None, IfSome, option_map};
ghost use Rattle.std.specs.List.{list_all};
ghost use Rattle.clap.specs.Words.{Row, first_of, found_of, rows_of};
ghost use Rattle.command_line.specs.Words.{is_identifier_byte, IsNamed, IsNumber, IsNumberIn, IsNameIn, AreOptions, IsGoIn, IsRunIn, IsMeanIn, IsCommandIn};
ghost use Rattle.command_line.specs.declared.command.RunOptions.{RunOptions};
ghost use Rattle.command_line.specs.declared.command.Command.{Command};

use crate::command::{Command, RunOptions};
use clap::ArgMatches;
use type_layout::Name;

/// The most paragraphs that a word may say.
const MOST_PARAGRAPHS: u64 = 40_960;

/// The most instructions that a word may say.
const MOST_INSTRUCTIONS: u64 = 1_000_000_000_000_000_000;

/// The most turns that a word may say.
const MOST_TURNS: u64 = 1_000_000_000_000_000_000;

fn is_identifier_byte(byte: u8) -> bool
    ensures { result ≡ is_identifier_byte byte }
{
    byte.is_ascii_alphabetic() || byte == b'_' || byte.is_ascii_digit()
}

fn are_identifier_bytes(word: &[u8]) -> bool
    ensures { result ≡ list_all is_identifier_byte word.now }
{
    word.iter().all(|byte| is_identifier_byte(*byte))
}

/// The name that a word is: an identifier.
fn name_of(word: &str) -> Option<Name>
    ensures found { IfSome result (IsNamed word.now) }
    ensures only { (name : List ℕ) → IsNamed word.now name → result ≡ Some name }
{
    let bytes = word.as_bytes();
    if are_identifier_bytes(bytes) {
        Name::from_word(bytes)
    } else {
        None
    }
}

/// The number that a word is, in decimal digits, if it is at most so great.
fn number_of(word: &str, most: u64) -> Option<u64>
    ensures found { IfSome result (IsNumber most word.now) }
    ensures only { (number : ℕ) → IsNumber most word.now number → result ≡ Some number }
{
    match word.parse::<u64>() {
        Ok(number) => { if number <= most { Some(number) } else { None } }
        Err(_) => None,
    }
}

/// The text that was said under a name.
fn text<'a>(matches: &ArgMatches<'a>, id: &str) -> Option<&'a str>
    ensures { option_map (λ word. word.now) result ≡ first_of id.now (rows_of (found_of matches.now)) }
{
    matches.get_str(id)
}

/// The name that was said.
fn name_in(word: Option<&str>) -> Option<Name>
    ensures found { IfSome result (IsNameIn (option_map (λ text. text.now) word.entry)) }
    ensures only { (name : List ℕ) → IsNameIn (option_map (λ text. text.now) word.entry) name → result ≡ Some name }
{
    let said = word?;
    name_of(said)
}

/// The number that was said, if any was.
fn number_in(word: Option<&str>, most: u64) -> Option<Option<u64>>
    ensures found { IfSome result (IsNumberIn most (option_map (λ text. text.now) word.entry)) }
    ensures only { (number : Option ℕ) → IsNumberIn most (option_map (λ text. text.now) word.entry) number → result ≡ Some number }
{
    match word {
        Some(word) => {
            let number = number_of(word, most)?;
            Some(Some(number))
        }
        None => Some(None),
    }
}

/// The number of paragraphs that was said, if any was.
fn paragraphs_in(word: Option<&str>) -> Option<Option<u16>>
    ensures found { IfSome result (IsNumberIn MOST_PARAGRAPHS (option_map (λ text. text.now) word.entry)) }
    ensures only { (number : Option ℕ) → IsNumberIn MOST_PARAGRAPHS (option_map (λ text. text.now) word.entry) number → result ≡ Some number }
{
    match word {
        Some(word) => {
            let number = number_of(word, MOST_PARAGRAPHS)?;
            Some(Some(number as u16))
        }
        None => Some(None),
    }
}

/// The options of a run that were said.
fn options_in(matches: &ArgMatches<'_>) -> Option<RunOptions>
    ensures found { IfSome result (AreOptions (rows_of (found_of matches.now))) }
    ensures only { (options : RunOptions) → AreOptions (rows_of (found_of matches.now)) options → result ≡ Some options }
{
    let buffer = paragraphs_in(text(matches, "buffer"))?;
    let limit = number_in(text(matches, "limit"), MOST_INSTRUCTIONS)?;
    let retry = paragraphs_in(text(matches, "retry"))?;
    Some(RunOptions {
        buffer,
        limit,
        retry,
    })
}

/// What the line says. Options that its command does not use have no effect, but each must be well said.
pub fn command_in(matches: &ArgMatches<'_>) -> Option<Command>
    ensures found { IfSome result (IsCommandIn (rows_of (found_of matches.now))) }
    ensures go { (name : List ℕ) (options : RunOptions) → IsGoIn (rows_of (found_of matches.now)) name options → result ≡ Some (Command.Go name options) }
    ensures mean { (name : List ℕ) (turns : Option ℕ) → IsMeanIn (rows_of (found_of matches.now)) name turns → result ≡ Some (Command.Mean name turns) }
    ensures run { (name : List ℕ) (options : RunOptions) → IsRunIn (rows_of (found_of matches.now)) name options → result ≡ Some (Command.Run name options) }
{
    let options = options_in(matches)?;
    let turns = number_in(text(matches, "turns"), MOST_TURNS)?;
    let name = name_in(text(matches, "name"))?;
    let command = text(matches, "command")?;
    if command == "run" {
        return Some(Command::Run { name, options });
    }
    if command == "mean" {
        return Some(Command::Mean { name, turns });
    }
    if command == "go" {
        return Some(Command::Go { name, options });
    }
    None
}
