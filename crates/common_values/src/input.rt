//! Reading. The input is what is left of the bytes behind all that was read; Eof is at byte 26 or where none is left.

ghost use Rattle.std.specs.Prelude.{◌≡◌, ◌≤◌, true, List, ℕ, length};
ghost use Rattle.std.specs.List.{prefix_len};
ghost use Rattle.common_values.specs.Input.{
  is_eof as at_eof,
  is_eoln as at_eoln,
  ends_line as line_byte,
  is_text_byte as text_byte,
  is_separator as separator,
  is_word_byte as word_byte,
  char_read as char_of,
  string_read as string_of,
  number_of as word_number,
  word_read as word_of,
  number_read as number_in,
  after_separators as behind_separators,
  after_13 as behind_13,
  after_line as behind_line,
};
ghost use Rattle.common_values.specs.InputLaws.{EofLaws, TakingLaws};

use crate::numerals::{is_gap_byte, numeral_of};
use std::cmp::min;

const EOF: u8 = 26;

/// Whether Eof is met: at byte 26 and at the end of the input.
pub fn is_eof(input: &[u8]) -> bool
    ensures { result ≡ at_eof input.now }
{
    matches!(input, [] | [EOF, ..])
}

/// Byte 13 or byte 10.
pub fn ends_line(byte: u8) -> bool
    ensures { result ≡ line_byte byte }
{
    matches!(byte, b'\r' | b'\n')
}

/// Whether the line ends here: at byte 13, at byte 10 and at Eof.
pub fn is_eoln(input: &[u8]) -> bool
    ensures { result ≡ at_eoln input.now }
{
    match input {
        [] => true,
        [byte, ..] => ends_line(*byte) || *byte == EOF,
    }
}

/// A Char, and the input behind it; byte 26 at Eof.
pub fn read_char(input: &[u8]) -> (u8, &[u8])
    ensures { (result.0, result.1.now) ≡ char_of input.now }
{
    match input {
        [] | [EOF, ..] => (EOF, input),
        [byte, rest @ ..] => (*byte, rest),
    }
}

fn is_text_byte(byte: u8) -> bool
    ensures { result ≡ text_byte byte }
{
    !(ends_line(byte) || byte == EOF)
}

/// How many bytes stand before the end of the line.
fn line_length(input: &[u8]) -> usize
    ensures value { result ≡ prefix_len text_byte input.now }
    ensures within { result ≤ length input.now }
{
    input.iter().take_while(|byte| is_text_byte(**byte)).count()
}

/// A string of at most `size` bytes, up to the end of the line, and the input behind it.
pub fn read_string(input: &[u8], size: u8) -> (&[u8], &[u8])
    ensures { (result.0.now, result.1.now) ≡ string_of size input.now }
{
    input.split_at(min(usize::from(size), line_length(input)))
}

fn is_separator(byte: u8) -> bool
    ensures { result ≡ separator byte }
{
    is_gap_byte(byte) || ends_line(byte)
}

fn is_word_byte(byte: u8) -> bool
    ensures { result ≡ word_byte byte }
{
    !(is_separator(byte) || byte == EOF)
}

/// How many blanks, tabs and line ends come first.
fn separator_count(input: &[u8]) -> usize
    ensures value { result ≡ prefix_len separator input.now }
    ensures within { result ≤ length input.now }
{
    input.iter().take_while(|byte| is_separator(**byte)).count()
}

fn after_separators(input: &[u8]) -> &[u8]
    ensures { result.now ≡ behind_separators input.now }
{
    let (_, rest) = input.split_at(separator_count(input));
    rest
}

/// How many bytes the word has that comes first.
fn word_length(input: &[u8]) -> usize
    ensures value { result ≡ prefix_len word_byte input.now }
    ensures within { result ≤ length input.now }
{
    input.iter().take_while(|byte| is_word_byte(**byte)).count()
}

fn read_word(input: &[u8]) -> (&[u8], &[u8])
    ensures { (result.0.now, result.1.now) ≡ word_of input.now }
{
    input.split_at(word_length(input))
}

/// The number of a word; 0 of none, and None of a word that is no numeral.
fn number_of(word: &[u8]) -> Option<i32>
    ensures { result ≡ word_number word.now }
{
    match word {
        [] => Some(0),
        _ => numeral_of(word).ok(),
    }
}

/// A number: the word behind blanks, tabs and line ends, and the input behind it. At Eof it is 0. None
/// is error 106: the word is no numeral in LongInt.
pub fn read_number(input: &[u8]) -> (Option<i32>, &[u8])
    ensures { (result.0, result.1.now) ≡ number_in input.now }
{
    let (word, rest) = read_word(after_separators(input));
    (number_of(word), rest)
}

/// ReadLn: the input behind the next 13 10, lone 13 or lone 10, or from Eof on.
pub fn after_line(input: &[u8]) -> &[u8]
    ensures { result.now ≡ behind_line input.now }
{
    let mut rest = input;
    'bytes: while let [byte, after @ ..] = rest {
        match *byte {
            EOF => break,
            b'\r' => return after_13(after),
            b'\n' => return after,
            _ => rest = after,
        }
    }
    rest
}

/// What follows a line end of which 13 is taken.
fn after_13(rest: &[u8]) -> &[u8]
    ensures { result.now ≡ behind_13 rest.now }
{
    match rest {
        [b'\n', after @ ..] => after,
        _ => rest,
    }
}

/// The laws of reading; it does nothing.
pub fn input_laws()
    ensures eof { (input : List ℕ) → at_eof input ≡ true → EofLaws input }
    ensures taking { TakingLaws }
{}
