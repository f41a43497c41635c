//! Directives.

ghost use Rattle.std.specs.Prelude.{◌≡◌, IfOk};
ghost use Rattle.tp_lexer.specs.Directives.{word_at, after_word, without_blanks, argument, letter_of, sign_of, no_changes, changed, switched, changes_from, option_of, sized, is_comma, lone, memory_of, keyword_of, keyed, switches_piece, link_piece, keyword_piece, directive_piece};
ghost use Rattle.std.specs.List.{before_first, after_first, list_all};
ghost use Rattle.tp_lexer.specs.Characters.{is_blank};

use crate::characters::{before_comma_len, blanks_len, is_blank, unbroken_len};
use crate::file_name::file_name_of;
use crate::piece::{Fault, Piece};
use crate::value::number_of;
use crate::word::name_of;
use std::alloc::{AllocError, Global};
use type_layout::{FileName, Name};

/// The letters of switches.
#[derive(Clone, Copy, Debug, PartialEq, Eq)]
pub enum Letter {
    A,
    B,
    D,
    E,
    F,
    I,
    L,
    N,
    O,
    R,
    S,
    V,
}

/// What a list of switches changes, and whether it asks for what is left out.
#[derive(Clone, Copy, Debug, PartialEq, Eq)]
pub struct Changes {
    pub r: Option<bool>,
    pub b: Option<bool>,
    pub f: Option<bool>,
    pub o: Option<bool>,
    pub left_out: bool,
}

/// What a condition asks.
#[derive(Debug, Drop)]
pub enum Test {
    /// Whether the name is defined.
    Defined(Name),
    /// Whether the name is not defined.
    Undefined(Name),
    /// Whether the switch is in this state.
    Switched(Letter, bool),
}

/// A directive that the profile has.
#[derive(Debug, Drop)]
pub enum Directive {
    Switches(Changes),
    Memory { stack: u32, max: u32 },
    Overlaid(Name),
    Include(FileName),
    Define(Name),
    Undefine(Name),
    If(Test),
    Else,
    EndIf,
}

/// The word of a directive that is no list of switches.
#[derive(Clone, Copy, Debug, PartialEq, Eq)]
pub enum Keyword {
    Memory,
    Overlaid,
    Include,
    Link,
    Define,
    Undefine,
    IfDefined,
    IfUndefined,
    IfOption,
    Else,
    EndIf,
}

/// The bytes up to the first blank.
pub fn word_at(bytes: &[u8]) -> &[u8]
    ensures { result.now ≡ word_at bytes.now }
{
    &bytes[..unbroken_len(bytes)]
}

fn after_word(bytes: &[u8]) -> &[u8]
    ensures { result.now ≡ after_word bytes.now }
{
    &bytes[unbroken_len(bytes)..]
}

fn without_blanks(bytes: &[u8]) -> &[u8]
    ensures { result.now ≡ without_blanks bytes.now }
{
    &bytes[blanks_len(bytes)..]
}

// The next word.
fn argument(bytes: &[u8]) -> &[u8]
    ensures { result.now ≡ argument bytes.now }
{
    word_at(without_blanks(bytes))
}

fn letter_of(byte: u8) -> Option<Letter>
    ensures { result ≡ letter_of byte }
{
    match byte.to_ascii_uppercase() {
        b'A' => Some(Letter::A),
        b'B' => Some(Letter::B),
        b'D' => Some(Letter::D),
        b'E' => Some(Letter::E),
        b'F' => Some(Letter::F),
        b'I' => Some(Letter::I),
        b'L' => Some(Letter::L),
        b'N' => Some(Letter::N),
        b'O' => Some(Letter::O),
        b'R' => Some(Letter::R),
        b'S' => Some(Letter::S),
        b'V' => Some(Letter::V),
        _ => None,
    }
}

fn sign_of(byte: u8) -> Option<bool>
    ensures { result ≡ sign_of byte }
{
    match byte {
        b'+' => Some(true),
        b'-' => Some(false),
        _ => None,
    }
}

fn changed(changes: Changes, letter: Letter, on: bool) -> Changes
    ensures { result ≡ changed changes letter on }
{
    let mut after = changes;
    match letter {
        Letter::R => after.r = Some(on),
        Letter::B => after.b = Some(on),
        Letter::F => after.f = Some(on),
        Letter::O => after.o = Some(on),
        Letter::I | Letter::V => after.left_out = after.left_out || !on,
        Letter::N => after.left_out = after.left_out || on,
        _ => {}
    }
    after
}

fn switched(changes: Changes, letter: u8, sign: u8) -> Option<Changes>
    ensures { result ≡ switched changes letter sign }
{
    let letter = letter_of(letter)?;
    let on = sign_of(sign)?;
    Some(changed(changes, letter, on))
}

// What a list of switches changes.
#[tactic(auto, using(crate::proofs::SwitchLists::switch_lists))]
fn changes_of(word: &[u8]) -> Option<Changes>
    ensures { result ≡ changes_from no_changes word.now }
{
    let mut changes = Changes {
        r: None,
        b: None,
        f: None,
        o: None,
        left_out: false,
    };
    let mut rest = word;
    while rest.len() > 2 {
        if rest[2] != b',' {
            return None;
        }
        match switched(changes, rest[0], rest[1]) {
            Some(after) => changes = after,
            None => return None,
        }
        rest = rest.split_at(3).1;
    }
    if rest.len() == 2 {
        switched(changes, rest[0], rest[1])
    } else {
        None
    }
}

fn option_of(bytes: &[u8]) -> Option<Test>
    ensures { result ≡ option_of bytes.now }
{
    if bytes.len() != 2 {
        return None;
    }
    let letter = letter_of(bytes[0])?;
    let on = sign_of(bytes[1])?;
    Some(Test::Switched(letter, on))
}

fn sized(stack: Option<u32>, low: Option<u32>, high: Option<u32>) -> Option<Directive>
    ensures { result ≡ sized stack low high }
{
    match (stack, low, high) {
        (Some(stack), Some(low), Some(high)) => {
            if 1024 <= stack && stack <= 65_520 && low <= high && high <= 655_360 {
                Some(Directive::Memory { stack, max: high })
            } else {
                None
            }
        }
        _ => None,
    }
}

fn before_comma(bytes: &[u8]) -> &[u8]
    ensures { result.now ≡ before_first is_comma bytes.now }
{
    &bytes[..before_comma_len(bytes)]
}

fn after_comma(bytes: &[u8]) -> &[u8]
    ensures { result.now ≡ after_first is_comma bytes.now }
{
    let front = before_comma_len(bytes);
    if front < bytes.len() {
        &bytes[front + 1..]
    } else {
        &[]
    }
}

fn is_blank_text(bytes: &[u8]) -> bool
    ensures { result ≡ list_all is_blank bytes.now }
{
    bytes.iter().all(|byte| is_blank(*byte))
}

// The word that stands alone between blanks, or nothing.
fn lone(bytes: &[u8]) -> &[u8]
    ensures { result.now ≡ lone bytes.now }
{
    if is_blank_text(after_word(without_blanks(bytes))) {
        argument(bytes)
    } else {
        &[]
    }
}

fn memory_of(bytes: &[u8]) -> Option<Directive>
    ensures { result ≡ memory_of bytes.now }
{
    let heap = after_comma(bytes);
    let stack = number_of(lone(before_comma(bytes)));
    let low = number_of(lone(before_comma(heap)));
    let high = number_of(argument(after_comma(heap)));
    sized(stack, low, high)
}

/// The word of a directive that is no list of switches.
pub fn keyword_of(word: &[u8]) -> Option<Keyword>
    ensures { result ≡ keyword_of word.now }
{
    let name = name_of(word)?;
    let name = name.as_bytes();
    if name == b"M".as_slice() {
        Some(Keyword::Memory)
    } else if name == b"O".as_slice() {
        Some(Keyword::Overlaid)
    } else if name == b"I".as_slice() {
        Some(Keyword::Include)
    } else if name == b"L".as_slice() {
        Some(Keyword::Link)
    } else if name == b"DEFINE".as_slice() {
        Some(Keyword::Define)
    } else if name == b"UNDEF".as_slice() {
        Some(Keyword::Undefine)
    } else if name == b"IFDEF".as_slice() {
        Some(Keyword::IfDefined)
    } else if name == b"IFNDEF".as_slice() {
        Some(Keyword::IfUndefined)
    } else if name == b"IFOPT".as_slice() {
        Some(Keyword::IfOption)
    } else if name == b"ELSE".as_slice() {
        Some(Keyword::Else)
    } else if name == b"ENDIF".as_slice() {
        Some(Keyword::EndIf)
    } else {
        None
    }
}

// A directive by its word and by what stands behind it.
fn keyed(alloc: Global, keyword: Keyword, rest: &[u8]) -> Result<Option<Directive>, AllocError>
    ensures { IfOk result (λ directive. directive ≡ keyed keyword rest.now) }
{
    Ok(match keyword {
        Keyword::Memory => memory_of(rest),
        Keyword::Overlaid => name_of(argument(rest)).map(Directive::Overlaid),
        Keyword::Include => file_name_of(alloc, argument(rest))?.map(Directive::Include),
        Keyword::Link => None,
        Keyword::Define => name_of(argument(rest)).map(Directive::Define),
        Keyword::Undefine => name_of(argument(rest)).map(Directive::Undefine),
        Keyword::IfDefined => name_of(argument(rest)).map(|name| Directive::If(Test::Defined(
            name,
        ))),
        Keyword::IfUndefined => name_of(argument(rest)).map(|name| Directive::If(Test::Undefined(
            name,
        ))),
        Keyword::IfOption => option_of(argument(rest)).map(Directive::If),
        Keyword::Else => Some(Directive::Else),
        Keyword::EndIf => Some(Directive::EndIf),
    })
}

fn switches_piece(changes: Changes) -> Piece
    ensures { result ≡ switches_piece changes }
{
    if changes.left_out {
        Piece::Fault(Fault::LeftOut)
    } else {
        Piece::Directive(Directive::Switches(changes))
    }
}

// A file that is to be linked.
fn link_piece(name: &[u8]) -> Piece
    ensures { result ≡ link_piece name.now }
{
    if name.is_empty() {
        Piece::Fault(Fault::BadDirective)
    } else {
        Piece::Fault(Fault::LeftOut)
    }
}

// What a directive with a word is.
fn keyword_piece(alloc: Global, keyword: Option<Keyword>, rest: &[u8]) -> Result<Piece, AllocError>
    ensures { IfOk result (λ piece. piece ≡ keyword_piece keyword rest.now) }
{
    match keyword {
        None => Ok(Piece::Fault(Fault::BadDirective)),
        Some(Keyword::Link) => Ok(link_piece(argument(rest))),
        Some(keyword) => match keyed(alloc, keyword, rest)? {
            None => Ok(Piece::Fault(Fault::BadDirective)),
            Some(directive) => Ok(Piece::Directive(directive)),
        },
    }
}

/// The directive whose text, between `$` and the closer, this is.
pub fn directive_piece(alloc: Global, body: &[u8]) -> Result<Piece, AllocError>
    ensures { IfOk result (λ piece. piece ≡ directive_piece body.now) }
{
    let word = word_at(body);
    match changes_of(word) {
        Some(changes) => Ok(switches_piece(changes)),
        None => keyword_piece(alloc, keyword_of(word), after_word(body)),
    }
}
