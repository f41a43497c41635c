//! Lexemes: tokens other than directives, with the switches that hold there.

ghost use Rattle.std.specs.Prelude.{◌≡◌, List, ℕ};
ghost use Rattle.pascal_grammar.specs.Lexemes.{class_kind, word_kind, kind_of, front_kind};

use crate::kind::Kind;
use tp_lexer::Switches;
use type_layout::{Bytes, Name, Place};

/// Where a construct or a lexeme begins, and the switches that hold there.
#[derive(Clone, Copy, Debug, PartialEq, Eq)]
pub struct Position {
    pub place: Place,
    pub switches: Switches,
}

/// Names by what they may mean to the grammar.
#[derive(Clone, Copy, Debug, PartialEq, Eq)]
pub enum NameClass {
    /// One letter: behind `^` it may be a control character.
    Letter,
    Absolute,
    External,
    Forward,
    Interrupt,
    Other,
}

/// What a lexeme is.
#[derive(Debug, Drop)]
pub enum Terminal {
    /// A reserved word, a symbol, or a number with a fraction or an exponent.
    Word(Kind),
    Name(NameClass, Name),
    Number(i32),
    Text(Bytes),
}

/// What a lexeme is, and where.
#[derive(Debug, Drop)]
pub struct Lexeme {
    pub terminal: Terminal,
    pub position: Position,
}

impl NameClass {
    /// The kind of a name of the class.
    pub fn kind(self) -> Kind
        ensures { result ≡ class_kind self }
    {
        match self {
            NameClass::Letter => Kind::Letter,
            NameClass::Absolute => Kind::Absolute,
            NameClass::External => Kind::External,
            NameClass::Forward => Kind::Forward,
            NameClass::Interrupt => Kind::Interrupt,
            NameClass::Other => Kind::Name,
        }
    }
}

// The kind of a word or symbol; what has a content of its own is none.
fn word_kind(kind: Kind) -> Kind
    ensures { result ≡ word_kind kind }
{
    match kind {
        Kind::Letter
        | Kind::Absolute
        | Kind::External
        | Kind::Forward
        | Kind::Interrupt
        | Kind::Name
        | Kind::Number
        | Kind::Text => Kind::Stray,
        _ => kind,
    }
}

impl Lexeme {
    /// The kind of the lexeme.
    pub fn kind(&self) -> Kind
        ensures { result ≡ kind_of self.now }
    {
        match &self.terminal {
            Terminal::Word(kind) => word_kind(*kind),
            Terminal::Name(class, _) => class.kind(),
            Terminal::Number(_) => Kind::Number,
            Terminal::Text(_) => Kind::Text,
        }
    }
}

/// The kind of the first lexeme.
pub fn front_kind(lexemes: &[Lexeme]) -> Option<Kind>
    ensures { result ≡ front_kind lexemes.now }
{
    match lexemes {
        [lexeme, ..] => Some(lexeme.kind()),
        [] => None,
    }
}
