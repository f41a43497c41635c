//! From tokens to lexemes.

ghost use Rattle.std.specs.Prelude.{◌≡◌, ◌++◌, [], IfOk, OnOk};
ghost use Rattle.pascal_grammar.specs.lexeme_list.Lexemes.{given, lexeme_at, lexemes_of, first_kind, phase_behind, switches_behind, and_then};

use crate::lexeme_list::phase::Phase;
use crate::lexeme_list::word::{class_of, reserved_kind, symbol_kind};
use crate::{Kind, Lexeme, Position, Terminal};
use std::alloc::{AllocError, Global};
use tp_lexer::{Switches, Token, TokenKind};
use type_layout::Sequence;

// What the token is to the grammar; a directive where it may stand is nothing.
fn given(alloc: Global, phase: Phase, kind: &TokenKind) -> Result<Option<Terminal>, AllocError>
    ensures { IfOk result (λ terminal. terminal ≡ given phase kind.now) }
{
    Ok(match kind {
        TokenKind::Word(name) => Some(Terminal::Name(class_of(name.as_bytes()), name.copied())),
        TokenKind::Reserved(name) => Some(Terminal::Word(reserved_kind(name.as_bytes()))),
        TokenKind::Number(value) => Some(Terminal::Number(*value)),
        TokenKind::Real => Some(Terminal::Word(Kind::Real)),
        TokenKind::Chars(bytes) => Some(Terminal::Text(bytes.copied(alloc)?)),
        TokenKind::Symbol(symbol) => Some(Terminal::Word(symbol_kind(*symbol))),
        TokenKind::Switch(_) => None,
        TokenKind::Memory { .. } if phase.takes_memory() => None,
        TokenKind::Overlaid(_) if phase.takes_overlaid() => None,
        TokenKind::Memory { .. } | TokenKind::Overlaid(_) => Some(Terminal::Word(Kind::Stray)),
    })
}

/// The kind of the first token that is no directive.
pub fn first_kind(tokens: &[Token]) -> Option<Kind>
    ensures { result ≡ first_kind tokens.now }
{
    for token in tokens {
        match &token.kind {
            TokenKind::Switch(_) | TokenKind::Memory { .. } | TokenKind::Overlaid(_) => {}
            TokenKind::Reserved(name) => return Some(reserved_kind(name.as_bytes())),
            _ => return Some(Kind::Stray),
        }
    }
    None
}

// The lexeme that the token is.
fn lexeme_at(
    alloc: Global,
    phase: Phase,
    switches: Switches,
    token: &Token,
) -> Result<Option<Lexeme>, AllocError>
    ensures { IfOk result (λ lexeme. lexeme ≡ lexeme_at phase switches token.now) }
{
    match given(alloc, phase, &token.kind)? {
        None => Ok(None),
        Some(terminal) => {
            let position = Position {
                place: token.place,
                switches,
            };
            Ok(Some(Lexeme { terminal, position }))
        }
    }
}

// The phase behind a token.
fn phase_behind(phase: Phase, lexeme: &Option<Lexeme>) -> Phase
    ensures { result ≡ phase_behind phase lexeme.now }
{
    match lexeme {
        None => phase,
        Some(lexeme) => phase.after(lexeme.kind()),
    }
}

// The switches behind a token.
fn switches_behind(switches: Switches, kind: &TokenKind) -> Switches
    ensures { result ≡ switches_behind switches kind.now }
{
    match kind {
        TokenKind::Switch(next) => *next,
        _ => switches,
    }
}

fn add(all: &mut Sequence<Lexeme>, lexeme: Option<Lexeme>) -> Result<(), AllocError>
    ensures { OnOk result (all.new ≡ all.old ++ and_then lexeme []) }
{
    match lexeme {
        None => Ok(()),
        Some(lexeme) => all.push(lexeme),
    }
}

/// The lexemes of a list of tokens. Each has the switches that hold there; a directive where none may stand is a lexeme that
/// can stand nowhere.
pub fn lexemes_of(alloc: Global, tokens: &[Token]) -> Result<Sequence<Lexeme>, AllocError>
    ensures { IfOk result (λ all. all ≡ lexemes_of tokens.now) }
{
    let mut all = Sequence::new(alloc);
    let mut phase = Phase::first(first_kind(tokens));
    let mut switches = Switches {
        r: false,
        b: false,
        f: false,
        o: false,
    };
    for token in tokens {
        let lexeme = lexeme_at(alloc, phase, switches, token)?;
        phase = phase_behind(phase, &lexeme);
        add(&mut all, lexeme)?;
        switches = switches_behind(switches, &token.kind);
    }
    Ok(all)
}
