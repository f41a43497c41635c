//! What is asked of texts: their tokens, and the feature of a name.
//!
//! Tokens are words, reserved words behind `!`, numbers, texts between quotes, symbols, and what directives say.

use crate::outcome::put_place;
use crate::texts::{names_in, text_of, texts_in};
use std::alloc::{AllocError, Global};
use test_rows::{Line, part, put, put_number, put_numbered, put_shown, put_text, put_truth};
use tp_lexer::left_out_names::feature_of;
use tp_lexer::{LexError, Switches, Text, Token, TokenKind, tokens};
use type_layout::{Name, Place};

fn put_switches(out: &mut Line, switches: Switches) {
    put(out, "switches");
    for holds in [switches.r, switches.b, switches.f, switches.o] {
        put(out, " ");
        put_truth(out, holds);
    }
}

fn put_named(out: &mut Line, before: &str, name: &Name) {
    put(out, before);
    put_text(out, name.as_bytes());
}

fn put_token(out: &mut Line, token: &Token) {
    match &token.kind {
        TokenKind::Word(name) => put_named(out, "", name),
        TokenKind::Reserved(name) => put_named(out, "!", name),
        TokenKind::Number(number) => put_number(out, i64::from(*number)),
        TokenKind::Real => put(out, "real"),
        TokenKind::Chars(bytes) => {
            put(out, "'");
            put_text(out, bytes.as_slice());
            put(out, "'");
        }
        TokenKind::Symbol(symbol) => put_shown(out, symbol),
        TokenKind::Switch(switches) => put_switches(out, *switches),
        TokenKind::Memory { stack, max } => {
            put_numbered(out, "memory ", u64::from(*stack));
            put_numbered(out, " ", u64::from(*max));
        }
        TokenKind::Overlaid(name) => put_named(out, "overlaid ", name),
    }
}

fn put_fault(out: &mut Line, cause: &str, place: Place) {
    put(out, cause);
    put_numbered(out, " ", u64::from(place.text));
    put(out, ":");
    put_place(out, place);
}

fn put_error(out: &mut Line, error: &LexError) {
    match error {
        LexError::NoMemory => put(out, "no memory"),
        LexError::BadCharacter { place } => put_fault(out, "BadCharacter", *place),
        LexError::OpenComment { place } => put_fault(out, "OpenComment", *place),
        LexError::OpenString { place } => put_fault(out, "OpenString", *place),
        LexError::BadNumber { place } => put_fault(out, "BadNumber", *place),
        LexError::BadDirective { place } => put_fault(out, "BadDirective", *place),
        LexError::OpenCondition { place } => put_fault(out, "OpenCondition", *place),
        LexError::MissingInclude { place, name } => {
            put_text(out, name.as_bytes());
            put_fault(out, " MissingInclude", *place);
        }
        LexError::NotInProfile { place, feature } => {
            put_shown(out, feature);
            put_fault(out, " NotInProfile", *place);
        }
    }
}

// The tokens of the first text where these names are defined, or the first rule that it breaks and its place.
fn put_tokens(alloc: Global, out: &mut Line, texts: &[Text], names: &[Name]) {
    if texts.is_empty() {
        return;
    }
    match tokens(alloc, texts, 0, names) {
        Ok(list) => {
            for token in list.as_slice() {
                part(out, " ");
                put_token(out, token);
            }
        }
        Err(error) => put_error(out, &error),
    }
}

fn put_defined(alloc: Global, out: &mut Line, words: &str, source: &str) -> Result<(), AllocError> {
    let names = names_in(alloc, words)?;
    let text = text_of(alloc, "a.pas", source)?;
    put_tokens(alloc, out, &[text], names.as_slice());
    Ok(())
}

// The feature of a name that the profile leaves out.
fn put_feature(out: &mut Line, word: &str) {
    match Name::new(word.as_bytes()) {
        Some(name) => match feature_of(&name) {
            Some(feature) => put_shown(out, &feature),
            None => put(out, "none"),
        },
        None => put(out, "no name"),
    }
}

/// Writes what a text is answered, if this is asked of it: its tokens, those where names are defined, which stand in front of it,
/// those of the first of some texts, each behind its name, or the feature of a name.
pub(crate) fn put_answer(
    alloc: Global,
    out: &mut Line,
    asked: &str,
    source: &str,
) -> Result<bool, AllocError> {
    match asked {
        "tokens" => put_defined(alloc, out, "", source)?,
        "tokens where defined" => {
            let (words, rest) = source.split_once(" | ").unwrap_or(("", source));
            put_defined(alloc, out, words, rest)?;
        }
        "tokens of texts" => {
            let texts = texts_in(alloc, source)?;
            put_tokens(alloc, out, texts.as_slice(), &[]);
        }
        "feature" => put_feature(out, source),
        _ => return Ok(false),
    }
    Ok(true)
}
