//! Reads a program of ordinary Pascal, so many bytes long, by the lexer alone and up to its tree, each so many times over: to time the
//! lexer and the parser.
#![tactic(auto)]

mod source;

use crate::source::{MAIN, ORDINARY};
use std::alloc::{AllocError, Global};
use std::{env, io};
use syntax_tree::source_tree::Tree;
use tp_lexer::{Text, TokenList, tokens};
use tp_parser::parse;
use type_layout::{Bytes, FileName};

/// The declarations as often as they fit into so many bytes beside a main part, which stands behind them, and then blanks.
fn ordinary(alloc: Global, length: usize) -> Result<Vec<u8>, AllocError> {
    let source = ORDINARY.as_bytes();
    let room = length.saturating_sub(MAIN.len());
    let mut bytes = Vec::new(alloc);
    for _ in 0..room.checked_div(source.len()).unwrap_or(0) {
        bytes.extend_from_slice(source)?;
    }
    bytes.extend_from_slice(MAIN.as_bytes())?;
    for _ in bytes.len()..length {
        bytes.push(b' ')?;
    }
    Ok(bytes)
}

/// The texts of a program that has this one alone.
fn alone(alloc: Global, bytes: Vec<u8>) -> Result<Vec<Text>, AllocError> {
    let mut texts = Vec::new(alloc);
    if let Some(name) = FileName::new("a.pas") {
        let bytes = Bytes::from_vec(bytes);
        match texts.push(Text { name, bytes }) {
            Ok(()) => {}
            Err(_) => return Err(AllocError),
        }
    }
    Ok(texts)
}

/// The tokens of the first text, if it has any text and breaks no rule.
fn lexed(alloc: Global, texts: &[Text]) -> Option<TokenList> {
    if texts.is_empty() {
        return None;
    }
    tokens(alloc, texts, 0, &[]).ok()
}

/// How many declarations the program has that the first text spells, if it spells one.
fn parsed(alloc: Global, texts: &[Text]) -> Option<usize> {
    let list = lexed(alloc, texts)?;
    match parse(alloc, list.as_slice()) {
        Ok(Tree::Program { declarations, .. }) => Some(declarations.len()),
        _ => None,
    }
}

fn show(rt: &HostRuntime, length: usize, found: Option<usize>, what: &str) -> io::Result<()> {
    match found {
        Some(found) => println!(rt; "{length} bytes are {found} {what}"),
        None => println!(rt; "{length} bytes are not read"),
    }
}

fn main(rt: HostRuntime) -> io::Result<()> {
    let mut numbers = [5000usize, 1, 1];
    for (number, text) in numbers.iter_mut().zip(env::args(&rt)?.skip(1)) {
        *number = text.parse().unwrap_or(*number);
    }
    let [length, lexings, parsings] = numbers;
    let bytes = ordinary(rt.alloc(), length)?;
    let texts = alone(rt.alloc(), bytes)?;
    let mut found = None;
    for _ in 0..lexings {
        found = lexed(rt.alloc(), texts.as_slice()).map(|list| list.as_slice().len());
    }
    if lexings > 0 {
        show(&rt, length, found, "tokens")?;
    }
    for _ in 0..parsings {
        found = parsed(rt.alloc(), texts.as_slice());
    }
    if parsings > 0 {
        show(&rt, length, found, "declarations")?;
    }
    Ok(())
}
