//! Trees from texts. A text that is none is a mistake of the test, and told as an error.

use expression_parser::{read_expression, read_simple};
use pascal_grammar::Lexeme;
use pascal_grammar::lexeme_list::lexemes_of;
use std::alloc::{AllocError, Global};
use syntax_tree::{Expression, SimpleExpression};
use tp_lexer::{Text, tokens};
use type_layout::{Bytes, FileName, Sequence};

fn text(alloc: Global, source: &str) -> Result<Text, AllocError> {
    match FileName::new("a.pas") {
        Some(name) => Ok(Text {
            name,
            bytes: Bytes::from_slice(alloc, source.as_bytes())?,
        }),
        None => Err(AllocError),
    }
}

fn texts(alloc: Global, source: &str) -> Result<Vec<Text>, AllocError> {
    let mut texts = Vec::new(alloc);
    texts.push(text(alloc, source)?)?;
    Ok(texts)
}

fn lexemes_in(alloc: Global, texts: &[Text]) -> Result<Sequence<Lexeme>, AllocError> {
    if texts.is_empty() {
        return Err(AllocError);
    }
    match tokens(alloc, texts, 0, &[]) {
        Ok(list) => lexemes_of(alloc, list.as_slice()),
        Err(_) => Err(AllocError),
    }
}

/// The lexemes of a text, which begins in column 1 of line 1.
pub fn lexemes(alloc: Global, source: &str) -> Result<Sequence<Lexeme>, AllocError> {
    let texts = texts(alloc, source)?;
    lexemes_in(alloc, texts.as_slice())
}

/// The expression that a text begins with.
pub fn expression(alloc: Global, source: &str) -> Result<Expression, AllocError> {
    let list = lexemes(alloc, source)?;
    match read_expression(alloc, 200, list.as_slice()) {
        Ok((tree, _)) => Ok(tree),
        Err(_) => Err(AllocError),
    }
}

/// The simple expression that a text begins with, as a constant is spelled.
pub fn constant(alloc: Global, source: &str) -> Result<SimpleExpression, AllocError> {
    let list = lexemes(alloc, source)?;
    match read_simple(alloc, 200, list.as_slice()) {
        Ok((tree, _)) => Ok(tree),
        Err(_) => Err(AllocError),
    }
}
