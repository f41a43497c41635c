//! Texts as rows have them, and as tokens.

use std::alloc::{AllocError, Global};
use test_rows::repeated;
use tp_lexer::{Text, TokenList, tokens};
use type_layout::{Bytes, FileName, Name};

// A piece of a text that stands behind a backslash.
fn push_control(out: &mut String, piece: &str) -> Result<(), AllocError> {
    for (letter, control) in [("n", "\n"), ("r", "\r"), ("t", "\t"), ("z", "\x1a")] {
        if let Some(rest) = piece.strip_prefix(letter) {
            out.push_str(control)?;
            return out.push_str(rest);
        }
    }
    Err(AllocError)
}

/// The text that a row stands for: what stands between back quotes is repeated; `\n`, `\r`, `\t` and `\z` are a line's end, a
/// return, a tab and the byte that ends a text.
pub(crate) fn written_out(alloc: Global, source: &str) -> Result<String, AllocError> {
    let whole = repeated(alloc, source)?;
    let mut out = String::new(alloc);
    let mut is_first = true;
    for piece in whole.as_str().split('\\') {
        if is_first {
            out.push_str(piece)?;
        } else {
            push_control(&mut out, piece)?;
        }
        is_first = false;
    }
    Ok(out)
}

fn file_name(text: &str) -> Result<FileName, AllocError> {
    match FileName::new(text) {
        Some(name) => Ok(name),
        None => Err(AllocError),
    }
}

fn text_named(alloc: Global, name: FileName, source: &str) -> Result<Text, AllocError> {
    let bytes = Bytes::from_slice(alloc, source.as_bytes())?;
    Ok(Text { name, bytes })
}

/// A text of this name.
pub(crate) fn text_of(alloc: Global, name: &str, source: &str) -> Result<Text, AllocError> {
    text_named(alloc, file_name(name)?, source)
}

/// Texts, each behind its name.
pub(crate) fn texts_in(alloc: Global, sources: &str) -> Result<Vec<Text>, AllocError> {
    let mut texts = Vec::new(alloc);
    let mut name: Option<FileName> = None;
    for piece in sources.split(" | ") {
        match name.take() {
            Some(before) => texts.push(text_named(alloc, before, piece)?)?,
            None => name = Some(file_name(piece)?),
        }
    }
    Ok(texts)
}

/// Names, with blanks between them.
pub(crate) fn names_in(alloc: Global, words: &str) -> Result<Vec<Name>, AllocError> {
    let mut names = Vec::new(alloc);
    for word in words.split(' ') {
        if let Some(name) = Name::new(word.as_bytes()) {
            names.push(name)?;
        }
    }
    Ok(names)
}

/// The tokens of a text.
pub(crate) fn tokens_of(alloc: Global, source: &str) -> Result<TokenList, AllocError> {
    let text = text_of(alloc, "a.pas", source)?;
    match tokens(alloc, &[text], 0, &[]) {
        Ok(list) => Ok(list),
        Err(_) => Err(AllocError),
    }
}
