//! Sources with what is known where they stand.

use std::alloc::{AllocError, Global};
use tp_lexer::source_directives::{Directives, directives_of};
use tp_lexer::{Text, Token, TokenList, tokens};
use tp_parser::{Tree, interface_uses, parse, uses_of};
use type_layout::{Bytes, FileName, Name, Names};
use unit_interface::Interface;

/// A source as the file of a name.
#[derive(Drop)]
pub(crate) struct Source {
    pub name: Name,
    pub says: Directives,
    pub tree: Tree,
}

fn text_of(alloc: Global, source: &str) -> Result<Text, AllocError> {
    let Some(name) = FileName::new("u.pas") else {
        return Err(AllocError);
    };
    let bytes = Bytes::from_slice(alloc, source.as_bytes())?;
    Ok(Text { name, bytes })
}

fn texts_of(alloc: Global, source: &str) -> Result<Vec<Text>, AllocError> {
    let mut texts = Vec::new(alloc);
    let text = text_of(alloc, source)?;
    match texts.push(text) {
        Ok(()) => Ok(texts),
        Err(_) => Err(AllocError),
    }
}

fn token_list(alloc: Global, source: &str) -> Result<Option<TokenList>, AllocError> {
    let texts = texts_of(alloc, source)?;
    if texts.is_empty() {
        return Ok(None);
    }
    match tokens(alloc, texts.as_slice(), 0, &[]) {
        Ok(list) => Ok(Some(list)),
        Err(_) => Ok(None),
    }
}

fn parsed(alloc: Global, list: &[Token]) -> Option<Tree> {
    match parse(alloc, list) {
        Ok(tree) => Some(tree),
        Err(_) => None,
    }
}

/// A text as the file of a name. There is none where it isn't spelled as a source.
pub(crate) fn source_of(
    alloc: Global,
    name: &str,
    text: &str,
) -> Result<Option<Source>, AllocError> {
    let Some(name) = Name::new(name.as_bytes()) else {
        return Ok(None);
    };
    let Some(list) = token_list(alloc, text)? else {
        return Ok(None);
    };
    let says = directives_of(alloc, list.as_slice())?;
    match parsed(alloc, list.as_slice()) {
        Some(tree) => Ok(Some(Source { name, says, tree })),
        None => Ok(None),
    }
}

fn is_listed(names: &Names, name: &Name) -> bool {
    names.as_slice().iter().any(|known| *name == *known)
}

/// The names of the first used units, each once, and without SYSTEM, as they are looked for.
pub(crate) fn first_uses(alloc: Global, tree: &Tree, count: usize) -> Result<Names, AllocError> {
    let mut names = Names::new(alloc);
    for one in uses_of(tree).iter().take(count) {
        if one.name.as_bytes() != b"SYSTEM".as_slice() && !is_listed(&names, &one.name) {
            names.push(one.name.copied())?;
        }
    }
    Ok(names)
}

/// The names of the units that the interface part uses.
pub(crate) fn outer_uses(alloc: Global, tree: &Tree) -> Result<Names, AllocError> {
    first_uses(alloc, tree, interface_uses(tree))
}

/// The names of all used units.
pub(crate) fn all_uses(alloc: Global, tree: &Tree) -> Result<Names, AllocError> {
    first_uses(alloc, tree, uses_of(tree).len())
}

/// The interfaces that are there.
pub(crate) type Interfaces = Vec<Interface>;
