//! Names from texts. A text that is no name is a mistake of the test, and told as an error.

use std::alloc::{AllocError, Global};
use type_layout::{Name, Names};

/// The name of a text.
pub fn named(text: &str) -> Result<Name, AllocError> {
    match Name::new(text.as_bytes()) {
        Some(name) => Ok(name),
        None => Err(AllocError),
    }
}

/// The names of texts, in their order.
pub fn list_of_names(alloc: Global, list: &[&str]) -> Result<Names, AllocError> {
    let mut names = Names::new(alloc);
    for text in list {
        names.push(named(text)?)?;
    }
    Ok(names)
}
