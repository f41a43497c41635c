//! Texts of rows.

use crate::numbers::number;
use std::alloc::{AllocError, Global};

// A number and a text: the text so many times.
fn push_repeated(out: &mut String, piece: &str) -> Result<(), AllocError> {
    let Some((count, text)) = piece.split_once(' ') else {
        return Err(AllocError);
    };
    for _ in 0..number(count)? {
        out.push_str(text)?;
    }
    Ok(())
}

/// A text in which what stands between two back quotes is a number and a text, which stands there so many times.
pub fn repeated(alloc: Global, source: &str) -> Result<String, AllocError> {
    let mut out = String::new(alloc);
    let mut repeats = false;
    for piece in source.split('`') {
        if repeats {
            push_repeated(&mut out, piece)?;
        } else {
            out.push_str(piece)?;
        }
        repeats = !repeats;
    }
    Ok(out)
}
