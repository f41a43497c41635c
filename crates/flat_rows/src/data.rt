//! Data and virtual method tables.

use crate::addresses::first_word;
use flat_code::{FlatDatum, FlatVmt};
use std::alloc::{AllocError, Global};
use test_rows::{number, text_in, word};
use type_layout::{Bytes, RoutineId, Sequence};

// A size, and then the bytes at the beginning.
fn sized(alloc: Global, text: &str) -> Result<FlatDatum, AllocError> {
    let (size, bytes) = first_word(text);
    Ok(FlatDatum {
        size: number(size)?,
        first: Bytes::from_vec(text_in(alloc, bytes)?),
    })
}

// A string: its length, and then its bytes.
fn string(alloc: Global, text: &str) -> Result<FlatDatum, AllocError> {
    let bytes = text_in(alloc, text)?;
    let mut first = Bytes::new(alloc);
    first.push((bytes.len() % 256) as u8)?;
    first.extend_from_slice(bytes.as_slice())?;
    Ok(FlatDatum { size: 256, first })
}

/// A datum that a text writes out.
pub(crate) fn datum(alloc: Global, verb: &str, text: &str) -> Result<FlatDatum, AllocError> {
    if verb == "string" {
        string(alloc, text)
    } else {
        sized(alloc, text)
    }
}

/// A table: the size of an instance, and the routines.
pub(crate) fn table(alloc: Global, text: &str) -> Result<FlatVmt, AllocError> {
    let (size, routines) = first_word(text);
    let mut slots = Sequence::new(alloc);
    for one in routines.split_whitespace() {
        slots.push(RoutineId {
            unit: 0,
            number: number(one)?,
        })?;
    }
    Ok(FlatVmt {
        size: word(size)?,
        slots,
    })
}
