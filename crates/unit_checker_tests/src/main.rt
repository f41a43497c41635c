//! What whole sources give, and which rule a faulty one breaks where. Worked out by hand.
//!
//! `data/rows.txt` has sources with what they are answered. Each that is answered something else is written with its answer, and then
//! how many there are.
#![tactic(auto)]

mod sources;
mod told;

use crate::told::{beside, items_of, of_file};
use std::alloc::{AllocError, Global};
use std::{fs, io};
use typing_samples::Line;

// A file that stands alone; its interface is asked for where its name says so.
fn alone(alloc: Global, name: &str, text: &str) -> Result<Line, AllocError> {
    match name.split_once("interface ") {
        Some((_, name)) => items_of(alloc, name, text),
        None => of_file(alloc, name, text),
    }
}

// A file beside another one, with which an older text of its own may stand.
fn with_other(alloc: Global, own: (&str, &str), other: (&str, &str)) -> Result<Line, AllocError> {
    match other.1.split_once(" | ") {
        Some((text, older)) => beside(alloc, own, older, (other.0, text)),
        None => beside(alloc, own, own.1, other),
    }
}

// A text, perhaps with another file.
fn with_text(alloc: Global, name: &str, text: &str) -> Result<Line, AllocError> {
    match text.split_once(" | ") {
        Some((text, rest)) => match rest.split_once(" | ") {
            Some(other) => with_other(alloc, (name, text), other),
            None => Err(AllocError),
        },
        None => alone(alloc, name, text),
    }
}

/// What files are answered. Their lines are parted by `\\n`.
fn answered(alloc: Global, files: &str) -> Result<Line, AllocError> {
    let files = files.replace(alloc, "\\n", "\n")?;
    match files.as_str().split_once(" | ") {
        Some((name, text)) => with_text(alloc, name, text),
        None => Err(AllocError),
    }
}

/// Writes files that are answered something else, with their answer.
fn check_row(rt: &HostRuntime, files: &str, expected: &str) -> io::Result<()> {
    let answer = answered(rt.alloc(), files)?;
    let told = answer.as_str();
    if told != expected {
        println!(rt; "{files} => {told}")?;
    }
    Ok(())
}

fn main(rt: HostRuntime) -> io::Result<()> {
    let text = fs::read_to_string(&rt, "rows.txt")?;
    let mut rows = 0_u32;
    for line in text.lines() {
        if let Some((files, expected)) = line.split_once(" => ") {
            check_row(&rt, files, expected)?;
            rows = rows.saturating_add(1);
        }
    }
    println!(rt; "{rows} rows")
}
