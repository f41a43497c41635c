//! A line that is written bit by bit.

use crate::bytes::{write_bytes, write_runs, write_text};
use std::alloc::{AllocError, Global};
use std::fmt::{Debug, Display};

/// What was written. Where memory gives out, all of it is lost.
#[derive(Drop)]
pub struct Line {
    text: String,
    lost: bool,
}

impl Line {
    /// What was written.
    pub fn as_str(&self) -> &str {
        if self.lost {
            "no memory"
        } else {
            self.text.as_str()
        }
    }
}

/// An empty line.
pub fn empty_line(alloc: Global) -> Line {
    Line {
        text: String::new(alloc),
        lost: false,
    }
}

/// Writes a text.
pub fn put(line: &mut Line, text: &str) {
    if line.text.push_str(text).is_err() {
        line.lost = true;
    }
}

/// Writes a number.
pub fn put_number(line: &mut Line, number: i64) {
    let text = &mut line.text;
    if write!(text, "{number}").is_err() {
        line.lost = true;
    }
}

/// Writes whether something holds.
pub fn put_truth(line: &mut Line, holds: bool) {
    put(line, if holds { "true" } else { "false" });
}

/// Writes a value as it is shown to programmers.
pub fn put_shown<T: Debug>(line: &mut Line, value: &T) {
    let text = &mut line.text;
    if write!(text, "{value:?}").is_err() {
        line.lost = true;
    }
}

/// Writes bytes as a text, with a backslash and two hexadecimal digits for those that are none.
pub fn put_text(line: &mut Line, bytes: &[u8]) {
    if write_text(&mut line.text, bytes).is_err() {
        line.lost = true;
    }
}

/// Writes bytes as a text in which long runs of equal bytes are a number and the byte between back quotes, and long runs of rising
/// ones two dots between the first and the last.
pub fn put_runs(line: &mut Line, bytes: &[u8]) {
    if write_runs(&mut line.text, bytes).is_err() {
        line.lost = true;
    }
}

/// Writes the bytes that were made.
pub fn put_all(line: &mut Line, bytes: &Result<Vec<u8>, AllocError>) {
    match bytes {
        Ok(bytes) => put_text(line, bytes.as_slice()),
        Err(_) => line.lost = true,
    }
}

/// Writes bytes, each as two hexadecimal digits.
pub fn put_bytes(line: &mut Line, bytes: &[u8]) {
    if write_bytes(&mut line.text, bytes).is_err() {
        line.lost = true;
    }
}

/// Writes a value as it is shown to users.
pub fn put_told<T: Display>(line: &mut Line, value: &T) {
    let text = &mut line.text;
    if write!(text, "{value}").is_err() {
        line.lost = true;
    }
}

/// Writes a text and a number behind it.
pub fn put_numbered(line: &mut Line, before: &str, number: u64) {
    let text = &mut line.text;
    if write!(text, "{before}{number}").is_err() {
        line.lost = true;
    }
}

/// Writes a text and a number behind it, which may be negative.
pub fn put_signed(line: &mut Line, before: &str, number: i64) {
    let text = &mut line.text;
    if write!(text, "{before}{number}").is_err() {
        line.lost = true;
    }
}

/// Parts the next entry from those before it.
pub fn part(line: &mut Line, mark: &str) {
    if !line.text.is_empty() {
        put(line, mark);
    }
}
