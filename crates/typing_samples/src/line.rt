//! A line that is written bit by bit.

use std::alloc::Global;
use tp_lexer::Feature;
use type_layout::Place;
use typed_tree::{BinaryOp, UnaryOp};

/// What was written. Where memory gives out, all of it is lost; so that what writes needs no exit of its own for that.
#[derive(Drop)]
pub struct Line {
    text: String,
    lost: bool,
}

impl Line {
    /// What was written.
    pub fn as_str(&self) -> &str {
        if self.lost {
            "no memory"
        } else {
            self.text.as_str()
        }
    }
}

/// An empty line.
pub fn empty_line(alloc: Global) -> Line {
    Line {
        text: String::new(alloc),
        lost: false,
    }
}

/// Writes a text.
pub fn put(line: &mut Line, text: &str) {
    if line.text.push_str(text).is_err() {
        line.lost = true;
    }
}

/// Writes a number.
pub fn put_number(line: &mut Line, number: i64) {
    let text = &mut line.text;
    if write!(text, "{number}").is_err() {
        line.lost = true;
    }
}

/// Writes a text, and then a number.
pub fn put_numbered(line: &mut Line, before: &str, number: i64) {
    put(line, before);
    put_number(line, number);
}

/// Writes a text, and then how many there are of something.
pub fn put_count(line: &mut Line, before: &str, count: u64) {
    let text = &mut line.text;
    if write!(text, "{before}{count}").is_err() {
        line.lost = true;
    }
}

/// Writes bytes as the text that they are.
pub fn put_bytes(line: &mut Line, bytes: &[u8]) {
    put(line, str::from_utf8(bytes).unwrap_or("?"));
}

/// Writes a line and a column.
pub fn put_place(line: &mut Line, place: Place) {
    put_numbered(line, " ", i64::from(place.line));
    put_numbered(line, ":", i64::from(place.column));
}

/// Parts the next entry from those before it.
pub fn part(line: &mut Line) {
    if !line.text.is_empty() {
        put(line, " ");
    }
}

pub(crate) fn put_operator(line: &mut Line, op: BinaryOp) {
    let text = &mut line.text;
    if write!(text, " {op:?}").is_err() {
        line.lost = true;
    }
}

pub(crate) fn put_sign(line: &mut Line, op: UnaryOp) {
    let text = &mut line.text;
    if write!(text, " {op:?} ").is_err() {
        line.lost = true;
    }
}

pub(crate) fn put_feature(line: &mut Line, feature: Feature) {
    let text = &mut line.text;
    if write!(text, "{feature:?}").is_err() {
        line.lost = true;
    }
}
