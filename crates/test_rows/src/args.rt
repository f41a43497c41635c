//! The arguments of a row.

use crate::bytes::text_bytes;
use crate::numbers::{number, whole, word};
use std::alloc::{AllocError, Global};

/// What is left of the arguments of a row, which ` | ` parts, and whether one of those that were taken is none.
#[derive(Drop)]
pub struct Args<'a> {
    rest: &'a str,
    wrong: bool,
}

fn elements_of(alloc: Global, text: &str) -> Result<Vec<u8>, AllocError> {
    let mut elements = Vec::new(alloc);
    for one in text.split_whitespace() {
        elements.push((number(one)? % 256) as u8)?;
    }
    Ok(elements)
}

impl<'a> Args<'a> {
    /// The arguments of a text.
    pub fn new(text: &'a str) -> Args<'a> {
        Args {
            rest: text,
            wrong: false,
        }
    }

    /// Whether an argument was taken that is none.
    pub fn is_wrong(&self) -> bool {
        self.wrong
    }

    /// Says that an argument is none.
    pub fn fail(&mut self) {
        self.wrong = true;
    }

    /// The next argument.
    pub fn text(&mut self) -> &'a str {
        match self.rest.split_once(" | ") {
            Some((first, others)) => {
                self.rest = others;
                first
            }
            None => {
                let last = self.rest;
                self.rest = "";
                last
            }
        }
    }

    /// The next argument as a number, or 0.
    pub fn number(&mut self) -> i32 {
        match whole(self.text()) {
            Ok(number) => number,
            Err(_) => {
                self.wrong = true;
                0
            }
        }
    }

    /// The next argument as a number of 64 bits, or 0.
    pub fn large(&mut self) -> i64 {
        match self.text().parse::<i64>() {
            Ok(number) => number,
            Err(_) => {
                self.wrong = true;
                0
            }
        }
    }

    /// The next argument as a number that is not negative, or 0.
    pub fn count(&mut self) -> u32 {
        match number(self.text()) {
            Ok(number) => number,
            Err(_) => {
                self.wrong = true;
                0
            }
        }
    }

    /// The next argument as a byte, or 0.
    pub fn byte(&mut self) -> u8 {
        (self.count() % 256) as u8
    }

    /// The next argument as a word, or 0.
    pub fn word(&mut self) -> u16 {
        match word(self.text()) {
            Ok(word) => word,
            Err(_) => {
                self.wrong = true;
                0
            }
        }
    }

    /// Whether the next argument is `true`; else it has to be `false`.
    pub fn truth(&mut self) -> bool {
        match self.text() {
            "true" => true,
            "false" => false,
            _ => {
                self.wrong = true;
                false
            }
        }
    }

    // Bytes that were read, or none.
    fn read(&mut self, alloc: Global, bytes: Result<Vec<u8>, AllocError>) -> Vec<u8> {
        match bytes {
            Ok(bytes) => bytes,
            Err(_) => {
                self.wrong = true;
                Vec::new(alloc)
            }
        }
    }

    /// The bytes of the next argument, a text.
    pub fn bytes(&mut self, alloc: Global) -> Vec<u8> {
        let bytes = text_bytes(alloc, self.text());
        self.read(alloc, bytes)
    }

    /// The elements of the next argument, a set.
    pub fn set(&mut self, alloc: Global) -> Vec<u8> {
        let elements = elements_of(alloc, self.text());
        self.read(alloc, elements)
    }
}
