//! A command over objects in memory. Each step has a function of its own, since the proof of a function grows with what it holds at each of its exits.

use commands::turbo;
use front_end::outcomes::Outcome;
use std::alloc::{AllocError, Global};
use std::test::Fail;
use tp_outside::{MemoryFiles, MemorySink, MemorySource};

/// For each object the number of its call that fails, counted from 1; 0 where none does.
#[derive(Clone, Copy)]
pub struct Failing {
    pub files: u64,
    pub input: u64,
    pub output: u64,
    pub errors: u64,
}

pub const NONE: Failing = Failing {
    files: 0,
    input: 0,
    output: 0,
    errors: 0,
};

/// What stands outside a command.
#[derive(Drop)]
pub struct Outside {
    pub files: MemoryFiles,
    input: MemorySource,
    output: MemorySink,
    errors: MemorySink,
}

/// An empty folder, this input, and room for a hundred bytes of output and of errors.
pub fn outside_with(alloc: Global, input: &[u8], failing: Failing) -> Result<Outside, AllocError> {
    Ok(Outside {
        files: MemoryFiles::new(alloc, &[failing.files])?,
        input: MemorySource::new(alloc, input, &[failing.input])?,
        output: MemorySink::new(alloc, 100, &[failing.output])?,
        errors: MemorySink::new(alloc, 100, &[failing.errors])?,
    })
}

/// An empty folder, no input, and the same room.
pub fn empty_outside(alloc: Global, failing: Failing) -> Result<Outside, AllocError> {
    outside_with(alloc, b"", failing)
}

fn owned(alloc: Global, words: &[&str]) -> Result<Vec<String>, AllocError> {
    let mut owned = Vec::new(alloc);
    for word in words {
        owned.push(String::from_str(alloc, word)?)?;
    }
    Ok(owned)
}

fn called(alloc: Global, words: &[String], outside: &mut Outside) -> Outcome {
    turbo(
        alloc,
        words,
        &mut outside.files,
        &mut outside.input,
        &mut outside.output,
        &mut outside.errors,
    )
}

/// Does what the words say, and gives the exit status.
pub fn status_of(alloc: Global, words: &[&str], outside: &mut Outside) -> Result<u8, AllocError> {
    let words = owned(alloc, words)?;
    Ok(called(alloc, words.as_slice(), outside).status())
}

/// Whether the file of this name holds these bytes.
pub fn holds(outside: &Outside, name: &str, bytes: &[u8]) -> bool {
    match outside.files.bytes(name) {
        Some(held) => held == bytes,
        None => false,
    }
}

/// Whether the output and the errors took just this.
pub fn took(outside: &Outside, output: &str, errors: &str) -> bool {
    outside.output.bytes() == output.as_bytes() && outside.errors.bytes() == errors.as_bytes()
}

/// The bytes of a file.
pub fn bytes_of(alloc: Global, outside: &Outside, name: &str) -> Result<Vec<u8>, Fail> {
    let held = outside.files.bytes(name).ok_or("it is not there")?;
    Ok(Vec::from_slice(alloc, held)?)
}
