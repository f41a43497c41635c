//! Programs.

use crate::shown::Shown;
use crate::units::Reader;
use flat_code::FlatUnit;
use std::alloc::{AllocError, Global};
use test_rows::repeated;
use type_layout::{Name, Sequence};

/// A program that a text writes out: its units, which of them are overlaid, what it is given, and what its output is.
#[derive(Drop)]
pub struct Program {
    pub units: Vec<FlatUnit>,
    pub overlaid: Vec<Name>,
    pub input: Vec<u8>,
    /// In bytes.
    pub stack: u32,
    /// In bytes.
    pub heap: u32,
    pub turns: u64,
    pub shown: Vec<Shown>,
    /// Whether the text can't be read.
    pub is_wrong: bool,
}

/// The program that a text writes out, behind the units of the runtime. Each line of `names` is a name and the number of a routine of
/// the runtime.
pub fn read_program(alloc: Global, runtime: Vec<FlatUnit>, names: String, text: &str) -> Program {
    let mut reader = Reader::new(alloc, runtime, names);
    match repeated(alloc, text) {
        Ok(whole) => {
            for piece in whole.as_str().split("; ") {
                reader.read(piece);
            }
        }
        Err(_) => reader.fail(),
    }
    reader.finish()
}

/// The units of the runtime, without routines.
pub fn without_runtime(alloc: Global) -> Result<Vec<FlatUnit>, AllocError> {
    let mut units = Vec::new(alloc);
    for name in ["TEXT", "STRINGS", "OVERLAY"] {
        let mut names = Sequence::new(alloc);
        match Name::new(name.as_bytes()) {
            Some(name) => names.push(name)?,
            None => return Err(AllocError),
        }
        units.push(FlatUnit {
            names,
            initial: None,
            routines: Sequence::new(alloc),
            globals: Sequence::new(alloc),
            vmts: Sequence::new(alloc),
        })?;
    }
    Ok(units)
}
