//! Flat units as code in a machine: what they show there is what they mean.
//!
//! The files of `data` have programs with what they show, as `flat_rows` reads them. Each that shows something else is written with what
//! it shows, and then how many there are.
#![tactic(auto)]

mod linked;
mod objects;
mod runs;

use crate::objects::{put_object, put_routines};
use crate::runs::put_shown;
use flat_rows::{Program, meaning_of, put_meaning, read_program, without_runtime};
use std::alloc::{AllocError, Global};
use std::io;
use test_rows::{Line, Rows, check_rows, empty_line, put};

const FILES: [&str; 4] = [
    "expressions.txt",
    "statements.txt",
    "calls.txt",
    "objects.txt",
];

// What a program means, and what its code shows if that is something else.
fn put_program(alloc: Global, out: &mut Line, program: &Program) -> Result<(), AllocError> {
    match meaning_of(alloc, program)? {
        Some(meaning) => {
            put_meaning(out, program, &meaning);
            put_shown(alloc, out, program, &meaning);
        }
        None => put(out, "no program"),
    }
    Ok(())
}

/// Programs, of which their heading says what is asked.
#[derive(Drop)]
struct CodeRows;

impl Rows for CodeRows {
    fn answered(&self, alloc: Global, heading: &str, row: &str) -> Result<Line, AllocError> {
        let program = read_program(alloc, without_runtime(alloc)?, String::new(alloc), row);
        let mut answer = empty_line(alloc);
        let out = &mut answer;
        match (heading, program.units.as_slice()) {
            ("program", _) => put_program(alloc, out, &program)?,
            ("object", [.., last]) => put_object(alloc, out, last),
            ("routines", [.., last]) => put_routines(alloc, out, last),
            _ => put(out, "nothing is asked"),
        }
        Ok(answer)
    }
}

fn main(rt: HostRuntime) -> io::Result<()> {
    let count = check_rows(&rt, &FILES, &mut CodeRows)?;
    println!(rt; "{count} rows")
}
