//! Flat code and the runtime: addresses, memory, weights, and programs that call the runtime's routines.
//!
//! The files of `data` have rows with what they are answered. Each that is answered something else is written with its answer, and then
//! how many there are.
#![tactic(auto)]

mod memory;
mod programs;

use crate::memory::{put_address, put_memory};
use crate::programs::{put_program, put_runtime_weight, put_weight};
use std::alloc::{AllocError, Global};
use std::io;
use test_rows::{Line, Rows, check_rows, empty_line, put};

const FILES: [&str; 10] = [
    "routines.txt",
    "flat_code.txt",
    "numbers.txt",
    "ranges.txt",
    "strings.txt",
    "memory.txt",
    "writing.txt",
    "reading.txt",
    "heap.txt",
    "overlays.txt",
];

/// Rows, and what those of a paragraph stand on.
#[derive(Drop)]
struct FlatRows {
    // The names of the runtime's routines, a line each.
    names: String,
    // The first part of each program.
    first: String,
}

impl Rows for FlatRows {
    fn answered(&self, alloc: Global, heading: &str, row: &str) -> Result<Line, AllocError> {
        let mut answer = empty_line(alloc);
        let out = &mut answer;
        match heading {
            "address" => put_address(out, row),
            "memory" => put_memory(alloc, out, row)?,
            "weight" => put_weight(alloc, out, row)?,
            "weight of a unit of the runtime" => put_runtime_weight(alloc, out, row)?,
            "program" => put_program(alloc, out, self.names.as_str(), self.first.as_str(), row)?,
            _ => put(out, "nothing is asked"),
        }
        Ok(answer)
    }

    fn read(&mut self, alloc: Global, line: &str) -> Result<(), AllocError> {
        if let Some((name, number)) = line.split_once(" is routine ") {
            self.names.push_str(name)?;
            self.names.push_str(" ")?;
            self.names.push_str(number)?;
            self.names.push_str("\n")?;
        } else if let Some(pieces) = line.strip_prefix("  ") {
            self.first.push_str(pieces)?;
            self.first.push_str("; ")?;
        } else {
            self.first = String::new(alloc);
        }
        Ok(())
    }
}

fn main(rt: HostRuntime) -> io::Result<()> {
    let mut rows = FlatRows {
        names: String::new(rt.alloc()),
        first: String::new(rt.alloc()),
    };
    let count = check_rows(&rt, &FILES, &mut rows)?;
    println!(rt; "{count} rows")
}
