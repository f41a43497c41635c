//! How a program reads its rows.

use crate::line::Line;
use std::alloc::{AllocError, Global};
use std::{fs, io};

/// What answers the rows of a program.
pub trait Rows {
    /// What a row behind a heading is answered.
    fn answered(&self, alloc: Global, heading: &str, row: &str) -> Result<Line, AllocError>;

    /// Reads a line that is neither: a remark, or what the rows below stand on.
    fn read(&mut self, _alloc: Global, _line: &str) -> Result<(), AllocError> {
        Ok(())
    }
}

// What stands between brackets, where a line is a heading.
fn heading_in(line: &str) -> Option<&str> {
    line.strip_prefix("[")?.strip_suffix("]")
}

// Writes a row that is answered something else, with its answer.
fn check_row<R: Rows>(
    rt: &HostRuntime,
    rows: &R,
    heading: &str,
    row: &str,
    expected: &str,
) -> io::Result<()> {
    let answer = rows.answered(rt.alloc(), heading, row)?;
    let told = answer.as_str();
    if told != expected {
        println!(rt; "{row} => {told}")?;
    }
    Ok(())
}

// Writes each row of a file that is answered something else, with its answer. Gives how many rows there are.
fn check_file<R: Rows>(rt: &HostRuntime, file: &str, rows: &mut R) -> io::Result<u32> {
    let text = fs::read_to_string(rt, file)?;
    let mut heading = "";
    let mut count = 0_u32;
    for line in text.lines() {
        if let Some((row, expected)) = line.split_once(" => ") {
            check_row(rt, rows, heading, row, expected)?;
            count = count.saturating_add(1);
        } else if let Some(behind) = heading_in(line) {
            heading = behind;
        } else {
            rows.read(rt.alloc(), line)?;
        }
    }
    Ok(count)
}

/// Writes each row of these files that is answered something else, with its answer. Gives how many rows there are.
pub fn check_rows<R: Rows>(rt: &HostRuntime, files: &[&str], rows: &mut R) -> io::Result<u32> {
    let mut count = 0_u32;
    for file in files {
        count = count.saturating_add(check_file(rt, file, rows)?);
    }
    Ok(count)
}
