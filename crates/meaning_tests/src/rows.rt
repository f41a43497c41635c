//! Rows of programs and of what they show.

use crate::programs::Coded;
use interpreter::{MeanEnd, mean};
use std::alloc::{AllocError, Global};
use std::process::Abort;
use tree_samples::program;
use typed_tree::Program;

/// The input and the turns, what is written to the output and to the errors, and how the run stands then.
pub type Shown = (&'static str, u64, &'static str, &'static str, MeanEnd);

/// Whether a program shows this.
fn shows(alloc: Global, program: &Program, shown: &Shown) -> Result<bool, AllocError> {
    let (input, turns, out, err, end) = *shown;
    let meaning = mean(alloc, program, input.as_bytes(), turns)?;
    let is_out = meaning.out.as_slice() == out.as_bytes();
    let is_err = meaning.err.as_slice() == err.as_bytes();
    Ok(is_out && is_err && meaning.end == end)
}

// Whether the program of these units shows this.
fn show(alloc: Global, units: &[Coded], shown: &Shown) -> Result<bool, AllocError> {
    let program = program(alloc, units)?;
    shows(alloc, &program, shown)
}

/// The number of the first row that doesn't hold, of programs of one unit.
pub fn first_wrong(alloc: Global, rows: &[(Coded, Shown)]) -> Result<Option<usize>, AllocError> {
    for number in 0..rows.len() {
        let (unit, shown) = &rows[number];
        if !show(alloc, &[*unit], shown)? {
            return Ok(Some(number));
        }
    }
    Ok(None)
}

/// The number of the first row that doesn't hold, of programs of several units.
pub fn first_wrong_of_units(
    alloc: Global,
    rows: &[(&'static [Coded], Shown)],
) -> Result<Option<usize>, AllocError> {
    for number in 0..rows.len() {
        let (units, shown) = &rows[number];
        if !show(alloc, units, shown)? {
            return Ok(Some(number));
        }
    }
    Ok(None)
}

/// The number of the first program that doesn't write its text, with no turns and no input, and end with code 0.
pub fn first_untold(
    alloc: Global,
    rows: &[(Coded, &'static str)],
) -> Result<Option<usize>, AllocError> {
    for number in 0..rows.len() {
        let (unit, out) = &rows[number];
        if !show(alloc, &[*unit], &("", 0, *out, "", MeanEnd::Ended(0)))? {
            return Ok(Some(number));
        }
    }
    Ok(None)
}

/// Ends the test where there is a first row that doesn't hold, or no memory.
pub fn expect(rt: &impl Abort, wrong: Result<Option<usize>, AllocError>) {
    assert_eq!(rt; wrong, Ok(None));
}
