//! Tests of the checker of declarations, from texts.
//!
//! `data/rows.txt` has declarations with what they are answered. Each that is answered something else is written with its answer, and
//! then how many there are.
#![tactic(auto)]

mod outcomes;
mod shown;

use crate::outcomes::answered;
use std::{fs, io};

/// Writes declarations that are answered something else, with their answer.
fn check_row(rt: &HostRuntime, source: &str, expected: &str) -> io::Result<()> {
    let answer = answered(rt.alloc(), source)?;
    let told = answer.as_str();
    if told != expected {
        println!(rt; "{source} => {told}")?;
    }
    Ok(())
}

fn main(rt: HostRuntime) -> io::Result<()> {
    let text = fs::read_to_string(&rt, "rows.txt")?;
    let mut rows = 0_u32;
    for line in text.lines() {
        if let Some((source, expected)) = line.split_once(" => ") {
            check_row(&rt, source, expected)?;
            rows = rows.saturating_add(1);
        }
    }
    println!(rt; "{rows} rows")
}
