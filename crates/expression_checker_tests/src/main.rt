//! Tests of the checkers of expressions, of constants and of first values, from texts.
//!
//! `data/rows.txt` has texts with what they are answered. Each that is answered something else is written with its answer, and then
//! how many there are.
#![tactic(auto)]

mod answers;
mod declared;

use crate::answers::{Part, answered};
use std::{fs, io};

/// What the texts behind a heading are.
fn part_behind(now: Part, heading: &str) -> Part {
    match heading {
        "[expressions]" => Part::Expression,
        "[constants]" => Part::Constant,
        "[members]" => Part::Member,
        "[first values]" => Part::FirstValue,
        _ => now,
    }
}

/// Writes a text that is answered something else, with its answer.
fn check_row(rt: &HostRuntime, part: Part, source: &str, expected: &str) -> io::Result<()> {
    let answer = answered(rt.alloc(), part, source)?;
    let told = answer.as_str();
    if told != expected {
        println!(rt; "{source} => {told}")?;
    }
    Ok(())
}

fn main(rt: HostRuntime) -> io::Result<()> {
    let text = fs::read_to_string(&rt, "rows.txt")?;
    let mut part = Part::Expression;
    let mut rows = 0_u32;
    for line in text.lines() {
        part = part_behind(part, line);
        if let Some((source, expected)) = line.split_once(" => ") {
            check_row(&rt, part, source, expected)?;
            rows = rows.saturating_add(1);
        }
    }
    println!(rt; "{rows} rows")
}
