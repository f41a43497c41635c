//! Tests of the checker of statements, from texts.
//!
//! `data/rows.txt` has main parts with what they are answered. Each that is answered something else is written with its answer, and
//! then how many there are.
#![tactic(auto)]

mod outcomes;
mod samples;
mod shown;

use crate::outcomes::{Body, answered};
use std::{fs, io};

/// The body in which the main parts behind a heading stand.
fn body_behind(now: Body, heading: &str) -> Body {
    match heading {
        "[function]" => Body::Function,
        "[method]" => Body::Method,
        "[hiding]" => Body::Hiding,
        _ => now,
    }
}

/// Writes a main part that is answered something else, with its answer.
fn check_row(rt: &HostRuntime, body: Body, source: &str, expected: &str) -> io::Result<()> {
    let answer = answered(rt.alloc(), body, source)?;
    let told = answer.as_str();
    if told != expected {
        println!(rt; "{source} => {told}")?;
    }
    Ok(())
}

fn main(rt: HostRuntime) -> io::Result<()> {
    let text = fs::read_to_string(&rt, "rows.txt")?;
    let mut body = Body::Function;
    let mut rows = 0_u32;
    for line in text.lines() {
        body = body_behind(body, line);
        if let Some((source, expected)) = line.split_once(" => ") {
            check_row(&rt, body, source, expected)?;
            rows = rows.saturating_add(1);
        }
    }
    println!(rt; "{rows} rows")
}
