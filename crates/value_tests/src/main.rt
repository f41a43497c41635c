//! Values, their operators and their store, by tables of results that were worked out by hand.
//!
//! The files of `data` have rows with what they are answered; a heading says which function is asked. Each row that is answered something
//! else is written with its answer, and then how many there are.
#![tactic(auto)]

mod bits;
mod blocks;
mod cells;
mod input;
mod names;
mod operators;
mod ordinals;
mod sets;
mod strings;
mod variables;
mod words;
mod written;

use std::alloc::{AllocError, Global};
use std::io;
use test_rows::{Args, Line, Rows, check_rows, empty_line, put};

const FILES: [&str; 5] = [
    "integers.txt",
    "texts.txt",
    "sets.txt",
    "operators.txt",
    "store.txt",
];

// Whether a heading asks for what is no step of a store.
fn put_plain(alloc: Global, out: &mut Line, asked: &str, args: &mut Args) -> bool {
    bits::put_answer(out, asked, args)
        || ordinals::put_answer(out, asked, args)
        || words::put_answer(out, asked, args)
        || strings::put_answer(alloc, out, asked, args)
        || written::put_answer(alloc, out, asked, args)
        || input::put_answer(alloc, out, asked, args)
        || sets::put_answer(alloc, out, asked, args)
        || operators::put_answer(alloc, out, asked, args)
}

/// Arguments, of which their heading says what is asked.
#[derive(Drop)]
struct ValueRows;

impl Rows for ValueRows {
    fn answered(&self, alloc: Global, heading: &str, row: &str) -> Result<Line, AllocError> {
        let mut answer = empty_line(alloc);
        let out = &mut answer;
        match heading {
            "blocks" => blocks::put_steps(alloc, out, row),
            "cells" => cells::put_steps(alloc, out, row),
            "variables" => variables::put_steps(alloc, out, row),
            _ => {
                let mut args = Args::new(row);
                if !put_plain(alloc, out, heading, &mut args) || args.is_wrong() {
                    put(out, "nothing is asked");
                }
            }
        }
        Ok(answer)
    }
}

fn main(rt: HostRuntime) -> io::Result<()> {
    let count = check_rows(&rt, &FILES, &mut ValueRows)?;
    println!(rt; "{count} rows")
}
