//! Tries the machine against single instructions that an independent emulator executed.
//!
//! `data/vectors.txt` has a line for each, with fields divided by `|`: a number, the row of the table, the bytes at
//! CS:IP, the registers, flags and bytes of memory before, the event, and the registers, flags and changed bytes
//! after.
#![tactic(auto)]

mod text;
mod vector;

use cpu_8086::Machine;
use std::{fs, io};
use vector::agrees;

/// How many bytes are not 0.
fn bytes_left(machine: &Machine) -> u32 {
    let mut count = 0u32;
    for at in 0..0x10_0000u32 {
        if machine.byte(at) != 0 {
            count = count.saturating_add(1);
        }
    }
    count
}

fn main(rt: HostRuntime) -> io::Result<()> {
    let vectors = fs::read_to_string(&rt, "vectors.txt")?;
    let mut machine = Machine::new(rt.alloc())?;
    let mut tried = 0u32;
    let mut agreed = 0u32;
    for line in vectors.lines() {
        tried = tried.saturating_add(1);
        if agrees(&mut machine, line) {
            agreed = agreed.saturating_add(1);
        } else {
            println!(rt; "disagrees: {line}")?;
        }
    }
    println!(rt; "{agreed} of {tried} vectors agree")?;
    let left = bytes_left(&machine);
    println!(rt; "{left} bytes besides were written")
}
