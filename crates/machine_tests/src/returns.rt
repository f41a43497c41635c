//! Returns into overlays that go out and come back.

use crate::machines::{put_count, put_words, run_step};
use cpu_8086::{Machine, Reg};
use return_repair::{Loaded, live, repair};
use std::alloc::Global;
use test_rows::{Line, part, put, put_shown, put_truth};

const STUB: u16 = 0x0200;

const LOADED: [Loaded; 1] = [Loaded {
    stub: STUB,
    load: 0x9000,
}];

const OUT: [Loaded; 1] = [Loaded {
    stub: STUB,
    load: 0,
}];

const BACK: [Loaded; 1] = [Loaded {
    stub: STUB,
    load: 0x9100,
}];

/// Three overlays, of which the second is loaded.
const THREE: [Loaded; 3] = [
    Loaded {
        stub: STUB,
        load: 0,
    },
    Loaded {
        stub: 0x0300,
        load: 0x9000,
    },
    Loaded {
        stub: 0x0400,
        load: 0,
    },
];

/// A stack at segment 1000h whose links are 0110h and 0120h; each has a return to segment 9000h above it.
fn two_frames(alloc: Global) -> Option<Machine> {
    let mut machine = Machine::new(alloc).ok()?;
    machine.set_reg(Reg::Ss, 0x1000);
    machine.set_reg(Reg::Sp, 0x0100);
    machine.set_reg(Reg::Bp, 0x0110);
    for (place, word) in [
        (0x0110, 0x0120),
        (0x0112, 0x0020),
        (0x0114, 0x9000),
        (0x0120, 0x0000),
        (0x0122, 0x0035),
        (0x0124, 0x9000),
    ] {
        machine.store_word(0x1000, place, word);
    }
    Some(machine)
}

// Into which of three overlays there are live returns.
fn put_live(out: &mut Line, machine: &Machine, marked: bool) {
    let mut into = [true; 3];
    match live(machine, false, marked, &THREE, &mut into) {
        Ok(()) => {
            for one in into {
                part(out, " ");
                put_truth(out, one);
            }
        }
        Err(error) => {
            part(out, " ");
            put_shown(out, &error);
        }
    }
}

// The same of the first one alone.
fn put_live_of_one(out: &mut Line, machine: &Machine) {
    let mut into = [true];
    part(out, " ");
    match live(machine, false, false, &LOADED, &mut into) {
        Ok(()) => put(out, "found"),
        Err(error) => put_shown(out, &error),
    }
    let [one] = into;
    put(out, " ");
    put_truth(out, one);
}

// The overlay goes out, stays so, or comes back; how many returns changed.
fn put_repaired(machine: &mut Machine, out: &mut Line, step: &str) -> Option<()> {
    let changed = match step {
        "out" => repair(machine, false, false, &LOADED, &OUT),
        "out, pending" => repair(machine, true, false, &LOADED, &OUT),
        "out, marked" => repair(machine, false, true, &LOADED, &OUT),
        "stay out" => repair(machine, false, false, &OUT, &OUT),
        "back" => repair(machine, false, false, &OUT, &BACK),
        _ => return None,
    };
    put_count(out, &changed);
    Some(())
}

fn put_step(machine: &mut Machine, out: &mut Line, step: &str) -> Option<()> {
    match step {
        "pairs" => put_words(out, machine, 0x1000, &[0x0112, 0x0114, 0x0122, 0x0124]),
        "live" => put_live(out, machine, false),
        "live, marked" => put_live(out, machine, true),
        "live of one" => put_live_of_one(out, machine),
        _ => {
            if run_step(machine, out, step).is_none() {
                return put_repaired(machine, out, step);
            }
        }
    }
    Some(())
}

/// Writes what the steps of a row find on a stack of two frames.
pub(crate) fn put_steps(alloc: Global, out: &mut Line, row: &str) -> Option<()> {
    let mut machine = two_frames(alloc)?;
    for step in row.split("; ") {
        put_step(&mut machine, out, step)?;
    }
    Some(())
}
