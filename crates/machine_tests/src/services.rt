//! Services of the overlay manager: two overlays whose routines call each other, three of which one moves, and one with a near routine.

use crate::held_files::bytes_of;
use crate::machines::{put_count, put_done, put_word, put_words, run_step};
use crate::outside::numbers_of;
use crate::scenes::{Scene, folder, machine_with, manager};
use cpu_8086::{Event, Reg};
use overlay_manager::{ServiceStop, service};
use std::alloc::Global;
use test_rows::{Line, part, put_shown, word};

/// Calls the first entry of the stub at 0200h, and then INT 21h.
const CALLS_A: &[u8] = &[0x9A, 0x20, 0x00, 0x00, 0x02, 0xCD, 0x21];

/// Calls that of the stub at 0200h, and that at 0210h.
const CALLS_A_AND_B: &[u8] = &[
    0x9A, 0x20, 0x00, 0x00, 0x02, 0x9A, 0x20, 0x00, 0x10, 0x02, 0xCD, 0x21,
];

const STUBS: [u16; 3] = [0x0200, 0x0210, 0x0220];

/// A program: its code, how many stubs it has, its buffer in paragraphs, and whether its frames are marked.
type Kind = (&'static [u8], usize, u16, bool);

fn kind_of(name: &str) -> Option<Kind> {
    match name {
        "two" => Some((CALLS_A, 2, 1, false)),
        "three" => Some((CALLS_A_AND_B, 3, 3, false)),
        "near" => Some((CALLS_A, 2, 2, false)),
        "near, marked" => Some((CALLS_A, 2, 2, true)),
        _ => None,
    }
}

// The file of a program's overlays.
fn overlays(alloc: Global, held: &str, name: &str) -> Option<Vec<u8>> {
    let (file, _) = name.split_once(',').unwrap_or((name, ""));
    bytes_of(alloc, held, file)
}

// A program, with some bytes as its overlay file, the calls of which fail that are listed.
fn scene_of(alloc: Global, held: &str, name: &str, failing: &str, file: &str) -> Option<Scene> {
    let (code, count, room, marked) = kind_of(name)?;
    let stubs = STUBS.get(..count)?;
    let own = overlays(alloc, held, name)?;
    let there = bytes_of(alloc, held, file)?;
    let failing = numbers_of(alloc, failing)?;
    Some(Scene {
        machine: machine_with(alloc, code, stubs)?,
        ovr: manager(alloc, own.as_slice(), stubs, room, marked)?,
        files: folder(alloc, failing.as_slice(), there.as_slice())?,
    })
}

fn served(scene: &mut Scene) -> Result<(), ServiceStop> {
    service(&mut scene.machine, &mut scene.ovr, &mut scene.files)
}

/// Runs up to an interrupt that is no trap, and gives how many traps were served.
fn run(scene: &mut Scene) -> Result<u32, ServiceStop> {
    let mut traps = 0u32;
    for _ in 0..200 {
        match scene.machine.step() {
            Event::Ran => (),
            Event::Service(0x3F) => {
                served(scene)?;
                traps = traps.wrapping_add(1);
            }
            _ => return Ok(traps),
        }
    }
    Ok(traps)
}

// CS, IP, SP, AX and DX.
fn put_state(out: &mut Line, scene: &Scene) {
    for reg in [Reg::Cs, Reg::Ip, Reg::Sp, Reg::Ax, Reg::Dx] {
        put_word(out, scene.machine.reg(reg));
    }
}

// A verb that is no step of a machine, and what else it asks for.
fn put_other(
    alloc: Global,
    scene: &mut Scene,
    out: &mut Line,
    held: &str,
    step: &str,
) -> Option<()> {
    match step {
        "run" => put_count(out, &run(scene)),
        "serve" => put_done(out, &served(scene)),
        "tally" => {
            part(out, " ");
            put_shown(out, &scene.ovr.tally());
        }
        "state" => put_state(out, scene),
        "stub A" => put_words(out, &scene.machine, 0x0200, &[14, 16, 32, 34, 36]),
        "stub B" => put_words(out, &scene.machine, 0x0210, &[14, 16, 32, 34, 36]),
        "two anew" => {
            let own = bytes_of(alloc, held, "two")?;
            scene.ovr = manager(alloc, own.as_slice(), &[0x0200, 0x0210], 1, false)?;
        }
        _ => scene
            .ovr
            .set_retry(word(step.strip_prefix("retry ")?).ok()?),
    }
    Some(())
}

/// Writes what the steps of a row find: a program, the calls of files that fail, the overlay file that is there, and the steps.
pub(crate) fn put_steps(alloc: Global, out: &mut Line, held: &str, row: &str) -> Option<()> {
    let (name, rest) = row.split_once(" | ")?;
    let (failing, rest) = rest.split_once(" | ")?;
    let (file, steps) = rest.split_once(" | ")?;
    let mut scene = scene_of(alloc, held, name, failing, file)?;
    for step in steps.split("; ") {
        if run_step(&mut scene.machine, out, step).is_none() {
            put_other(alloc, &mut scene, out, held, step)?;
        }
    }
    Some(())
}
