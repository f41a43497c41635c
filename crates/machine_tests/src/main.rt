//! The machine, files, overlays and the outside, against bytes that were written by hand.
//!
//! The files of `data` have rows with what they are answered. Each that is answered something else is written with its answer, and then
//! how many there are.
#![tactic(auto)]

mod clearing;
mod dos;
mod executables;
mod held_files;
mod instructions;
mod lines;
mod literals;
mod loads;
mod machines;
mod objects;
mod opening;
mod outside;
mod overlays;
mod real;
mod returns;
mod rings;
mod runs;
mod scenes;
mod services;

use std::alloc::{AllocError, Global};
use std::io;
use test_rows::{Line, Rows, check_rows, empty_line, put};

const FILES: [&str; 11] = [
    "instructions.txt",
    "lines.txt",
    "executables.txt",
    "objects.txt",
    "overlays.txt",
    "rings.txt",
    "returns.txt",
    "services.txt",
    "programs.txt",
    "runs.txt",
    "outside.txt",
];

/// Rows, and the files whose bytes they name.
#[derive(Drop)]
struct MachineRows {
    rt: HostRuntime,
    // Each line is a name and bytes.
    held: String,
}

impl MachineRows {
    // Writes what is answered where files are named; nothing if this is not asked.
    fn put_named(&self, alloc: Global, out: &mut Line, asked: &str, row: &str) -> Option<()> {
        let held = self.held.as_str();
        match asked {
            "prefixes" => held_files::put_prefixes(alloc, out, held, row),
            "executable" => executables::put_checked(alloc, out, held, row),
            "executable read" => executables::put_read(alloc, out, held, row),
            "executable written" => executables::put_written(alloc, out, held, row),
            "executable loaded" => executables::put_loaded(alloc, out, held, row),
            "object" => objects::put_damage(alloc, out, held, row),
            "object read" => objects::put_read(alloc, out, held, row),
            "overlay file" => overlays::put_damage(alloc, out, held, row),
            "overlay file read" => overlays::put_read(alloc, out, held, row),
            "overlay file written" => overlays::put_written(alloc, out, held, row),
            "stub" => overlays::put_stub(alloc, out, held, row),
            "load" => loads::put_loads(alloc, out, held, row),
            "service" => services::put_steps(alloc, out, held, row),
            "opening" => opening::put_opened(alloc, out, held, row),
            "run" => runs::put_run(alloc, out, held, row, false),
            "run, counted" => runs::put_run(alloc, out, held, row, true),
            _ => None,
        }
    }
}

// The same where no file is named.
fn put_plain(alloc: Global, out: &mut Line, asked: &str, row: &str) -> Option<()> {
    match asked {
        "instruction" => instructions::put_instruction(alloc, out, row),
        "assembled" => lines::put_assembled(alloc, out, row),
        "relaxed" => lines::put_relaxed(alloc, out, row),
        "error" => lines::put_error(out, row),
        "ring" => rings::put_steps(alloc, out, row),
        "returns" => returns::put_steps(alloc, out, row),
        "clear without stubs" => clearing::put_clear(alloc, out),
        "literal program" => literals::put_taken(alloc, out, row),
        "literal program as code" => literals::put_image(alloc, out, row),
        "code under DOS" => dos::put_run(alloc, out, row),
        "source" => outside::put_source(alloc, out, row),
        "sink" => outside::put_sink(alloc, out, row),
        "copy" => outside::put_copies(alloc, out, row),
        "files" => outside::put_files(alloc, out, row),
        "real streams" => real::put_streams(out),
        _ => None,
    }
}

impl Rows for MachineRows {
    fn answered(&self, alloc: Global, heading: &str, row: &str) -> Result<Line, AllocError> {
        let mut answer = empty_line(alloc);
        let out = &mut answer;
        if heading == "real files" {
            if real::put_files(&self.rt, out).is_err() {
                put(out, "no file");
            }
        } else if self.put_named(alloc, out, heading, row).is_none()
            && put_plain(alloc, out, heading, row).is_none()
        {
            put(out, "nothing is asked");
        }
        Ok(answer)
    }

    fn read(&mut self, _alloc: Global, line: &str) -> Result<(), AllocError> {
        if let Some((name, bytes)) = line.split_once(" holds ") {
            self.held.push_str(name)?;
            self.held.push_str(" ")?;
            self.held.push_str(bytes)?;
            self.held.push_str("\n")?;
        }
        Ok(())
    }
}

fn main(rt: HostRuntime) -> io::Result<()> {
    let mut rows = MachineRows {
        rt: rt.clone()?,
        held: String::new(rt.alloc()),
    };
    let count = check_rows(&rt, &FILES, &mut rows)?;
    println!(rt; "{count} rows")
}
