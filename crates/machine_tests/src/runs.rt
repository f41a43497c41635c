//! Runs of programs with overlays, over objects in memory.

use crate::held_files::bytes_of;
use crate::opening::put_refusal;
use crate::outside::numbers_of;
use dos_runner::overlay_runner::{OpenError, RunEnd, Runner};
use std::alloc::Global;
use test_rows::{Line, empty_line, number, part, put, put_numbered, put_shown, put_text, word};
use tp_outside::{MemoryFiles, MemorySink, MemorySource};
use type_layout::FileName;

/// What stands outside a run.
#[derive(Drop)]
struct Outside {
    files: MemoryFiles,
    input: MemorySource,
    output: MemorySink,
    errors: MemorySink,
}

// A folder with an overlay file, an input, and room for a hundred bytes of output and of errors. The calls of the files, of the input and of
// the output fail that are given by their numbers.
fn outside_with(alloc: Global, overlays: &[u8], input: &str, failing: &[u64]) -> Option<Outside> {
    let [files, source, sink] = failing else {
        return None;
    };
    let mut outside = Outside {
        files: MemoryFiles::new(alloc, &[*files]).ok()?,
        input: MemorySource::new(alloc, input.as_bytes(), &[*source]).ok()?,
        output: MemorySink::new(alloc, 100, &[*sink]).ok()?,
        errors: MemorySink::new(alloc, 100, &[]).ok()?,
    };
    outside.files.put("calls.ovr", overlays).ok()?;
    Some(outside)
}

fn opened(
    alloc: Global,
    exe: &[u8],
    buffer: Option<u16>,
    outside: &mut Outside,
) -> Result<Runner, OpenError> {
    match FileName::new("calls.ovr") {
        Some(name) => Runner::open(alloc, exe, &name, &mut outside.files, buffer),
        None => Err(OpenError::NoMemory),
    }
}

// Takes the run further, for at most so many instructions.
fn further(runner: &mut Runner, outside: &mut Outside, limit: u64) -> RunEnd {
    runner.run(
        &mut outside.files,
        &mut outside.input,
        &mut outside.output,
        &mut outside.errors,
        limit,
    )
}

// So many calls, and how often they end in the same way one after another.
fn put_ends(
    alloc: Global,
    out: &mut Line,
    runner: &mut Runner,
    outside: &mut Outside,
    calls: u32,
    limit: u64,
) {
    let mut last = empty_line(alloc);
    let mut times: u64 = 0;
    for _ in 0..calls {
        let mut next = empty_line(alloc);
        put_shown(&mut next, &further(runner, outside, limit));
        if next.as_str() != last.as_str() {
            put_times(out, times, last.as_str());
            times = 0;
        }
        times = times.wrapping_add(1);
        last = next;
    }
    put_times(out, times, last.as_str());
}

fn put_times(out: &mut Line, times: u64, end: &str) {
    if times != 0 {
        part(out, ", ");
        if times != 1 {
            put_numbered(out, "", times);
            put(out, " times ");
        }
        put(out, end);
    }
}

fn put_left(out: &mut Line, runner: &Runner, outside: &Outside, is_counted: bool) {
    put(out, " '");
    put_text(out, outside.output.bytes());
    put(out, "'");
    if is_counted {
        put(out, " ");
        put_shown(out, &runner.counts());
    }
}

// The executable and the overlay file with which a program is opened, the overlay file that is there later.
fn put_program(
    alloc: Global,
    out: &mut Line,
    held: &str,
    (files, setting): (&str, &str),
    is_counted: bool,
) -> Option<()> {
    let (exe, rest) = files.split_once(" | ")?;
    let (overlays, later) = rest.split_once(" | ")?;
    let (input, rest) = setting.split_once(" | ")?;
    let (failing, rest) = rest.split_once(" | ")?;
    let (buffer, rest) = rest.split_once(" | ")?;
    let (calls, limit) = rest.split_once(" | ")?;
    let exe = bytes_of(alloc, held, exe)?;
    let overlays = bytes_of(alloc, held, overlays)?;
    let later = bytes_of(alloc, held, later)?;
    let failing = numbers_of(alloc, failing)?;
    let mut outside = outside_with(alloc, overlays.as_slice(), input, failing.as_slice())?;
    match opened(alloc, exe.as_slice(), word(buffer).ok(), &mut outside) {
        Ok(mut runner) => {
            outside.files.put("calls.ovr", later.as_slice()).ok()?;
            let calls = number(calls).ok()?;
            let limit = u64::from(number(limit).ok()?);
            put_ends(alloc, out, &mut runner, &mut outside, calls, limit);
            put_left(out, &runner, &outside, is_counted);
        }
        Err(error) => put_refusal(out, &error),
    }
    Some(())
}

/// Writes how the run of a program ends, what it wrote, and what was counted if this is asked: an executable, its overlay file, the one that is there
/// later; and then, behind two bars, the input, the calls that fail, the buffer, the number of calls and the limit of each.
pub(crate) fn put_run(
    alloc: Global,
    out: &mut Line,
    held: &str,
    row: &str,
    is_counted: bool,
) -> Option<()> {
    put_program(alloc, out, held, row.split_once(" || ")?, is_counted)
}
