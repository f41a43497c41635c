//! Programs and their weights.

use flat_code::flat_weight_of;
use flat_rows::{Program, meaning_of, put_meaning, read_program, without_runtime};
use runtime_units::runtime_units;
use std::alloc::{AllocError, Global};
use test_rows::{Args, Line, put, put_numbered};

fn text_of(alloc: Global, text: &str) -> Result<String, AllocError> {
    let mut copy = String::new(alloc);
    copy.push_str(text)?;
    Ok(copy)
}

// The program that two texts are, with the units of the runtime.
fn program_of(alloc: Global, names: &str, first: &str, row: &str) -> Result<Program, AllocError> {
    let mut whole = text_of(alloc, first)?;
    whole.push_str(row)?;
    let names = text_of(alloc, names)?;
    Ok(read_program(alloc, runtime_units(alloc)?, names, whole.as_str()))
}

/// Writes what a program means.
pub(crate) fn put_program(
    alloc: Global,
    out: &mut Line,
    names: &str,
    first: &str,
    row: &str,
) -> Result<(), AllocError> {
    let program = program_of(alloc, names, first, row)?;
    match meaning_of(alloc, &program)? {
        Some(meaning) => put_meaning(out, &program, &meaning),
        None => put(out, "no program"),
    }
    Ok(())
}

/// Writes how much the last unit of a program weighs.
pub(crate) fn put_weight(alloc: Global, out: &mut Line, row: &str) -> Result<(), AllocError> {
    let program = read_program(alloc, without_runtime(alloc)?, String::new(alloc), row);
    match program.units.as_slice() {
        [.., last] if !program.is_wrong => put_numbered(out, "", flat_weight_of(last)),
        _ => put(out, "no program"),
    }
    Ok(())
}

/// Writes whether a unit of the runtime, by its place, weighs so much at most.
pub(crate) fn put_runtime_weight(
    alloc: Global,
    out: &mut Line,
    row: &str,
) -> Result<(), AllocError> {
    let mut args = Args::new(row);
    let place = args.count() as usize;
    let most = u64::from(args.count());
    let units = runtime_units(alloc)?;
    match units.as_slice().get(place) {
        Some(unit) if flat_weight_of(unit) <= most => put(out, "within"),
        Some(_) => put(out, "above"),
        None => put(out, "no unit"),
    }
    Ok(())
}
