//! Object units, and the lines of routines before any address is known.

use code_templates::code_references::MarkedLines;
use codegen_8086::generate_code::Numbers;
use codegen_8086::generate_routines::push_routine;
use codegen_8086::{GenError, generate, has_short_arguments};
use flat_code::{FlatRoutine, FlatUnit};
use object_file::object_unit::{Code8086, ObjectUnit};
use std::alloc::Global;
use test_rows::{Line, part, put, put_bytes, put_numbered, put_shown};
use x86_table::{CodeBytes, LineList, assemble, is_small};

/// The object unit of a unit, or why there is none; nothing where the unit can't be asked for.
pub(crate) fn generated(alloc: Global, unit: &FlatUnit) -> Option<Result<ObjectUnit, GenError>> {
    if unit.names.as_slice().is_empty() || !has_short_arguments(unit) {
        return None;
    }
    Some(generate(alloc, unit))
}

// The bytes of a routine, and its references: where they stand, of which kind they are, and to what number.
fn put_code(out: &mut Line, code: &Code8086) {
    part(out, "; ");
    put_bytes(out, code.code.as_slice());
    for one in code.refs.as_slice() {
        put_numbered(out, ", at ", u64::from(one.offset));
        put(out, " ");
        put_shown(out, &one.kind);
        put_numbered(out, " ", u64::from(one.number));
    }
}

/// Writes the code of a unit, or that it is too large.
pub(crate) fn put_object(alloc: Global, out: &mut Line, unit: &FlatUnit) {
    match generated(alloc, unit) {
        Some(Ok(object)) => {
            for code in object.routines.as_slice() {
                put_code(out, code);
            }
        }
        Some(Err(GenError::CodeTooLarge { bytes })) => {
            put_numbered(out, "too large: ", bytes);
        }
        Some(Err(_)) => put(out, "no memory"),
        None => put(out, "no unit"),
    }
}

fn code_of(alloc: Global, unit: &FlatUnit, routine: &FlatRoutine) -> Option<CodeBytes> {
    let mut numbers = Numbers::new(alloc, unit.routines.as_slice().len()).ok()?;
    let mut marked = MarkedLines::new(alloc);
    push_routine(&mut marked, &mut numbers, unit, routine).ok()?;
    let mut lines = LineList::new(alloc);
    for line in marked.as_slice() {
        lines.push(line.line).ok()?;
    }
    if !is_small(lines.as_slice()) {
        return None;
    }
    Some(assemble(alloc, lines.as_slice()).ok()?.bytes)
}

/// Writes the bytes of each routine of a unit, with references that are still to be filled.
pub(crate) fn put_routines(alloc: Global, out: &mut Line, unit: &FlatUnit) {
    for routine in unit.routines.as_slice() {
        part(out, "; ");
        match code_of(alloc, unit, routine) {
            Some(bytes) => put_bytes(out, bytes.as_slice()),
            None => put(out, "no code"),
        }
    }
}
