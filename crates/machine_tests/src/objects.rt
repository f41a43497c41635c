//! Object units.

use crate::held_files::{bytes_of, put_place};
use object_file::file_parts::PartError;
use object_file::object_unit::ObjectUnit;
use object_file::{object_of, push_object};
use std::alloc::Global;
use test_rows::{Line, put, put_numbered, put_text, put_truth};
use type_layout::Bytes;

/// Writes the place of damage, or that bytes are read, where so many globals and routines stand before the unit.
pub(crate) fn put_outcome(alloc: Global, out: &mut Line, before: (usize, usize), bytes: &[u8]) {
    match object_of(alloc, before.0, before.1, bytes) {
        Ok(_) => put(out, "read"),
        Err(PartError::Damaged { left }) => {
            put_place(out, bytes.len().saturating_sub(left) as u64, bytes.len());
        }
        Err(_) => put(out, "no memory"),
    }
}

// Numbers of globals and routines, and the file.
fn asked<'a>(row: &'a str) -> Option<((usize, usize), &'a str)> {
    let (before, file) = row.split_once(" | ")?;
    let (globals, routines) = before.split_once(' ')?;
    let globals = globals.parse::<u64>().ok()?;
    let routines = routines.parse::<u64>().ok()?;
    Some(((globals as usize, routines as usize), file))
}

/// Writes the place of damage of a file, or that it is read.
pub(crate) fn put_damage(alloc: Global, out: &mut Line, held: &str, row: &str) -> Option<()> {
    let (before, file) = asked(row)?;
    let bytes = bytes_of(alloc, held, file)?;
    put_outcome(alloc, out, before, bytes.as_slice());
    Some(())
}

fn put_object(out: &mut Line, object: &ObjectUnit) {
    put_numbered(out, "globals ", object.globals.len() as u64);
    put_numbered(out, ", tables ", object.vmts.len() as u64);
    for routine in object.routines.as_slice() {
        put(out, ", routine ");
        put_text(out, routine.name.as_bytes());
        put(out, " far ");
        put_truth(out, routine.far);
        put_numbered(out, " frame ", u64::from(routine.frame));
        put_numbered(out, " bytes ", routine.code.len() as u64);
    }
}

/// Writes what an object unit has, how much stands behind it, and whether it is written as it was read.
pub(crate) fn put_read(alloc: Global, out: &mut Line, held: &str, row: &str) -> Option<()> {
    let (before, file) = asked(row)?;
    let bytes = bytes_of(alloc, held, file)?;
    match object_of(alloc, before.0, before.1, bytes.as_slice()) {
        Ok((object, rest)) => {
            put_object(out, &object);
            put_numbered(out, ", behind it ", rest.len() as u64);
            let mut written = Bytes::new(alloc);
            push_object(&mut written, &object).ok()?;
            if written.as_slice() == bytes.as_slice() {
                put(out, ", written so");
            }
        }
        Err(_) => put(out, "damaged"),
    }
    Some(())
}
