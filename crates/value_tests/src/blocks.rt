//! The sum of blocks.

use common_values::blocks::{AddError, Blocks, rounded};
use std::alloc::Global;
use test_rows::{Line, part, put, put_number, word};

fn size_of(text: &str) -> Option<u16> {
    word(text).ok()
}

fn put_added(out: &mut Line, added: Result<(), AddError>) {
    match added {
        Ok(()) => put(out, "done"),
        Err(AddError::HeapFull) => put(out, "full"),
        Err(_) => put(out, "no memory"),
    }
}

fn run_step(blocks: &mut Blocks, out: &mut Line, step: &str) -> Option<()> {
    let (verb, rest) = step.split_once(' ').unwrap_or((step, ""));
    let (size, heap) = rest.split_once(' ').unwrap_or((rest, ""));
    match verb {
        "round" => put_number(out, i64::from(rounded(size_of(size)?))),
        "add" => put_added(out, blocks.add(size_of(size)?, u32::from(size_of(heap)?))),
        "remove" => {
            blocks.remove(size_of(size)?);
            put(out, "done");
        }
        "sum" => put_number(out, i64::from(blocks.sum())),
        _ => return None,
    }
    Some(())
}

/// Writes what the steps of a row find, where there is no block at first.
pub(crate) fn put_steps(alloc: Global, out: &mut Line, row: &str) {
    let mut blocks = Blocks::new(alloc);
    for step in row.split("; ") {
        part(out, " ");
        if run_step(&mut blocks, out, step).is_none() {
            put(out, "no step");
        }
    }
}
