//! Trees of cells.

use crate::strings::put_text;
use interpreter_store::cell_store::{Stop, Trap, Tree, Value};
use std::alloc::{AllocError, Global};
use test_rows::{Line, part, put, put_number, put_numbered, put_shown, text_bytes, whole, word};

/// Numbers with dots between them.
pub(crate) fn path_in(alloc: Global, text: &str) -> Result<Vec<u32>, AllocError> {
    let mut path = Vec::new(alloc);
    for one in text.split('.') {
        path.push(u32::from(word(one)?))?;
    }
    Ok(path)
}

// The cells of a new string of a size.
fn string(alloc: Global, size: u16) -> Result<Tree, AllocError> {
    let mut cells = Vec::new(alloc);
    for _ in 0..=size {
        cells.push(Tree::Leaf(None))?;
    }
    Ok(Tree::Parts(cells))
}

// 1, and a part of 2 and 3.
fn nested(alloc: Global) -> Result<Tree, AllocError> {
    let mut inner = Vec::new(alloc);
    inner.push(Tree::number(2))?;
    inner.push(Tree::number(3))?;
    let mut outer = Vec::new(alloc);
    outer.push(Tree::number(1))?;
    outer.push(Tree::Parts(inner))?;
    Tree::Parts(outer).copied(alloc)
}

fn put_held_text(out: &mut Line, text: &Result<Vec<u8>, Stop>) {
    match text {
        Ok(text) => put_text(out, text.as_slice()),
        Err(stop) => put_shown(out, stop),
    }
}

// The number of a cell, if it holds one.
fn put_held(out: &mut Line, cell: Option<&Tree>) {
    match cell {
        Some(cell) => match cell.value() {
            Ok(Value::Ordinal(z)) => put_number(out, i64::from(*z)),
            _ => put(out, "no number"),
        },
        None => put(out, "no part"),
    }
}

/// Writes a trap, if there is one.
pub(crate) fn put_trap(out: &mut Line, done: Result<(), Trap>) {
    match done {
        Ok(()) => put(out, "done"),
        Err(trap) => put_shown(out, &trap),
    }
}

fn write_text(alloc: Global, tree: &mut Tree, out: &mut Line, text: &str) -> Option<()> {
    let bytes = text_bytes(alloc, text).ok()?;
    match tree.with_text(alloc, bytes.as_slice()) {
        Ok(changed) => {
            *tree = changed;
            put(out, "done");
        }
        Err(stop) => put_shown(out, &stop),
    }
    Some(())
}

fn exchange(alloc: Global, tree: &mut Tree, out: &mut Line, text: &str) -> Option<()> {
    let (path, number) = text.split_once(' ')?;
    let path = path_in(alloc, path).ok()?;
    let number = Tree::number(whole(number).ok()?);
    put_trap(out, tree.exchange(path.as_slice(), number));
    Some(())
}

fn run_step(alloc: Global, tree: &mut Tree, out: &mut Line, step: &str) -> Option<()> {
    let (verb, rest) = step.split_once(' ').unwrap_or((step, ""));
    match verb {
        "string" => {
            *tree = string(alloc, word(rest).ok()?).ok()?;
            put(out, "made");
        }
        "nested" => {
            *tree = nested(alloc).ok()?;
            put(out, "made");
        }
        "write" => return write_text(alloc, tree, out, rest),
        "text" => put_held_text(out, &tree.text(alloc)),
        "parts" => put_numbered(out, "", tree.part_count() as u64),
        "set" => return exchange(alloc, tree, out, rest),
        "at" => {
            let path = path_in(alloc, rest).ok()?;
            put_held(out, tree.part_at(path.as_slice()));
        }
        _ => return None,
    }
    Some(())
}

/// Writes what the steps of a row find in a tree of cells.
pub(crate) fn put_steps(alloc: Global, out: &mut Line, row: &str) {
    let mut tree = Tree::Leaf(None);
    for step in row.split("; ") {
        part(out, " ");
        if run_step(alloc, &mut tree, out, step).is_none() {
            put(out, "no step");
        }
    }
}
