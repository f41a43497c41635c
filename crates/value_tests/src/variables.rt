//! Variables and blocks by their serial numbers.

use crate::cells::{path_in, put_trap};
use interpreter_store::cell_store::{Key, Spot, Stop, Store, Trap, Tree, Value};
use std::alloc::Global;
use test_rows::{Line, part, put, put_number, put_numbered, put_shown, whole, word};
use type_layout::{Name, Sequence};

fn serial(text: &str) -> Option<usize> {
    Some(usize::from(word(text).ok()?))
}

// A serial number and a second number.
fn pair(text: &str) -> Option<(u16, u16)> {
    let (first, second) = text.split_once(' ')?;
    Some((word(first).ok()?, word(second).ok()?))
}

/// A pointer: `nil`, `void`, or the number of a block.
pub(crate) fn pointer(text: &str) -> Option<Value> {
    match text {
        "nil" => Some(Value::Nil),
        "void" => Some(Value::Void),
        _ => Some(Value::Block(serial(text)?)),
    }
}

fn put_variable(alloc: Global, out: &mut Line, store: &Store, serial: usize) {
    match store.value_at(&Spot::whole(alloc, serial)) {
        Ok(value) => match value.number() {
            Ok(number) => put_number(out, i64::from(number)),
            Err(trap) => put_shown(out, &trap),
        },
        Err(trap) => put_shown(out, &trap),
    }
}

fn put_followed(out: &mut Line, followed: Result<usize, Trap>) {
    match followed {
        Ok(serial) => put_numbered(out, "", serial as u64),
        Err(trap) => put_shown(out, &trap),
    }
}

fn put_made(out: &mut Line, made: Result<(), Stop>) {
    match made {
        Ok(()) => put(out, "done"),
        Err(stop) => put_shown(out, &stop),
    }
}

// Drops so many variables from one on, if they are there.
fn dropped(store: &mut Store, first: usize, count: usize) -> &'static str {
    let length = store.objects.len();
    if first <= length && count <= length - first {
        store.drop_variables(first, count);
        "done"
    } else {
        "no variables"
    }
}

// The number of a class, by way of a copy.
fn put_class(alloc: Global, out: &mut Line, number: u16) -> Option<()> {
    let unit = Name::new(b"A")?;
    let number = u32::from(number);
    let class = Value::Class(Some(Key { unit, number })).copied(alloc).ok()?;
    match class.class() {
        Ok(Some(key)) => put_number(out, i64::from(key.number)),
        _ => put(out, "no class"),
    }
    Some(())
}

// A place inside another one, by way of a copy: its object, and its path.
fn put_inside(alloc: Global, out: &mut Line, object: usize, text: &str) -> Option<()> {
    let (path, inner) = text.split_once(' ')?;
    let path = Sequence::from_vec(path_in(alloc, path).ok()?);
    let spot = Spot { object, path };
    let inside = spot.inside(alloc, u32::from(word(inner).ok()?)).ok()?;
    let copy = inside.copied(alloc).ok()?;
    put_numbered(out, "", copy.object as u64);
    for one in copy.path.as_slice() {
        put(out, ".");
        put_number(out, i64::from(*one));
    }
    Some(())
}

fn change(alloc: Global, store: &mut Store, out: &mut Line, verb: &str, rest: &str) -> Option<()> {
    let (first, second) = pair(rest)?;
    match verb {
        "drop" => put(out, dropped(store, usize::from(first), usize::from(second))),
        "replace" => {
            let spot = Spot::whole(alloc, usize::from(first));
            put_trap(out, store.replace(&spot, Tree::number(i32::from(second))));
        }
        "make" => put_made(out, store.make(Tree::number(1), first, u32::from(second))),
        "dispose" => put_trap(out, store.dispose(usize::from(first), second)),
        _ => return None,
    }
    Some(())
}

fn run_step(alloc: Global, store: &mut Store, out: &mut Line, step: &str) -> Option<()> {
    let (verb, rest) = step.split_once(' ').unwrap_or((step, ""));
    match verb {
        "push" => put_made(out, pushed(store, whole(rest).ok()?)),
        "next" => put_numbered(out, "", store.next_serial() as u64),
        "number" => put_variable(alloc, out, store, serial(rest)?),
        "follow" => put_followed(out, store.followed(&pointer(rest)?)),
        "class" => return put_class(alloc, out, word(rest).ok()?),
        "inside" => {
            let (object, others) = rest.split_once(' ')?;
            return put_inside(alloc, out, serial(object)?, others);
        }
        _ => return change(alloc, store, out, verb, rest),
    }
    Some(())
}

fn pushed(store: &mut Store, number: i32) -> Result<(), Stop> {
    match store.push(Tree::number(number)) {
        Ok(()) => Ok(()),
        Err(_) => Err(Stop::OutOfMemory),
    }
}

/// Writes what the steps of a row find in a store, which is empty at first.
pub(crate) fn put_steps(alloc: Global, out: &mut Line, row: &str) {
    let mut store = Store::new(alloc);
    for step in row.split("; ") {
        part(out, " ");
        if run_step(alloc, &mut store, out, step).is_none() {
            put(out, "no step");
        }
    }
}
