//! What a source gives.

use crate::sources::{Interfaces, Source, all_uses, outer_uses, source_of};
use std::alloc::{AllocError, Global};
use tp_check_decl::{check, check_interface};
use typed_tree::Unit;
use typing_rules::CheckError;
use typing_samples::{Line, empty_line, put, put_count, put_error, put_numbered};
use unit_interface::{Interface, resolve};

// A source that isn't spelled as one, or for which a unit is missing, is not read.
fn unread(alloc: Global) -> Line {
    let mut out = empty_line(alloc);
    put(&mut out, "unread");
    out
}

// How many routines, globals and items there are, and the number of the main or initialisation part.
fn show_unit(out: &mut Line, unit: &Unit) {
    put_count(out, "unit ", unit.routines.len() as u64);
    put_count(out, " ", unit.globals.len() as u64);
    put_count(out, " ", unit.items.len() as u64);
    if let Some(number) = unit.initial {
        put_numbered(out, " init ", i64::from(number));
    }
}

fn answer(alloc: Global, found: &Result<Unit, CheckError>) -> Line {
    let mut out = empty_line(alloc);
    match found {
        Ok(one) => show_unit(&mut out, one),
        Err(error) => put_error(&mut out, error),
    }
    out
}

// What a source gives, where these interfaces are there.
fn checked(alloc: Global, one: &Source, have: &[Interface]) -> Result<Line, AllocError> {
    let uses = all_uses(alloc, &one.tree)?;
    if resolve(alloc, &one.name, uses.as_slice(), have).is_err() {
        return Ok(unread(alloc));
    }
    let outer = outer_uses(alloc, &one.tree)?;
    match resolve(alloc, &one.name, outer.as_slice(), have) {
        Ok(scope) => {
            let found = check(alloc, &one.name, &one.tree, &one.says, &scope, have);
            Ok(answer(alloc, &found))
        }
        Err(_) => Ok(unread(alloc)),
    }
}

// What a source shows, where these interfaces are there.
fn shown(alloc: Global, one: &Source, have: &[Interface]) -> Result<Option<Interface>, AllocError> {
    let uses = outer_uses(alloc, &one.tree)?;
    match resolve(alloc, &one.name, uses.as_slice(), have) {
        Ok(scope) => match check_interface(alloc, &one.name, &one.tree, &one.says, &scope) {
            Ok(interface) => Ok(Some(interface)),
            Err(_) => Ok(None),
        },
        Err(_) => Ok(None),
    }
}

// The interface of a source, if it has one.
fn interfaces(
    alloc: Global,
    name: &str,
    text: &str,
    have: &[Interface],
) -> Result<Interfaces, AllocError> {
    let mut all = Vec::new(alloc);
    let Some(one) = source_of(alloc, name, text)? else {
        return Ok(all);
    };
    let Some(interface) = shown(alloc, &one, have)? else {
        return Ok(all);
    };
    match all.push(interface) {
        Ok(()) => Ok(all),
        Err(_) => Err(AllocError),
    }
}

fn told_of(alloc: Global, name: &str, text: &str, have: &[Interface]) -> Result<Line, AllocError> {
    match source_of(alloc, name, text)? {
        Some(one) => checked(alloc, &one, have),
        None => Ok(unread(alloc)),
    }
}

/// What a text gives as a file of this name.
pub(crate) fn of_file(alloc: Global, name: &str, text: &str) -> Result<Line, AllocError> {
    told_of(alloc, name, text, &[])
}

/// What a text gives as a file of this name beside another one, of which the interface was made when the file had an older text.
pub(crate) fn beside(
    alloc: Global,
    own: (&str, &str),
    older: &str,
    other: (&str, &str),
) -> Result<Line, AllocError> {
    let first = interfaces(alloc, own.0, older, &[])?;
    let used = interfaces(alloc, other.0, other.1, first.as_slice())?;
    told_of(alloc, own.0, own.1, used.as_slice())
}

fn show_items(out: &mut Line, all: &[Interface]) {
    match all {
        [one] => {
            put_count(out, "", one.items.len() as u64);
            put(out, " items");
        }
        _ => put(out, "no interface"),
    }
}

/// How many items a text shows as a file of this name, if it shows any.
pub(crate) fn items_of(alloc: Global, name: &str, text: &str) -> Result<Line, AllocError> {
    let all = interfaces(alloc, name, text, &[])?;
    let mut out = empty_line(alloc);
    show_items(&mut out, all.as_slice());
    Ok(out)
}
