//! Scopes of units that use others.

use crate::interface_samples::{Declared, InterfaceSample, ItemSample, first, interfaces};
use crate::rows::{expect, expect_true};
use scopes::{BOOLEAN, Entry, Found, INTEGER, STRING, Scope};
use std::alloc::{AllocError, Global};
use tree_samples::TypeSample::{Ordinal, RecordOf, SetOf, Str};
use tree_samples::{list_of_names, named};
use type_layout::{Host, Name};
use unit_interface::{Interface, ResolveError, resolve};

const MONEY: &[Declared] = &[
    ("SYSTEM", 2, Ordinal(Host::Integer, -32_768, 32_767)),
    ("T", 5, RecordOf(&[("CENTS", 0)])),
];

const MONEY_BEHIND_ANOTHER: &[Declared] = &[
    ("OTHER", 0, Str(9)),
    ("SYSTEM", 2, Ordinal(Host::Integer, -32_768, 32_767)),
    ("T", 5, RecordOf(&[("CENTS", 1)])),
];

// T declares Money, a record with an Integer; A and B have a variable of it, and in B another type stands before.
const HAVE: &[InterfaceSample] = &[
    ("T", MONEY, &[ItemSample::Ty("MONEY", 1)]),
    ("A", MONEY, &[ItemSample::Var("X", 1)]),
    ("B", MONEY_BEHIND_ANOTHER, &[ItemSample::Var("Y", 2)]),
];

// A unit for which `string` of SYSTEM is an ordinal type, the base of a set.
const STRANGE: &[InterfaceSample] = &[(
    "Q",
    &[
        ("SYSTEM", STRING.0, Ordinal(Host::Byte, 0, 255)),
        ("Q", 0, SetOf(0)),
    ],
    &[],
)];

fn resolved_for(
    alloc: Global,
    own: &Name,
    uses: &[Name],
    have: &[Interface],
) -> Result<Scope, ResolveError> {
    resolve(alloc, own, uses, have)
}

// The scope of the program P that uses these.
fn resolved(
    alloc: Global,
    have: &[InterfaceSample],
    uses: &[&str],
) -> Result<Result<Scope, ResolveError>, AllocError> {
    let have = interfaces(alloc, have)?;
    let list = list_of_names(alloc, uses)?;
    let own = named("P")?;
    Ok(resolved_for(alloc, &own, list.as_slice(), have.as_slice()))
}

// `+` for a scope, or the first letter of the fault with the unit's first letter.
fn letters(resolved: &Result<Scope, ResolveError>) -> (u8, u8) {
    match resolved {
        Ok(_) => (b'+', b'+'),
        Err(ResolveError::MissingUnit { name }) => (b'M', first(name)),
        Err(ResolveError::DuplicateUse { name }) => (b'D', first(name)),
        Err(ResolveError::Mismatch { name }) => (b'T', first(name)),
        Err(ResolveError::NoMemory) => (b'N', b'N'),
    }
}

fn told(alloc: Global, have: &[InterfaceSample], uses: &[&str]) -> Result<(u8, u8), AllocError> {
    Ok(letters(&resolved(alloc, have, uses)?))
}

/// A list of used units, and what resolving says of it.
const USES: &[(&[&str], (u8, u8))] = &[
    (&[], (b'+', b'+')),
    (&["A", "B", "T"], (b'+', b'+')),
    (&["OVERLAY", "A"], (b'+', b'+')),
    (&["A", "B", "A"], (b'D', b'A')),
    (&["OVERLAY", "OVERLAY"], (b'D', b'O')),
    (&["SYSTEM"], (b'D', b'S')),
    (&["A", "C"], (b'M', b'C')),
];

// The number of the first list of which something else is said.
fn first_wrong(alloc: Global) -> Result<Option<usize>, AllocError> {
    for number in 0..USES.len() {
        let (uses, wanted) = USES[number];
        if told(alloc, HAVE, uses)? != wanted {
            return Ok(Some(number));
        }
    }
    Ok(None)
}

#[test]
fn used_units_are_there_and_distinct(rt: HostRuntime) {
    expect(&rt, first_wrong(rt.alloc()));
}

// The block in which a variable or type is found, and its type, or the number of a routine.
fn found(scope: &Scope, name: &str) -> (u32, u32) {
    let Some(name) = Name::new(name.as_bytes()) else {
        return (99, 99);
    };
    match scope.find(&name) {
        Some(Found::Named { block, entry }) => (block, number_of(entry)),
        _ => (99, 99),
    }
}

fn number_of(entry: &Entry) -> u32 {
    match entry {
        Entry::Var { ty, .. } | Entry::Ty { ty } | Entry::Const { ty, .. } => ty.0,
        Entry::Code { routine, .. } => routine.number,
        Entry::Std { number } => *number,
    }
}

/// A name, its block, and its type or number. Money is one type, whichever unit it comes from.
const FOUND: &[(&str, (u32, u32))] = &[
    ("X", (1, 11)),
    ("Y", (3, 11)),
    ("MONEY", (4, 11)),
    ("OVROK", (2, INTEGER.0)),
    ("OVRCLEARBUF", (2, 2)),
    ("BOOLEAN", (0, BOOLEAN.0)),
];

fn first_missing(scope: &Scope) -> Option<usize> {
    for number in 0..FOUND.len() {
        let (name, wanted) = FOUND[number];
        if found(scope, name) != wanted {
            return Some(number);
        }
    }
    None
}

// The scope names P, the four used units, and OTHER, which declares a type that B shows; SYSTEM is no unit of its own.
fn are_one(scope: &Scope) -> bool {
    first_missing(scope).is_none() && scope.types().count() == 13 && scope.units().len() == 6
}

fn of_four(alloc: Global) -> Result<bool, AllocError> {
    match resolved(alloc, HAVE, &["A", "OVERLAY", "B", "T"])? {
        Ok(scope) => Ok(are_one(&scope)),
        Err(_) => Err(AllocError),
    }
}

#[test]
fn a_type_by_two_units_is_one(rt: HostRuntime) {
    expect_true(&rt, of_four(rt.alloc()));
}

fn is_strange(alloc: Global) -> Result<bool, AllocError> {
    Ok(told(alloc, STRANGE, &["Q"])? == (b'T', b'Q'))
}

#[test]
fn a_type_of_another_kind_is_a_mismatch(rt: HostRuntime) {
    expect_true(&rt, is_strange(rt.alloc()));
}
