//! Slots and rules of small lines of object types.

use crate::rows::expect;
use object_vmt::{ClassError, Classes, classes};
use std::alloc::{AllocError, Global};
use tree_samples::TypeSample::{ObjectOf, Ordinal};
use tree_samples::{HeaderSample, TypeSample, table};
use type_layout::{Host, Kind, RoutineId, TypeId, Types};

/// A type with the unit that declares it and its number there.
type Declared = (&'static str, u32, TypeSample);

const INTEGER: Declared = ("SAMPLE", 0, Ordinal(Host::Integer, -32_768, 32_767));

const PROCEDURE: HeaderSample = (Kind::Procedure, &[], None);

const DESTRUCTOR: HeaderSample = (Kind::Destructor, &[], None);

/// With an Integer parameter.
const CONSTRUCTOR: HeaderSample = (Kind::Constructor, &[(false, 0)], None);

/// With an Integer parameter.
const TAKING: HeaderSample = (Kind::Procedure, &[(false, 0)], None);

// Init and, virtual, Show and Done; Go, Hide and an override of Show; overrides of Hide, Done and Show.
const LINE: &[Declared] = &[
    INTEGER,
    (
        "SAMPLE",
        0,
        ObjectOf(
            None,
            true,
            &[("A", 0)],
            &[
                ("INIT", CONSTRUCTOR, false, RoutineId { unit: 0, number: 0 }),
                ("SHOW", PROCEDURE, true, RoutineId { unit: 0, number: 1 }),
                ("DONE", DESTRUCTOR, true, RoutineId { unit: 0, number: 2 }),
            ],
        ),
    ),
    (
        "SAMPLE",
        0,
        ObjectOf(
            Some(1),
            true,
            &[("B", 0)],
            &[
                ("GO", PROCEDURE, false, RoutineId { unit: 0, number: 3 }),
                ("HIDE", PROCEDURE, true, RoutineId { unit: 0, number: 4 }),
                ("SHOW", PROCEDURE, true, RoutineId { unit: 0, number: 5 }),
            ],
        ),
    ),
    (
        "SAMPLE",
        0,
        ObjectOf(
            Some(2),
            true,
            &[],
            &[
                ("HIDE", PROCEDURE, true, RoutineId { unit: 0, number: 6 }),
                ("DONE", DESTRUCTOR, true, RoutineId { unit: 0, number: 7 }),
                ("SHOW", PROCEDURE, true, RoutineId { unit: 0, number: 8 }),
            ],
        ),
    ),
];

fn classes_of(alloc: Global, types: &Types) -> Result<Classes, ClassError> {
    classes(alloc, types)
}

fn routine(classes: &Classes, class: u32, slot: u32) -> Option<u32> {
    let class = TypeId(class);
    if classes.has(class) && slot < classes.slots(class) {
        Some(classes.method_of(class, slot).number)
    } else {
        None
    }
}

/// A class, a slot of it, and the routine that answers it, if there is one.
const SLOTS: &[(u32, u32, Option<u32>)] = &[
    (0, 0, None),
    (1, 0, Some(1)),
    (1, 1, Some(2)),
    (1, 2, None),
    (2, 0, Some(5)),
    (2, 1, Some(2)),
    (2, 2, Some(4)),
    (2, 3, None),
    (3, 0, Some(8)),
    (3, 1, Some(7)),
    (3, 2, Some(6)),
    (3, 3, None),
];

// The number of the first row with another routine.
fn first_wrong(classes: &Classes) -> Option<usize> {
    for number in 0..SLOTS.len() {
        let (class, slot, wanted) = SLOTS[number];
        if routine(classes, class, slot) != wanted {
            return Some(number);
        }
    }
    None
}

fn first_wrong_of(alloc: Global, line: &[Declared]) -> Result<Option<usize>, AllocError> {
    let types = table(alloc, line)?;
    match classes_of(alloc, &types) {
        Ok(classes) => Ok(first_wrong(&classes)),
        Err(_) => Err(AllocError),
    }
}

#[test]
fn an_override_keeps_its_slot(rt: HostRuntime) {
    expect(&rt, first_wrong_of(rt.alloc(), LINE));
}

// The field A, the virtual method Show, and Go.
const FIRST: Declared = (
    "SAMPLE",
    0,
    ObjectOf(
        None,
        true,
        &[("A", 0)],
        &[
            ("SHOW", PROCEDURE, true, RoutineId { unit: 0, number: 0 }),
            ("GO", PROCEDURE, false, RoutineId { unit: 0, number: 1 }),
        ],
    ),
);

// This type and one over it, with these fields and one method by its name, its header and whether it is virtual.
macro_rules! over {
    ($fields:expr, $name:expr, $header:expr, $virtual:expr) => {
        &[
            INTEGER,
            FIRST,
            (
                "SAMPLE",
                0,
                ObjectOf(
                    Some(1),
                    true,
                    $fields,
                    &[($name, $header, $virtual, RoutineId { unit: 0, number: 2 })],
                ),
            ),
        ]
    };
}

/// Types, and what is told of them.
type Row = (&'static [Declared], &'static str);

const ROWS: &[Row] = &[
    (over!(&[("B", 0)], "SHOW", PROCEDURE, true), "classes"),
    (over!(&[], "GO", PROCEDURE, false), "classes"),
    (over!(&[], "GO", PROCEDURE, true), "classes"),
    (over!(&[], "SHOW", TAKING, true), "BadOverride"),
    (over!(&[], "SHOW", DESTRUCTOR, true), "BadOverride"),
    (over!(&[], "SHOW", PROCEDURE, false), "MissingVirtual"),
    (over!(&[], "A", PROCEDURE, false), "DuplicateField"),
    (over!(&[("A", 0)], "GO", PROCEDURE, false), "DuplicateField"),
    (
        over!(&[("SHOW", 0)], "GO", PROCEDURE, false),
        "DuplicateField",
    ),
];

fn told(classes: &Result<Classes, ClassError>) -> &'static str {
    match classes {
        Ok(_) => "classes",
        Err(ClassError::BadOverride { .. }) => "BadOverride",
        Err(ClassError::MissingVirtual { .. }) => "MissingVirtual",
        Err(ClassError::DuplicateField { .. }) => "DuplicateField",
        Err(ClassError::NoMemory) => "NoMemory",
    }
}

fn told_of(alloc: Global, line: &[Declared]) -> Result<&'static str, AllocError> {
    let types = table(alloc, line)?;
    Ok(told(&classes_of(alloc, &types)))
}

// The number of the first row of which something else is told.
fn first_untold(alloc: Global) -> Result<Option<usize>, AllocError> {
    for number in 0..ROWS.len() {
        let (line, wanted) = ROWS[number];
        if told_of(alloc, line)? != wanted {
            return Ok(Some(number));
        }
    }
    Ok(None)
}

#[test]
fn rules_on_overrides_and_fields(rt: HostRuntime) {
    expect(&rt, first_untold(rt.alloc()));
}
