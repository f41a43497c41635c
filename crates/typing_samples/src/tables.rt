//! The scope of the tests. Types are told by their ids; those below 11 are predeclared: 0 to 4 the integers, 5 Char, 6 Boolean,
//! 7 string, 8 to 10 the sets of 0..255, of Char and of Boolean.

use crate::declared::Known::{Chars, Elements, Number, Routine, Type, Variable};
use crate::declared::Shape::{ArrayOf, ObjectOf, Ordinal, PointerTo, RecordOf, SetOf, Str};
use crate::declared::{Known, Shape, add_types, declare};
use scopes::{BlockKind, Scope};
use std::alloc::{AllocError, Global};
use type_layout::{Host, Name};

// From 11 on: 0..9; a record; an array of Byte over 0..9; a pointer to Integer; an enumeration of three and the set over it; one
// over which there is no set; an object, its descendant, and pointers to these; an object that says its class; string[5].
const TYPES: &[Shape] = &[
    Ordinal(Host::Integer, 0, 9),
    RecordOf(&[("X", 2), ("Y", 1)]),
    ArrayOf(11, 1),
    PointerTo(2),
    Ordinal(Host::Enumeration, 0, 2),
    SetOf(15),
    Ordinal(Host::Enumeration, 0, 2),
    ObjectOf(None, false, &[("X", 2)]),
    ObjectOf(Some(18), false, &[("Y", 2)]),
    PointerTo(18),
    PointerTo(19),
    ObjectOf(None, true, &[("N", 2)]),
    Str(5),
];

// A variable of each predeclared type; D to OV of the types from 11 on.
const VARIABLES: &[(&str, Known)] = &[
    ("S", Variable(0, 0)),
    ("B", Variable(0, 1)),
    ("I", Variable(0, 2)),
    ("W", Variable(0, 3)),
    ("L", Variable(0, 4)),
    ("C", Variable(0, 5)),
    ("T", Variable(0, 6)),
    ("U", Variable(0, 7)),
    ("SB", Variable(0, 8)),
    ("SC", Variable(0, 9)),
    ("D", Variable(0, 11)),
    ("R", Variable(0, 12)),
    ("A", Variable(0, 13)),
    ("P", Variable(0, 14)),
    ("E", Variable(0, 15)),
    ("SE", Variable(0, 16)),
    ("F", Variable(0, 17)),
    ("OA", Variable(0, 18)),
    ("OB", Variable(0, 19)),
    ("PA", Variable(0, 20)),
    ("PB", Variable(0, 21)),
    ("OV", Variable(0, 22)),
];

// The enumerations' values are RED, GREEN and BLUE, and PEAR, PLUM and FIG.
const CONSTANTS: &[(&str, Known)] = &[
    ("COLOUR", Type(15)),
    ("CLASSED", Type(22)),
    ("SHORT", Type(23)),
    ("RED", Number(15, 0)),
    ("GREEN", Number(15, 1)),
    ("BLUE", Number(15, 2)),
    ("PEAR", Number(17, 0)),
    ("PLUM", Number(17, 1)),
    ("FIG", Number(17, 2)),
    ("M", Number(2, -1)),
    ("K", Number(5, 75)),
    ("KA", Elements(8, &[1, 5])),
    ("KB", Elements(8, &[5, 9])),
    ("LONG", Chars("abcdef")),
];

// FI takes an Integer and gives a Word, GB takes a Byte variable, GU a string, H takes nothing, Z is a procedure; GA takes a variable
// of the object type, HA a pointer to one, HS a set.
const ROUTINES: &[(&str, Known)] = &[
    ("FI", Routine(Some((false, 2)), Some(3))),
    ("GB", Routine(Some((true, 1)), Some(2))),
    ("GU", Routine(Some((false, 7)), Some(5))),
    ("H", Routine(None, Some(6))),
    ("Z", Routine(None, None)),
    ("GA", Routine(Some((true, 18)), Some(6))),
    ("HA", Routine(Some((false, 20)), Some(6))),
    ("HS", Routine(Some((false, 8)), Some(6))),
];

fn empty(alloc: Global) -> Result<Scope, AllocError> {
    match Name::new(b"P") {
        Some(name) => Scope::new(alloc, name),
        None => Err(AllocError),
    }
}

fn declare_all(alloc: Global, scope: &mut Scope) -> Result<(), AllocError> {
    add_types(alloc, scope, TYPES)?;
    declare(alloc, scope, VARIABLES)?;
    declare(alloc, scope, CONSTANTS)?;
    declare(alloc, scope, ROUTINES)
}

// A routine in another, with the variables V and O.
fn begin_routines(alloc: Global, scope: &mut Scope) -> Result<(), AllocError> {
    let owner = None;
    scope.begin(BlockKind::Routine { number: 0, owner })?;
    declare(alloc, scope, &[("O", Variable(1, 2))])?;
    scope.begin(BlockKind::Routine { number: 1, owner })?;
    declare(alloc, scope, &[("V", Variable(2, 2))])
}

/// The scope inside a routine that lies in another.
pub fn sample(alloc: Global) -> Result<Scope, AllocError> {
    let mut scope = empty(alloc)?;
    scope.begin(BlockKind::Part)?;
    declare_all(alloc, &mut scope)?;
    begin_routines(alloc, &mut scope)?;
    Ok(scope)
}
