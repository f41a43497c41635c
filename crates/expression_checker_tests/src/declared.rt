//! A scope with types and constants, for the tests.

use scopes::{BlockKind, Scope};
use std::alloc::{AllocError, Global};
use type_layout::{Host, Name};
use typing_samples::Known::{Chars, Number, Type, Variable};
use typing_samples::Shape::{
    ArrayOf, ObjectOf, Ordinal, PointerTo, Procedural, RecordOf, SetOf, Str,
};
use typing_samples::{Known, Shape, add_types, declare};

// By their ids from 11 on; those below are predeclared: 1 Byte, 2 Integer, 5 Char, 6 Boolean.
const TYPES: &[Shape] = &[
    Ordinal(Host::Enumeration, 0, 2),
    SetOf(11),
    Ordinal(Host::ShortInt, 0, 9),
    SetOf(13),
    Ordinal(Host::ShortInt, 10, 20),
    SetOf(15),
    Ordinal(Host::LongInt, 0, 100_000),
    Ordinal(Host::Char, 97, 122),
    Str(5),
    Ordinal(Host::ShortInt, 1, 3),
    Ordinal(Host::ShortInt, 1, 2),
    ArrayOf(20, 2),
    ArrayOf(6, 22),
    ArrayOf(21, 19),
    ArrayOf(21, 5),
    RecordOf(&[("X", 2), ("Y", 1)]),
    RecordOf(&[("A", 26), ("T", 19), ("F", 6)]),
    PointerTo(2),
    ArrayOf(13, 28),
    RecordOf(&[("N", 2), ("P", 28)]),
    ObjectOf(None, false, &[]),
    Procedural,
    Ordinal(Host::Enumeration, 1, 2),
    SetOf(11),
    SetOf(33),
];

// COLOUR = (RED, GREEN, BLUE) and WARM = GREEN..BLUE; DIGIT = 0..9, TEEN = 10..20, BIG = 0..100000, LETTER = 'a'..'z'; sets of some
// of these; S5 = string[5]; ROW = array[1..3] of Integer, GRID = array[Boolean] of ROW, LINES = array[1..2] of S5, LETTERS of Char;
// POINT and BOX are records. The others are pointers, or have parts that are.
const NAMES: &[(&str, Known)] = &[
    ("COLOUR", Type(11)),
    ("COLOURS", Type(12)),
    ("DIGIT", Type(13)),
    ("DIGITS", Type(14)),
    ("TEENS", Type(16)),
    ("BIG", Type(17)),
    ("LETTER", Type(18)),
    ("CHARS", Type(9)),
    ("S5", Type(19)),
    ("ROW", Type(22)),
    ("GRID", Type(23)),
    ("LINES", Type(24)),
    ("LETTERS", Type(25)),
    ("POINT", Type(26)),
    ("BOX", Type(27)),
    ("PTR", Type(28)),
    ("LINKS", Type(29)),
    ("NODE", Type(30)),
    ("OBJ", Type(31)),
    ("PROC", Type(32)),
    ("WARM", Type(33)),
    ("WARMS", Type(35)),
    ("RED", Number(11, 0)),
    ("GREEN", Number(11, 1)),
    ("BLUE", Number(11, 2)),
    ("M", Number(2, -1)),
    ("K", Number(5, 75)),
    ("LONG", Chars("abcdef")),
    ("V", Variable(0, 2)),
];

/// A name.
pub(crate) fn named(text: &str) -> Result<Name, AllocError> {
    match Name::new(text.as_bytes()) {
        Some(name) => Ok(name),
        None => Err(AllocError),
    }
}

/// The scope.
pub(crate) fn scope(alloc: Global) -> Result<Scope, AllocError> {
    let mut scope = Scope::new(alloc, named("P")?)?;
    scope.begin(BlockKind::Part)?;
    add_types(alloc, &mut scope, TYPES)?;
    declare(alloc, &mut scope, NAMES)?;
    Ok(scope)
}
