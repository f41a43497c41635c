//! The types that the programs have in common.

use tree_samples::TypeSample::{
    ArrayOf, ObjectOf, Ordinal, PointerTo, Procedural, RecordOf, SetOf, Str,
};
use tree_samples::{HeaderSample, TypeSample};
use type_layout::{Host, Kind, RoutineId, TypeId};

pub const INTEGER: TypeId = TypeId(0);

pub const BOOLEAN: TypeId = TypeId(1);

/// `string`
pub const TEXT: TypeId = TypeId(2);

/// array [1..3] of Integer
pub const ARRAY: TypeId = TypeId(4);

/// A pointer to an Integer.
pub const POINTER: TypeId = TypeId(5);

/// A record of one Integer.
pub const RECORD: TypeId = TypeId(6);

/// An object with an Integer, the constructor 0 and the virtual function 1.
pub const BASE: TypeId = TypeId(7);

/// A descendant, whose virtual function is 2, with a virtual function 4 of its own.
pub const HEIR: TypeId = TypeId(8);

pub const TO_BASE: TypeId = TypeId(9);

pub const TO_HEIR: TypeId = TypeId(10);

pub const WORD: TypeId = TypeId(11);

/// string[3]
pub const SHORT_TEXT: TypeId = TypeId(12);

/// 1..5
pub const SMALL: TypeId = TypeId(13);

pub const CHAR: TypeId = TypeId(14);

/// set of 0..255
pub const SET: TypeId = TypeId(16);

pub const LONG: TypeId = TypeId(17);

const CONSTRUCTOR: HeaderSample = (Kind::Constructor, &[], None);

const FUNCTION: HeaderSample = (Kind::Function, &[], Some(0));

/// The types of the constants above, each at its number, and what they are made of; the last is that of procedures
/// without parameters.
pub const TYPES: &[(&str, u32, TypeSample)] = &[
    ("A", 0, Ordinal(Host::Integer, -32_768, 32_767)),
    ("A", 1, Ordinal(Host::Boolean, 0, 1)),
    ("A", 2, Str(255)),
    ("A", 3, Ordinal(Host::Integer, 1, 3)),
    ("A", 4, ArrayOf(3, 0)),
    ("A", 5, PointerTo(0)),
    ("A", 6, RecordOf(&[("N", 0)])),
    (
        "A",
        7,
        ObjectOf(
            None,
            true,
            &[("N", 0)],
            &[
                ("INIT", CONSTRUCTOR, false, RoutineId { unit: 0, number: 0 }),
                ("V", FUNCTION, true, RoutineId { unit: 0, number: 1 }),
            ],
        ),
    ),
    (
        "A",
        8,
        ObjectOf(
            Some(7),
            true,
            &[("M", 0)],
            &[
                ("V", FUNCTION, true, RoutineId { unit: 0, number: 2 }),
                ("W", FUNCTION, true, RoutineId { unit: 0, number: 4 }),
            ],
        ),
    ),
    ("A", 9, PointerTo(7)),
    ("A", 10, PointerTo(8)),
    ("A", 11, Ordinal(Host::Word, 0, 65_535)),
    ("A", 12, Str(3)),
    ("A", 13, Ordinal(Host::Integer, 1, 5)),
    ("A", 14, Ordinal(Host::Char, 0, 255)),
    ("A", 15, Ordinal(Host::Byte, 0, 255)),
    ("A", 16, SetOf(15)),
    (
        "A",
        17,
        Ordinal(Host::LongInt, -2_147_483_648, 2_147_483_647),
    ),
    ("A", 18, Procedural((Kind::Procedure, &[], None))),
];
