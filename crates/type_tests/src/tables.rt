//! The types and the trees that the tests have in common.

use tree_samples::{ArgSample, ExprSample, PlaceSample, RoutineSample, TypeSample, UnitSample};
use type_layout::{Host, Kind, RoutineId, TypeId};
use typed_tree::{BinaryOp, Variable};

pub(crate) const INTEGER: TypeId = TypeId(0);

pub(crate) const BOOLEAN: TypeId = TypeId(1);

pub(crate) const LONG: TypeId = TypeId(2);

pub(crate) const BYTE: TypeId = TypeId(3);

pub(crate) const TEXT: TypeId = TypeId(4);

pub(crate) const SET: TypeId = TypeId(5);

pub(crate) const POINTER: TypeId = TypeId(6);

pub(crate) const EMPTY: TypeId = TypeId(7);

pub(crate) const PROCEDURAL: TypeId = TypeId(8);

/// The types of the constants above, each at its number.
pub(crate) const TYPES: &[(&str, u32, TypeSample)] = &[
    (
        "SAMPLE",
        0,
        TypeSample::Ordinal(Host::Integer, -32_768, 32_767),
    ),
    ("SAMPLE", 0, TypeSample::Ordinal(Host::Boolean, 0, 1)),
    (
        "SAMPLE",
        0,
        TypeSample::Ordinal(Host::LongInt, i32::MIN, i32::MAX),
    ),
    ("SAMPLE", 0, TypeSample::Ordinal(Host::Byte, 0, 255)),
    ("SAMPLE", 0, TypeSample::Str(255)),
    ("SAMPLE", 0, TypeSample::SetOf(3)),
    ("SAMPLE", 0, TypeSample::PointerTo(2)),
    ("SAMPLE", 0, TypeSample::RecordOf(&[])),
    (
        "SAMPLE",
        0,
        TypeSample::Procedural((Kind::Procedure, &[], None)),
    ),
];

/// A unit over these types.
pub(crate) const UNIT: UnitSample = UnitSample {
    names: &["CALLS"],
    types: TYPES,
    globals: &[],
    initial: None,
    overlayable: false,
    overlaid: &[],
    stack: 1024,
    heap: 0,
};

/// A far procedure without parameters.
pub(crate) const PROCEDURE: RoutineSample = RoutineSample {
    header: (Kind::Procedure, &[], None),
    owner: None,
    outer: None,
    far: true,
    locals: &[],
};

/// Routine 0 of the unit itself.
pub(crate) const ROUTINE: RoutineId = RoutineId { unit: 0, number: 0 };

/// The first variable of the routine itself.
pub(crate) const FIRST: Variable = Variable {
    unit: 0,
    level: 1,
    number: 0,
};

/// Its place.
pub(crate) const PLACE: PlaceSample = PlaceSample::Var(FIRST);

/// What it holds.
pub(crate) const HELD: ExprSample = ExprSample::Load(INTEGER, &PLACE);

/// What it points to.
pub(crate) const TARGET: PlaceSample = PlaceSample::Deref(&ExprSample::Load(POINTER, &PLACE));

/// An element of it, by a LongInt.
pub(crate) const ELEMENT: PlaceSample = PlaceSample::Index(
    &PLACE,
    &ExprSample::Load(LONG, &PLACE),
    true,
);

/// n * 2, n being a variable.
pub(crate) const PRODUCT: ExprSample = ExprSample::Binary(
    INTEGER,
    BinaryOp::Multiply,
    &HELD,
    &ExprSample::Number(INTEGER, 2),
    false,
);

/// The arguments of an Integer alone.
pub(crate) const ONE: &[ArgSample] = &[ArgSample::Value(ExprSample::Number(INTEGER, 1))];
