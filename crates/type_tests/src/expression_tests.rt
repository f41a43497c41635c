//! The slot, the need and the weight of every kind of expression and place, worked out by hand.

use crate::measures::first_wrong_operand;
use crate::rows::expect;
use crate::tables::{
    BOOLEAN, BYTE, ELEMENT, EMPTY, HELD, INTEGER, LONG, ONE, PLACE, POINTER, PROCEDURAL, PRODUCT,
    ROUTINE, SET, TARGET, TEXT,
};
use tree_samples::ElementSample::{One, Span};
use tree_samples::ExprSample::{
    Binary, Call, Convert, Elements, Load, Nil, Number, Range, RoutineValue, SetOf, Text, Unary,
};
use tree_samples::StmtSample::Halt;
use tree_samples::{ArgSample, Callee, PlaceSample, StmtSample};
use typed_tree::standard::SQR;
use typed_tree::{BinaryOp, UnaryOp, Variable};

/// A `Halt`, the slot of its operand, what it needs, and what the operand weighs.
type Row = (StmtSample, (u64, u64, u64));

const CONSTANTS: &[Row] = &[
    (Halt(&Number(INTEGER, 1)), (2, 2, 24)),
    (Halt(&Number(LONG, 70_000)), (4, 4, 24)),
    (Halt(&Text(TEXT, "abc")), (4, 4, 27)),
    (Halt(&Nil(POINTER)), (4, 4, 24)),
    (Halt(&Elements(SET, &[1, 2, 9])), (32, 32, 27)),
    (Halt(&RoutineValue(PROCEDURAL, ROUTINE)), (4, 4, 24)),
];

#[test]
fn constants_by_value_and_strings_by_place(rt: HostRuntime) {
    expect(&rt, first_wrong_operand(rt.alloc(), CONSTANTS));
}

/// A variable of a routine that is reached over two static links.
const OUTER: PlaceSample = PlaceSample::Var(Variable {
    unit: 0,
    level: 3,
    number: 0,
});

const LOADS: &[Row] = &[
    (Halt(&Load(INTEGER, &PLACE)), (2, 2, 56)),
    (Halt(&Load(LONG, &OUTER)), (4, 4, 72)),
    (Halt(&Load(TEXT, &PLACE)), (256, 256, 56)),
    (Halt(&Load(SET, &PLACE)), (32, 32, 56)),
    (Halt(&Load(POINTER, &PLACE)), (4, 4, 56)),
    (Halt(&Load(EMPTY, &PLACE)), (4, 4, 56)),
    (Halt(&Load(PROCEDURAL, &PLACE)), (4, 4, 56)),
];

#[test]
fn variables_by_their_type(rt: HostRuntime) {
    expect(&rt, first_wrong_operand(rt.alloc(), LOADS));
}

const PARTS: &[Row] = &[
    (Halt(&Load(LONG, &TARGET)), (4, 4, 120)),
    (Halt(&Load(INTEGER, &ELEMENT)), (2, 8, 208)),
    (
        Halt(&Load(INTEGER, &PlaceSample::FieldOf(&TARGET, 0))),
        (2, 4, 144),
    ),
];

#[test]
fn places_use_four_and_their_parts(rt: HostRuntime) {
    expect(&rt, first_wrong_operand(rt.alloc(), PARTS));
}

const OPERATORS: &[Row] = &[
    (Halt(&Unary(INTEGER, UnaryOp::Minus, &HELD)), (2, 2, 104)),
    (
        Halt(&Unary(LONG, UnaryOp::Minus, &Number(LONG, 1))),
        (4, 4, 72),
    ),
    (
        Halt(&Binary(INTEGER, BinaryOp::Add, &HELD, &PRODUCT, false)),
        (2, 6, 328),
    ),
    (
        Halt(&Binary(
            BOOLEAN,
            BinaryOp::Less,
            &Number(LONG, 1),
            &Load(LONG, &PLACE),
            false,
        )),
        (2, 8, 176),
    ),
    (
        Halt(&Binary(
            TEXT,
            BinaryOp::Add,
            &Text(TEXT, "ab"),
            &Load(TEXT, &PLACE),
            false,
        )),
        (256, 260, 178),
    ),
    (
        Halt(&Binary(
            BOOLEAN,
            BinaryOp::In,
            &Number(BYTE, 3),
            &Load(SET, &PLACE),
            false,
        )),
        (2, 34, 176),
    ),
];

#[test]
fn operands_lie_above_one_another(rt: HostRuntime) {
    expect(&rt, first_wrong_operand(rt.alloc(), OPERATORS));
}

// The last is `[1, 2..n]`, n being a variable.
const CONVERSIONS: &[Row] = &[
    (Halt(&Convert(LONG, &HELD)), (4, 4, 104)),
    (Halt(&Convert(TEXT, &Number(BYTE, 65))), (256, 256, 72)),
    (Halt(&Range(INTEGER, &HELD, 1, 5)), (2, 2, 120)),
    (
        Halt(&SetOf(
            SET,
            &[One(Number(INTEGER, 1)), Span(Number(INTEGER, 2), HELD)],
        )),
        (32, 36, 296),
    ),
];

#[test]
fn conversions_and_sets(rt: HostRuntime) {
    expect(&rt, first_wrong_operand(rt.alloc(), CONVERSIONS));
}

const CALLS: &[Row] = &[
    (
        Halt(&Call(
            Some(INTEGER),
            Callee::Routine(ROUTINE),
            &[ArgSample::Value(HELD)],
        )),
        (2, 4, 184),
    ),
    (
        Halt(&Call(
            None,
            Callee::Method(ROUTINE, &PLACE),
            &[ArgSample::Value(Number(LONG, 1))],
        )),
        (0, 8, 208),
    ),
    (
        Halt(&Call(Some(TEXT), Callee::Routine(ROUTINE), &[])),
        (256, 256, 96),
    ),
];

#[test]
fn arguments_lie_above_one_another(rt: HostRuntime) {
    expect(&rt, first_wrong_operand(rt.alloc(), CALLS));
}

// An instance, or the variable that is called through, counts as an argument.
const OTHER_CALLS: &[Row] = &[
    (
        Halt(&Call(Some(LONG), Callee::Virtual(&PLACE, 2, true), ONE)),
        (4, 10, 208),
    ),
    (Halt(&Call(None, Callee::Through(&PLACE), ONE)), (0, 6, 208)),
    (
        Halt(&Call(
            Some(INTEGER),
            Callee::Standard(SQR),
            &[ArgSample::Place(PLACE)],
        )),
        (2, 6, 152),
    ),
    (
        Halt(&Call(Some(POINTER), Callee::Make(POINTER, ROUTINE), ONE)),
        (4, 6, 248),
    ),
];

#[test]
fn an_instance_counts_as_an_argument(rt: HostRuntime) {
    expect(&rt, first_wrong_operand(rt.alloc(), OTHER_CALLS));
}
