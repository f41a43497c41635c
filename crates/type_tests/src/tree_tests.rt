//! Frames and weights of whole routines and units, worked out by hand.

use crate::measures::{Frame, first_wrong_frame, first_wrong_slot, weighs};
use crate::rows::{expect, expect_true};
use crate::tables::{
    BOOLEAN, BYTE, EMPTY, HELD, INTEGER, LONG, POINTER, PROCEDURAL, PROCEDURE, ROUTINE, SET, TEXT,
};
use tree_samples::ExprSample::{Binary, Call, Number};
use tree_samples::StmtSample::{Block, If, Run};
use tree_samples::{ArgSample, Callee, Code, RoutineSample, StmtSample};
use type_layout::{Kind, TypeId};
use typed_tree::BinaryOp;

// procedure P(n: Integer); begin if n > 0 then P(n - 1) end
const RECURSIVE: RoutineSample = RoutineSample {
    header: (Kind::Procedure, &[(false, 0)], None),
    far: false,
    ..PROCEDURE
};

// The same, nested in the routine behind it.
const NESTED: RoutineSample = RoutineSample {
    header: (Kind::Procedure, &[(false, 0)], None),
    outer: Some(1),
    far: false,
    ..PROCEDURE
};

const BODY: StmtSample = If(
    Binary(
        BOOLEAN,
        BinaryOp::Greater,
        &HELD,
        &Number(INTEGER, 0),
        false,
    ),
    &Run(Call(
        None,
        Callee::Routine(ROUTINE),
        &[ArgSample::Value(Binary(
            INTEGER,
            BinaryOp::Subtract,
            &HELD,
            &Number(INTEGER, 1),
            false,
        ))],
    )),
    &Block(&[]),
);

// begin P(49) end.
const MAIN: StmtSample = Run(Call(
    None,
    Callee::Routine(ROUTINE),
    &[ArgSample::Value(Number(INTEGER, 49))],
));

const RECURSION: &[Code<'static>] = &[(&RECURSIVE, &BODY), (&PROCEDURE, &MAIN)];

const NESTED_RECURSION: &[Code<'static>] = &[(&NESTED, &BODY), (&PROCEDURE, &MAIN)];

const RECURSION_FRAMES: &[Frame] = &[
    (RECURSION, 0, (4, 10)),
    (RECURSION, 1, (2, 8)),
    (NESTED_RECURSION, 0, (4, 12)),
];

#[test]
fn a_recursive_procedure_has_a_frame_of_ten(rt: HostRuntime) {
    expect(&rt, first_wrong_frame(rt.alloc(), RECURSION_FRAMES));
}

// In P: the condition has 96 for `>`, 32 + 24 for n and 24 for 0; the call has 16 + 96 + 32 and, for n - 1, 176; `if`
// and the empty block have 64 each. The main part has 16 + 96 + 32 + 24. The routines have 160 each, P 48 for n.
const RECURSION_WEIGHT: u64 = 176 + 320 + 128 + 168 + 160 + 160 + 48;

#[test]
fn a_unit_weighs_what_its_nodes_do(rt: HostRuntime) {
    expect_true(&rt, weighs(rt.alloc(), RECURSION, RECURSION_WEIGHT));
}

// constructor C(a: LongInt; var b: Integer; s: string; c: Byte), far, with locals of a Byte and a LongInt
const CONSTRUCTOR: RoutineSample = RoutineSample {
    header: (
        Kind::Constructor,
        &[(false, 2), (true, 0), (false, 4), (false, 3)],
        None,
    ),
    owner: Some(EMPTY),
    outer: None,
    far: true,
    locals: &[BYTE, LONG],
};

// A near function without parameters that gives a type, in another routine or none.
const NESTED_TEXT: RoutineSample = RoutineSample {
    header: (Kind::Function, &[], Some(4)),
    outer: Some(0),
    far: false,
    ..PROCEDURE
};

const GIVES_BYTE: RoutineSample = RoutineSample {
    header: (Kind::Function, &[], Some(3)),
    far: false,
    ..PROCEDURE
};

const GIVES_LONG: RoutineSample = RoutineSample {
    header: (Kind::Function, &[], Some(2)),
    far: false,
    ..PROCEDURE
};

const SEVERAL: &[Code<'static>] = &[
    (&CONSTRUCTOR, &Block(&[])),
    (&NESTED_TEXT, &Block(&[])),
    (&GIVES_BYTE, &Block(&[])),
    (&GIVES_LONG, &Block(&[])),
];

// The constructor: arguments of 4 + 4 + 4 + 2, Self of 4, its class of 2, a far return address of 4, BP of 2, locals
// of 2 + 4 and a copy of 256. The nested function has 4 for where its string goes, 2 for the static link, 2 and 2;
// the others 2, 2 and their results.
const FRAMES: &[Frame] = &[
    (SEVERAL, 0, (0, 288)),
    (SEVERAL, 1, (0, 10)),
    (SEVERAL, 2, (0, 6)),
    (SEVERAL, 3, (0, 8)),
];

#[test]
fn frames_have_hidden_arguments_copies_and_results(rt: HostRuntime) {
    expect(&rt, first_wrong_frame(rt.alloc(), FRAMES));
}

const SEVERAL_WEIGHT: u64 = 4 * (160 + 64) + 6 * 48;

#[test]
fn a_unit_weighs_its_routines_and_their_variables(rt: HostRuntime) {
    expect_true(&rt, weighs(rt.alloc(), SEVERAL, SEVERAL_WEIGHT));
}

const SLOTS: &[(TypeId, u64)] = &[
    (INTEGER, 2),
    (BOOLEAN, 2),
    (LONG, 4),
    (BYTE, 2),
    (TEXT, 256),
    (SET, 32),
    (POINTER, 4),
    (EMPTY, 4),
    (PROCEDURAL, 4),
    (TypeId(9), 0),
];

#[test]
fn slots_go_by_the_type(rt: HostRuntime) {
    expect(&rt, first_wrong_slot(rt.alloc(), SLOTS));
}
