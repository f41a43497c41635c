//! Statements, the order of evaluation, and turns.

use crate::programs::{Coded, PART, UNIT, alone};
use crate::rows::{Shown, expect, first_wrong};
use crate::trees::{
    FIRST, HELD, NEXT, ONE, OWN, ROUTINE, WRITE_A, WRITE_B, ZERO, variable, written,
};
use crate::types::{BOOLEAN, INTEGER, RECORD, TEXT};
use interpreter::MeanEnd;
use tree_samples::ExprSample::{Binary, Call, Load, Number, Text};
use tree_samples::StmtSample::{
    Assign, Block, Case, Exit, For, Halt, If, Repeat, Run, While, With,
};
use tree_samples::{
    ArgSample, ArmSample, Callee, ExprSample, ForSample, PlaceSample, RoutineSample, StmtSample,
    UnitSample,
};
use type_layout::{Kind, RoutineId};
use typed_tree::{BinaryOp, Variable};

const FUNCTION: RoutineSample = RoutineSample {
    header: (Kind::Function, &[], Some(0)),
    ..PART
};

const PREDICATE: RoutineSample = RoutineSample {
    header: (Kind::Function, &[], Some(1)),
    ..PART
};

const TAKING_TWO: RoutineSample = RoutineSample {
    header: (Kind::Procedure, &[(false, 0), (false, 0)], None),
    ..PART
};

// A and B, which write a and b and give 1 and 2, and P, which writes its arguments; then the main part.
macro_rules! order {
    ($main:expr) => {
        (
            &UnitSample {
                initial: Some(3),
                ..UNIT
            },
            &[
                (&FUNCTION, &Block(&[WRITE_A, Assign(OWN, ONE)])),
                (
                    &FUNCTION,
                    &Block(&[WRITE_B, Assign(OWN, Number(INTEGER, 2))]),
                ),
                (
                    &TAKING_TWO,
                    &Block(&[written!(Load(INTEGER, &OWN)), written!(Load(INTEGER, &NEXT))]),
                ),
                (&PART, &$main),
            ],
        )
    };
}

const A: ExprSample = Call(Some(INTEGER), Callee::Routine(ROUTINE), &[]);

const B: ExprSample = Call(
    Some(INTEGER),
    Callee::Routine(RoutineId { unit: 0, number: 1 }),
    &[],
);

// P(A, B)
const ARGUMENTS: Coded = order!(Run(Call(
    None,
    Callee::Routine(RoutineId { unit: 0, number: 2 }),
    &[ArgSample::Value(A), ArgSample::Value(B)]
)));

// Write(A + B)
const OPERANDS: Coded = order!(written!(Binary(INTEGER, BinaryOp::Add, &A, &B, false)));

// if false and F then Write('y') else Write('n'), where F writes f; the right side is left out early, or not
macro_rules! conjunction {
    ($early:expr) => {
        (
            &UnitSample {
                initial: Some(1),
                ..UNIT
            },
            &[
                (
                    &PREDICATE,
                    &Block(&[
                        written!(Text(TEXT, "f")),
                        Assign(OWN, Number(BOOLEAN, 1)),
                    ]),
                ),
                (
                    &PART,
                    &If(
                        Binary(
                            BOOLEAN,
                            BinaryOp::And,
                            &Number(BOOLEAN, 0),
                            &Call(Some(BOOLEAN), Callee::Routine(ROUTINE), &[]),
                            $early,
                        ),
                        &written!(Text(TEXT, "y")),
                        &written!(Text(TEXT, "n")),
                    ),
                ),
            ],
        )
    };
}

const ORDER: &[(Coded, Shown)] = &[
    (ARGUMENTS, ("", 3, "ab12", "", MeanEnd::Ended(0))),
    (ARGUMENTS, ("", 2, "ab", "", MeanEnd::Going)),
    (ARGUMENTS, ("", 0, "", "", MeanEnd::Going)),
    (OPERANDS, ("", 9, "ab3", "", MeanEnd::Ended(0))),
    (conjunction!(true), ("", 0, "n", "", MeanEnd::Ended(0))),
    (conjunction!(false), ("", 1, "fn", "", MeanEnd::Ended(0))),
    (conjunction!(false), ("", 0, "", "", MeanEnd::Going)),
];

#[test]
fn parts_come_from_left_to_right(rt: HostRuntime) {
    expect(&rt, first_wrong(rt.alloc(), ORDER));
}

// A `for` from one value to another, up or down, whose body writes its variable.
macro_rules! for_loop {
    ($from:expr, $to:expr, $down:expr) => {
        alone!(
            &[(INTEGER, None)],
            For(&ForSample {
                variable: Variable {
                    unit: 0,
                    level: 0,
                    number: 0
                },
                ty: INTEGER,
                from: Number(INTEGER, $from),
                to: Number(INTEGER, $to),
                down: $down,
                checked: false,
                body: written!(HELD),
            })
        )
    };
}

// Write(i); i := i + 1
const STEP: StmtSample = Block(&[
    written!(HELD),
    Assign(FIRST, Binary(INTEGER, BinaryOp::Add, &HELD, &ONE, false)),
]);

// i := 0; while i < 3
const WHILE: Coded = alone!(
    &[(INTEGER, None)],
    Block(&[
        Assign(FIRST, ZERO),
        While(
            Binary(BOOLEAN, BinaryOp::Less, &HELD, &Number(INTEGER, 3), false),
            &STEP
        ),
    ])
);

// i := 0; repeat .. until i >= 2
const REPEAT: Coded = alone!(
    &[(INTEGER, None)],
    Block(&[
        Assign(FIRST, ZERO),
        Repeat(
            &STEP,
            Binary(
                BOOLEAN,
                BinaryOp::GreaterOrEqual,
                &HELD,
                &Number(INTEGER, 2),
                false
            )
        ),
    ])
);

// while true do Write('a')
const FOREVER: Coded = alone!(&[], While(Number(BOOLEAN, 1), &WRITE_A));

const LOOPS: &[(Coded, Shown)] = &[
    (
        for_loop!(1, 3, false),
        ("", 3, "123", "", MeanEnd::Ended(0)),
    ),
    (for_loop!(1, 3, false), ("", 2, "12", "", MeanEnd::Going)),
    (for_loop!(3, 2, true), ("", 2, "32", "", MeanEnd::Ended(0))),
    (for_loop!(2, 1, false), ("", 0, "", "", MeanEnd::Ended(0))),
    (for_loop!(1, 2, true), ("", 0, "", "", MeanEnd::Ended(0))),
    (
        for_loop!(32_767, 32_767, false),
        ("", 1, "32767", "", MeanEnd::Ended(0)),
    ),
    (WHILE, ("", 3, "012", "", MeanEnd::Ended(0))),
    (WHILE, ("", 2, "01", "", MeanEnd::Going)),
    (REPEAT, ("", 2, "01", "", MeanEnd::Ended(0))),
    (REPEAT, ("", 1, "0", "", MeanEnd::Going)),
    (FOREVER, ("", 5, "aaaaa", "", MeanEnd::Going)),
];

#[test]
fn a_loop_spends_a_turn_each_time(rt: HostRuntime) {
    expect(&rt, first_wrong(rt.alloc(), LOOPS));
}

const ARMS: &[ArmSample] = &[
    ArmSample {
        labels: &[(1, 3)],
        body: written!(Text(TEXT, "first")),
    },
    ArmSample {
        labels: &[(3, 5), (7, 7)],
        body: written!(Text(TEXT, "second")),
    },
];

macro_rules! choice {
    ($number:expr) => {
        alone!(
            &[],
            Case(
                Number(INTEGER, $number),
                ARMS,
                &written!(Text(TEXT, "other"))
            )
        )
    };
}

// Write('a'), this, and Write('b').
macro_rules! between {
    ($stmt:expr) => {
        alone!(&[], Block(&[WRITE_A, Block(&[$stmt, WRITE_B])]))
    };
}

// with r do n := 7; Write(r.n)
const WITH: Coded = alone!(
    &[(RECORD, None)],
    Block(&[
        With(
            FIRST,
            &Assign(
                PlaceSample::FieldOf(&variable!(1, 0x8000_0000), 0),
                Number(INTEGER, 7)
            )
        ),
        written!(Load(INTEGER, &PlaceSample::FieldOf(&FIRST, 0))),
    ])
);

const CHOICES: &[(Coded, Shown)] = &[
    (choice!(1), ("", 0, "first", "", MeanEnd::Ended(0))),
    (choice!(3), ("", 0, "first", "", MeanEnd::Ended(0))),
    (choice!(5), ("", 0, "second", "", MeanEnd::Ended(0))),
    (choice!(7), ("", 0, "second", "", MeanEnd::Ended(0))),
    (choice!(6), ("", 0, "other", "", MeanEnd::Ended(0))),
    (between!(Exit), ("", 0, "a", "", MeanEnd::Ended(0))),
    (
        between!(Halt(&Number(INTEGER, 258))),
        ("", 0, "a", "", MeanEnd::Ended(2)),
    ),
    (WITH, ("", 0, "7", "", MeanEnd::Ended(0))),
];

#[test]
fn a_statement_leads_to_the_next(rt: HostRuntime) {
    expect(&rt, first_wrong(rt.alloc(), CHOICES));
}
