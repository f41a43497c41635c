//! The need and the weight of every kind of statement, worked out by hand.

use crate::measures::first_wrong_statement;
use crate::rows::expect;
use crate::tables::{
    BOOLEAN, ELEMENT, FIRST, HELD, INTEGER, LONG, ONE, PLACE, POINTER, PRODUCT, ROUTINE, TARGET,
    TEXT,
};
use tree_samples::ExprSample::{Call, Load, Number, Text};
use tree_samples::StmtSample::{
    Assign, Block, Case, CopyAll, Exit, For, Halt, If, Read, Repeat, Run, Unmake, While, With,
    Write,
};
use tree_samples::{ArmSample, Callee, ExprSample, ForSample, StmtSample};
use typed_tree::Destructor;

/// A statement, its need and its weight.
type Row = (StmtSample, (u64, u64));

const SIMPLE_STATEMENTS: &[Row] = &[
    (Assign(PLACE, Number(INTEGER, 1)), (2, 112)),
    (Assign(TARGET, Number(LONG, 1)), (8, 176)),
    (CopyAll(PLACE, PLACE), (8, 112)),
    (Run(Call(None, Callee::Routine(ROUTINE), ONE)), (2, 168)),
    (Halt(&Number(INTEGER, 1)), (2, 72)),
    (Exit, (0, 48)),
    (
        Unmake(Load(POINTER, &PLACE), Destructor::Routine(ROUTINE), ONE),
        (6, 304),
    ),
];

#[test]
fn simple_statements(rt: HostRuntime) {
    expect(&rt, first_wrong_statement(rt.alloc(), SIMPLE_STATEMENTS));
}

const TRUE: ExprSample = Number(BOOLEAN, 1);

const HALT_LONG: StmtSample = Halt(&Number(LONG, 1));

// 1, 3..4: Halt(1); 5: Exit
const ARMS: &[ArmSample] = &[
    ArmSample {
        labels: &[(1, 1), (3, 4)],
        body: HALT_LONG,
    },
    ArmSample {
        labels: &[(5, 5)],
        body: Exit,
    },
];

// for v := 1 to n * 2 do Exit
const COUNTED: ForSample = ForSample {
    variable: FIRST,
    ty: INTEGER,
    from: Number(INTEGER, 1),
    to: PRODUCT,
    down: false,
    checked: true,
    body: Exit,
};

const STRUCTURED_STATEMENTS: &[Row] = &[
    (If(TRUE, &Exit, &Block(&[])), (2, 200)),
    (While(TRUE, &HALT_LONG), (4, 160)),
    (Repeat(&HALT_LONG, TRUE), (4, 160)),
    (Block(&[Exit, Halt(&Number(INTEGER, 1))]), (2, 184)),
    (Case(HELD, ARMS, &Block(&[])), (6, 496)),
    (For(&COUNTED), (6, 440)),
    (With(PLACE, &HALT_LONG), (8, 144)),
];

#[test]
fn structured_statements_take_the_greatest_part(rt: HostRuntime) {
    expect(
        &rt,
        first_wrong_statement(rt.alloc(), STRUCTURED_STATEMENTS),
    );
}

// The first writes 'abc': n, 1.
const TRANSFERS: &[Row] = &[
    (
        Write(
            &[(Text(TEXT, "abc"), Some(HELD)), (Number(LONG, 1), None)],
            true,
        ),
        (6, 267),
    ),
    (Write(&[], true), (0, 32)),
    (
        Read(&[(PLACE, INTEGER, true), (ELEMENT, INTEGER, false)], false),
        (8, 360),
    ),
    (Read(&[], true), (4, 32)),
];

#[test]
fn items_one_after_the_other(rt: HostRuntime) {
    expect(&rt, first_wrong_statement(rt.alloc(), TRANSFERS));
}
