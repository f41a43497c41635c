//! Runtime errors and undefined acts, each behind something that was written.

use crate::programs::{Coded, PART, UNIT, alone};
use crate::rows::{Shown, expect, first_wrong};
use crate::trees::{FIRST, HELD, NIL, ONE, ROUTINE, WRITE_A, ZERO, written};
use crate::types::{ARRAY, BASE, INTEGER, POINTER, SMALL, TO_BASE, TO_HEIR};
use interpreter::MeanEnd;
use tree_samples::ArgSample::{Place, Value};
use tree_samples::Callee::{Routine, Standard, Virtual};
use tree_samples::ExprSample::{Binary, Call, Load, Number, Range};
use tree_samples::PlaceSample::{Deref, Index};
use tree_samples::StmtSample::{Assign, Block, Read, Run};
use tree_samples::{StmtSample, UnitSample};
use typed_tree::BinaryOp;
use typed_tree::standard::{DISPOSE, NEW};

// Write('a'), and then this.
macro_rules! behind_a {
    ($globals:expr, $last:expr) => {
        alone!($globals, Block(&[WRITE_A, $last]))
    };
}

// 1 div 0
const QUOTIENT: Coded = behind_a!(
    &[],
    written!(Binary(INTEGER, BinaryOp::Divide, &ONE, &ZERO, false))
);

// An element of an array [1..3], of which none is set.
macro_rules! element {
    ($index:expr, $checked:expr) => {
        behind_a!(
            &[(ARRAY, None)],
            written!(Load(
                INTEGER,
                &Index(&FIRST, &Number(INTEGER, $index), $checked)
            ))
        )
    };
}

// 5 + 1, in a type 1..5.
const SUM: Coded = behind_a!(
    &[(SMALL, None)],
    Block(&[
        Assign(FIRST, Number(INTEGER, 5)),
        Assign(
            FIRST,
            Range(
                SMALL,
                &Binary(INTEGER, BinaryOp::Add, &Load(SMALL, &FIRST), &ONE, false),
                1,
                5
            )
        ),
    ])
);

// Dispose of nil.
const DISPOSED_NIL: Coded = behind_a!(&[], Run(Call(None, Standard(DISPOSE), &[Value(NIL)])));

// A virtual call on an instance without a class.
macro_rules! virtual_call {
    ($checked:expr) => {
        behind_a!(
            &[(BASE, None)],
            written!(Call(Some(INTEGER), Virtual(&FIRST, 0, $checked), &[]))
        )
    };
}

const CALL: StmtSample = Run(Call(None, Routine(ROUTINE), &[]));

// A procedure that calls itself.
const RECURSION: Coded = (
    &UnitSample {
        initial: Some(1),
        ..UNIT
    },
    &[(&PART, &CALL), (&PART, &Block(&[WRITE_A, CALL]))],
);

// A block of 8 bytes, in a heap of 24.
const NEW_FIRST: StmtSample = Run(Call(None, Standard(NEW), &[Place(FIRST)]));

const THREE_BLOCKS: Coded = alone!(
    &[(POINTER, None)],
    Block(&[WRITE_A, NEW_FIRST, NEW_FIRST, NEW_FIRST])
);

const FOUR_BLOCKS: Coded = alone!(
    &[(POINTER, None)],
    Block(&[WRITE_A, NEW_FIRST, NEW_FIRST, NEW_FIRST, NEW_FIRST])
);

// A numeral is read.
const NUMERAL: Coded = behind_a!(
    &[(INTEGER, None)],
    Block(&[Read(&[(FIRST, INTEGER, false)], false), written!(HELD)])
);

const UNSET: Coded = behind_a!(&[(INTEGER, None)], written!(HELD));

// What nil points to.
const NOWHERE: Coded = behind_a!(&[], written!(Load(INTEGER, &Deref(&NIL))));

macro_rules! dispose {
    ($ty:expr) => {
        Run(Call(None, Standard(DISPOSE), &[Value(Load($ty, &FIRST))]))
    };
}

// What a pointer points to whose block was disposed of.
const DANGLING: Coded = behind_a!(
    &[(POINTER, None)],
    Block(&[
        NEW_FIRST,
        dispose!(POINTER),
        written!(Load(INTEGER, &Deref(&Load(POINTER, &FIRST)))),
    ])
);

// A pointer to the ancestor leads to a block that was made for the descendant, and Dispose takes the ancestor's size.
const WRONG_SIZE: Coded = behind_a!(
    &[(TO_BASE, None)],
    Block(&[
        Assign(FIRST, Call(Some(TO_HEIR), Standard(NEW), &[])),
        dispose!(TO_BASE),
    ])
);

const ERRORS: &[(Coded, Shown)] = &[
    (
        QUOTIENT,
        ("", 0, "a", "Runtime error 200\r\n", MeanEnd::Ended(200)),
    ),
    (
        element!(4, true),
        ("", 0, "a", "Runtime error 201\r\n", MeanEnd::Ended(201)),
    ),
    (
        SUM,
        ("", 0, "a", "Runtime error 201\r\n", MeanEnd::Ended(201)),
    ),
    (
        RECURSION,
        ("", 999, "a", "Runtime error 202\r\n", MeanEnd::Ended(202)),
    ),
    (
        FOUR_BLOCKS,
        ("", 0, "a", "Runtime error 203\r\n", MeanEnd::Ended(203)),
    ),
    (
        DISPOSED_NIL,
        ("", 0, "a", "Runtime error 204\r\n", MeanEnd::Ended(204)),
    ),
    (
        virtual_call!(true),
        ("", 1, "a", "Runtime error 210\r\n", MeanEnd::Ended(210)),
    ),
    (
        NUMERAL,
        (" x", 0, "a", "Runtime error 106\r\n", MeanEnd::Ended(106)),
    ),
];

#[test]
fn an_error_ends_a_run_with_its_text(rt: HostRuntime) {
    expect(&rt, first_wrong(rt.alloc(), ERRORS));
}

const ACTS: &[(Coded, Shown)] = &[
    (UNSET, ("", 0, "a", "", MeanEnd::Undefined(1))),
    (element!(3, true), ("", 0, "a", "", MeanEnd::Undefined(1))),
    (NOWHERE, ("", 0, "a", "", MeanEnd::Undefined(2))),
    (DANGLING, ("", 0, "a", "", MeanEnd::Undefined(2))),
    (element!(0, false), ("", 0, "a", "", MeanEnd::Undefined(3))),
    (element!(4, false), ("", 0, "a", "", MeanEnd::Undefined(3))),
    (
        virtual_call!(false),
        ("", 1, "a", "", MeanEnd::Undefined(4)),
    ),
    (WRONG_SIZE, ("", 0, "a", "", MeanEnd::Undefined(5))),
];

#[test]
fn an_undefined_act_ends_a_run_behind_what_was_written(rt: HostRuntime) {
    expect(&rt, first_wrong(rt.alloc(), ACTS));
}

const NO_FAULTS: &[(Coded, Shown)] = &[
    (THREE_BLOCKS, ("", 0, "a", "", MeanEnd::Ended(0))),
    (NUMERAL, ("12 x", 0, "a12", "", MeanEnd::Ended(0))),
    (NUMERAL, ("", 0, "a0", "", MeanEnd::Ended(0))),
    (virtual_call!(true), ("", 0, "a", "", MeanEnd::Going)),
    (RECURSION, ("", 9, "a", "", MeanEnd::Going)),
];

#[test]
fn what_has_room_and_turns_has_no_fault(rt: HostRuntime) {
    expect(&rt, first_wrong(rt.alloc(), NO_FAULTS));
}
