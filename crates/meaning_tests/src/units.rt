//! Programs of several units, and the unit Overlay.

use crate::programs::{Coded, PART, UNIT};
use crate::rows::{Shown, expect, first_wrong_of_units};
use crate::trees::{NEXT, ONE, OWN, WRITE_A, WRITE_B, ZERO, written};
use crate::types::{BOOLEAN, INTEGER, TEXT};
use interpreter::MeanEnd;
use tree_samples::ArgSample::Value;
use tree_samples::Callee::Routine;
use tree_samples::ExprSample::{Binary, Call, Load, Number, Text};
use tree_samples::PlaceSample::Var;
use tree_samples::StmtSample::{Assign, Block, If, Run};
use tree_samples::{ExprSample, RoutineSample, StmtSample, UnitSample};
use type_layout::{Kind, RoutineId};
use typed_tree::{BinaryOp, Variable};

// Two units whose parts write b and a, in this order.
const PARTS: &[Coded] = &[
    (
        &UnitSample {
            names: &["B"],
            ..UNIT
        },
        &[(&PART, &WRITE_B)],
    ),
    (&UNIT, &[(&PART, &WRITE_A)]),
];

const FUNCTION: RoutineSample = RoutineSample {
    header: (Kind::Function, &[(false, 0)], Some(0)),
    ..PART
};

// The first routine of the unit that a unit names second, with an argument.
macro_rules! foreign {
    ($arg:expr) => {
        Call(
            Some(INTEGER),
            Routine(RoutineId { unit: 1, number: 0 }),
            &[Value($arg)],
        )
    };
}

const PARAMETER: ExprSample = Load(INTEGER, &OWN);

const LESS: ExprSample = Binary(INTEGER, BinaryOp::Subtract, &PARAMETER, &ONE, false);

// function F(n: Integer): Integer; begin if n = 0 then F := 0 else F := G(n - 1) + 1 end, where G is the function of
// the other unit
const BODY: StmtSample = If(
    Binary(BOOLEAN, BinaryOp::Equal, &PARAMETER, &ZERO, false),
    &Assign(NEXT, ZERO),
    &Assign(
        NEXT,
        Binary(INTEGER, BinaryOp::Add, &foreign!(LESS), &ONE, false),
    ),
);

// Fa(n) of one unit is Fb(n - 1) + 1 of the other, and the other way round; Write(Fa(n)).
macro_rules! mutual {
    ($number:expr) => {
        &[
            (
                &UnitSample {
                    names: &["PB", "PA"],
                    initial: None,
                    ..UNIT
                },
                &[(&FUNCTION, &BODY)],
            ),
            (
                &UnitSample {
                    names: &["PA", "PB"],
                    initial: None,
                    ..UNIT
                },
                &[(&FUNCTION, &BODY)],
            ),
            (
                &UnitSample {
                    names: &["A", "PA"],
                    stack: 2000,
                    ..UNIT
                },
                &[(&PART, &written!(foreign!(Number(INTEGER, $number))))],
            ),
        ]
    };
}

// The overlaid unit B, whose procedure writes x, and a program that does this.
macro_rules! overlaid {
    ($main:expr) => {
        &[
            (
                &UnitSample {
                    names: &["B"],
                    initial: None,
                    overlayable: true,
                    ..UNIT
                },
                &[(&PART, &written!(Text(TEXT, "x")))],
            ),
            (
                &UnitSample {
                    names: &["A", "B", "OVERLAY"],
                    overlaid: &["B"],
                    ..UNIT
                },
                &[(&PART, &$main)],
            ),
        ]
    };
}

// The procedure of the overlaid unit is called.
const CALLED: StmtSample = Run(Call(None, Routine(RoutineId { unit: 1, number: 0 }), &[]));

// Write(OvrResult)
const RESULT: StmtSample = written!(Load(
    INTEGER,
    &Var(Variable {
        unit: 2,
        level: 0,
        number: 0
    })
));

// OvrInit with this name, Write(OvrResult), and then the procedure of the overlaid unit.
macro_rules! installing {
    ($name:expr) => {
        overlaid!(Block(&[
            Run(Call(
                None,
                Routine(RoutineId { unit: 2, number: 0 }),
                &[Value(Text(TEXT, $name))]
            )),
            RESULT,
            CALLED,
        ]))
    };
}

const ROWS: &[(&[Coded], Shown)] = &[
    (PARTS, ("", 0, "ba", "", MeanEnd::Ended(0))),
    (mutual!(50), ("", 51, "50", "", MeanEnd::Ended(0))),
    (mutual!(50), ("", 50, "", "", MeanEnd::Going)),
    (
        mutual!(200),
        ("", 999, "", "Runtime error 202\r\n", MeanEnd::Ended(202)),
    ),
    (
        overlaid!(CALLED),
        ("", 1, "", "Runtime error 208\r\n", MeanEnd::Ended(208)),
    ),
    (installing!("a.ovr"), ("", 1, "0x", "", MeanEnd::Ended(0))),
    (installing!("A.OVR"), ("", 0, "0", "", MeanEnd::Going)),
    (
        installing!("NO.OVR"),
        ("", 1, "-2", "Runtime error 208\r\n", MeanEnd::Ended(208)),
    ),
];

#[test]
fn units_begin_in_order_and_call_each_other(rt: HostRuntime) {
    expect(&rt, first_wrong_of_units(rt.alloc(), ROWS));
}
