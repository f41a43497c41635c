//! Objects, and calls by their classes.

use crate::programs::{Coded, PART, UNIT};
use crate::rows::{Shown, expect, first_wrong};
use crate::trees::{FIRST, NEXT, ROUTINE, SECOND, written};
use crate::types::{BASE, HEIR, INTEGER, TO_BASE, TO_HEIR};
use interpreter::MeanEnd;
use tree_samples::Callee::{Make, Method, Virtual};
use tree_samples::ExprSample::{Call, Load, Number};
use tree_samples::PlaceSample::{Deref, FieldOf};
use tree_samples::StmtSample::{Assign, Block, CopyAll, Exit, Run, Unmake};
use tree_samples::{ExprSample, RoutineSample, StmtSample, UnitSample};
use type_layout::{Kind, RoutineId};
use typed_tree::Destructor;

const CONSTRUCTOR: RoutineSample = RoutineSample {
    header: (Kind::Constructor, &[], None),
    owner: Some(BASE),
    ..PART
};

const DESTRUCTOR: RoutineSample = RoutineSample {
    header: (Kind::Destructor, &[], None),
    owner: Some(BASE),
    ..PART
};

const OF_BASE: RoutineSample = RoutineSample {
    header: (Kind::Function, &[], Some(0)),
    owner: Some(BASE),
    ..PART
};

const OF_HEIR: RoutineSample = RoutineSample {
    header: (Kind::Function, &[], Some(0)),
    owner: Some(HEIR),
    ..PART
};

// The result of a method. Self is its variable 0, and the result 1.
macro_rules! giving {
    ($number:expr) => {
        Assign(NEXT, Number(INTEGER, $number))
    };
}

// The constructor, the two virtual functions of one name, a destructor, and the descendant's own virtual function; then
// the main part.
macro_rules! program {
    ($globals:expr, $main:expr) => {
        (
            &UnitSample {
                globals: $globals,
                initial: Some(5),
                ..UNIT
            },
            &[
                (&CONSTRUCTOR, &Exit),
                (&OF_BASE, &giving!(1)),
                (&OF_HEIR, &giving!(2)),
                (&DESTRUCTOR, &Exit),
                (&OF_HEIR, &giving!(3)),
                (&PART, &$main),
            ],
        )
    };
}

// What the virtual function in a slot of an instance's class gives is written.
macro_rules! of_class {
    ($place:expr, $slot:expr) => {
        written!(Call(Some(INTEGER), Virtual(&$place, $slot, true), &[]))
    };
}

// New(the descendant, Init)
const MADE: ExprSample = Call(None, Make(TO_HEIR, ROUTINE), &[]);

// p := New(the descendant, Init); Write(p^.V)
const MAKING: StmtSample = Block(&[
    Assign(FIRST, MADE),
    of_class!(Deref(&Load(TO_BASE, &FIRST)), 0),
]);

// Dispose(p, Done)
const UNMAKING: StmtSample = Unmake(
    Load(TO_BASE, &FIRST),
    Destructor::Routine(RoutineId { unit: 0, number: 3 }),
    &[],
);

const CALLED: Coded = program!(&[(TO_BASE, None)], MAKING);

const DISPOSED: Coded = program!(&[(TO_BASE, None)], Block(&[MAKING, UNMAKING]));

const DISPOSED_TWICE: Coded = program!(&[(TO_BASE, None)], Block(&[MAKING, UNMAKING, UNMAKING]));

// The constructor is called on an instance.
macro_rules! begun {
    ($place:expr) => {
        Run(Call(None, Method(ROUTINE, &$place), &[]))
    };
}

// An instance of the descendant is copied to one of the ancestor, whose virtual function is called.
const COPIED: Coded = program!(
    &[(BASE, None), (HEIR, None)],
    Block(&[
        begun!(FIRST),
        begun!(SECOND),
        Assign(FieldOf(&SECOND, 0), Number(INTEGER, 7)),
        CopyAll(FIRST, SECOND),
        written!(Load(INTEGER, &FieldOf(&FIRST, 0))),
        of_class!(FIRST, 0),
    ])
);

// q := New(the descendant, Init); p := q; p^.Init; Write(q^.W), which is a function of the descendant alone.
const LOWERED: Coded = program!(
    &[(TO_BASE, None), (TO_HEIR, None)],
    Block(&[
        Assign(SECOND, MADE),
        Assign(FIRST, Load(TO_HEIR, &SECOND)),
        begun!(Deref(&Load(TO_BASE, &FIRST))),
        of_class!(Deref(&Load(TO_HEIR, &SECOND)), 1),
    ])
);

const ROWS: &[(Coded, Shown)] = &[
    (CALLED, ("", 2, "2", "", MeanEnd::Ended(0))),
    (CALLED, ("", 1, "", "", MeanEnd::Going)),
    (DISPOSED, ("", 3, "2", "", MeanEnd::Ended(0))),
    (DISPOSED, ("", 2, "2", "", MeanEnd::Going)),
    (DISPOSED_TWICE, ("", 9, "2", "", MeanEnd::Undefined(2))),
    (COPIED, ("", 3, "71", "", MeanEnd::Ended(0))),
    (LOWERED, ("", 9, "", "", MeanEnd::Undefined(4))),
];

#[test]
fn an_instance_keeps_its_class(rt: HostRuntime) {
    expect(&rt, first_wrong(rt.alloc(), ROWS));
}
