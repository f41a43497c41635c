//! Parts of programs.

use crate::types::{INTEGER, POINTER, TEXT};
use tree_samples::{ExprSample, PlaceSample, StmtSample};
use type_layout::RoutineId;

/// A value is written.
macro_rules! written {
    ($value:expr) => {
        tree_samples::StmtSample::Write(&[($value, None)], false)
    };
}

/// A variable of the unit itself.
macro_rules! variable {
    ($level:expr, $number:expr) => {
        tree_samples::PlaceSample::Var(typed_tree::Variable {
            unit: 0,
            level: $level,
            number: $number,
        })
    };
}

pub(crate) use variable;
pub(crate) use written;

/// The first global.
pub const FIRST: PlaceSample = variable!(0, 0);

/// The second global.
pub const SECOND: PlaceSample = variable!(0, 1);

/// An Integer in the first global.
pub const HELD: ExprSample = ExprSample::Load(INTEGER, &FIRST);

pub const ZERO: ExprSample = ExprSample::Number(INTEGER, 0);

pub const ONE: ExprSample = ExprSample::Number(INTEGER, 1);

pub const NIL: ExprSample = ExprSample::Nil(POINTER);

/// Write('a')
pub const WRITE_A: StmtSample = written!(ExprSample::Text(TEXT, "a"));

/// Write('b')
pub const WRITE_B: StmtSample = written!(ExprSample::Text(TEXT, "b"));

/// The first variable of the routine itself.
pub const OWN: PlaceSample = variable!(1, 0);

/// The second variable of the routine itself.
pub const NEXT: PlaceSample = variable!(1, 1);

/// The first routine of the unit itself.
pub const ROUTINE: RoutineId = RoutineId { unit: 0, number: 0 };
