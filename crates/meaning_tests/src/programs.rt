//! Routines and units.

use crate::types::TYPES;
use tree_samples::{Code, RoutineSample, UnitSample};
use type_layout::Kind;

/// A unit and its routines.
pub type Coded = (&'static UnitSample, &'static [Code<'static>]);

/// A main or initialisation part, or a procedure without parameters.
pub const PART: RoutineSample = RoutineSample {
    header: (Kind::Procedure, &[], None),
    owner: None,
    outer: None,
    far: true,
    locals: &[],
};

/// A unit without globals, whose first routine is its part.
pub const UNIT: UnitSample = UnitSample {
    names: &["A"],
    types: TYPES,
    globals: &[],
    initial: Some(0),
    overlayable: false,
    overlaid: &[],
    stack: 4096,
    heap: 24,
};

/// A program without routines: its globals, and its main part.
macro_rules! alone {
    ($globals:expr, $main:expr) => {
        (
            &tree_samples::UnitSample {
                globals: $globals,
                ..$crate::programs::UNIT
            },
            &[(&$crate::programs::PART, &$main)],
        )
    };
}

pub(crate) use alone;
