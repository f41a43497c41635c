//! Routines that are called.

ghost use Rattle.std.specs.Prelude.{◌≡◌, slice_get, Some};

use typed_tree::{Routine, Unit};

/// A routine that is called, with its unit.
#[derive(Clone, Copy)]
pub struct Callee<'a> {
    pub unit: &'a Unit,
    pub number: u32,
    pub routine: &'a Routine,
    ghost known: { slice_get unit.now.routines number ≡ Some routine.now },
}
