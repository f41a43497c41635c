//! What a body is lowered in.

ghost use Rattle.std.specs.Prelude.{◌≡◌, ◌+◌, ◌-◌, ◌^◌, min};

use crate::sorts::Sort;
use object_vmt::Classes;
use std::alloc::Global;
use typed_tree::{Routine, Unit};

/// The place that an open `with` holds has a number from here on.
pub const FIRST_HELD: u32 = 0x8000_0000;

/// A unit whose globals can be named, with the classes of its types.
#[derive(Clone, Copy)]
pub struct UnitGlobals<'a> {
    pub unit: &'a Unit,
    pub classes: &'a Classes,
}

/// The place that an open `with` holds: a far pointer to it lies in the slot of 4 bytes behind `slot` others.
#[derive(Clone, Copy)]
pub struct Held<'a> {
    pub slot: u32,
    pub sort: Sort<'a>,
}

/// What a body is lowered in: its unit with the classes of its types, the units whose globals can be named, its routine
/// with its number in the unit, the bytes of locals above the evaluation stack, and the places that the open `with`s
/// hold, the outermost first.
#[derive(Clone, Copy)]
pub struct Scene<'a> {
    pub alloc: Global,
    pub unit: &'a Unit,
    pub classes: &'a Classes,
    pub globals: &'a [UnitGlobals<'a>],
    pub routine: &'a Routine,
    pub number: u32,
    pub locals: u32,
    pub withs: &'a [Held<'a>],
}

/// Where an evaluation begins: how many bytes of the evaluation stack are taken, and how many literals of the unit stand
/// before those of the tree, in the order of the unit's trees.
#[derive(Clone, Copy, Debug, PartialEq, Eq)]
pub struct Spot {
    pub slot: u32,
    pub literal: u32,
}

impl Spot {
    /// Behind so many further bytes of the evaluation stack.
    pub fn above(self, bytes: u32) -> Spot
        ensures { result ≡ record self { slot = min (self.slot + bytes) (2 ^ 32 - 1) } }
    {
        Spot {
            slot: self.slot.saturating_add(bytes),
            literal: self.literal,
        }
    }

    /// Behind so many further literals.
    pub fn after(self, literals: u32) -> Spot
        ensures { result ≡ record self { literal = min (self.literal + literals) (2 ^ 32 - 1) } }
    {
        Spot {
            slot: self.slot,
            literal: self.literal.saturating_add(literals),
        }
    }
}
