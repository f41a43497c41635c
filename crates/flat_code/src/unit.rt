//! Units of flat code.

use crate::tree::{FlatList, FlatResult};
use type_layout::{Bytes, Name, Names, RoutineId, Sequence};

/// A routine.
#[derive(Drop)]
pub struct FlatRoutine {
    pub name: Name,
    /// Whether its callers push a segment too.
    pub far: bool,
    /// The bytes of the arguments, which the routine removes.
    pub arguments: u32,
    /// The bytes of locals and temporaries below BP.
    pub locals: u32,
    /// What an activation adds to the sum that error 202 bounds; 0 in a routine of the runtime, which is not tested.
    pub frame: u32,
    /// Where the bytes lie that go to the call as the routine ends.
    pub result: Option<FlatResult>,
    pub body: FlatList,
}

/// Bytes of the data segment; those after the first ones are 0.
#[derive(Debug, Drop)]
pub struct FlatDatum {
    pub size: u32,
    pub first: Bytes,
}

/// A virtual method table: the size of an instance, its negative, and a far pointer to each method.
#[derive(Debug, Drop)]
pub struct FlatVmt {
    pub size: u16,
    pub slots: RoutineIds,
}

pub type RoutineIds = Sequence<RoutineId>;

pub type FlatRoutines = Sequence<FlatRoutine>;

pub type FlatData = Sequence<FlatDatum>;

pub type FlatVmts = Sequence<FlatVmt>;

/// A unit.
#[derive(Drop)]
pub struct FlatUnit {
    /// The unit itself and then the units that it refers to; a `unit` of its nodes is a place here.
    pub names: Names,
    pub routines: FlatRoutines,
    /// Globals, and then literals.
    pub globals: FlatData,
    pub vmts: FlatVmts,
    /// The number of the main or initialisation part.
    pub initial: Option<u32>,
}
