//! Typed units and programs.

use crate::{Stmt, Value};
use type_layout::{Bytes, Header, Name, Names, Sequence, TypeId, Types};

/// A global variable, with the bytes that a typed constant begins with.
#[derive(Debug, Drop)]
pub struct Global {
    pub ty: TypeId,
    pub first: Option<Bytes>,
}

/// A routine, method, main part or initialisation part. `outer` is the number of the routine round it, `owner` the
/// object type of a method, and `locals` has the types of the variables that it declares itself.
#[derive(Drop)]
pub struct Routine {
    pub name: Name,
    pub header: Header,
    pub owner: Option<TypeId>,
    pub outer: Option<u32>,
    pub far: bool,
    pub locals: Locals,
    pub body: Stmt,
}

/// What an interface declares. The number of a variable is its place among the globals, that of a routine its
/// place among the routines.
#[derive(Debug, Drop)]
pub enum Item {
    Const {
        name: Name,
        ty: TypeId,
        value: Value,
    },
    Ty {
        name: Name,
        ty: TypeId,
    },
    Var {
        name: Name,
        ty: TypeId,
        number: u32,
    },
    Code {
        name: Name,
        header: Header,
        number: u32,
    },
}

/// The types of variables, in order.
pub type Locals = Sequence<TypeId>;

/// Globals, in order.
pub type Globals = Sequence<Global>;

/// Routines, in order.
pub type Routines = Sequence<Routine>;

/// What an interface declares, in order.
pub type Items = Sequence<Item>;

/// Units, in order.
pub type Units = Sequence<Unit>;

/// A unit or a program. `name` is the file's name in upper case. A node names a unit by
/// its place in `names`, where this unit stands first and behind it each one that a node wants. `items` is what the
/// interface part declares, so a program has none. `initial` is the number of the main or initialisation part, `uses` the units of the clauses, and
/// `overlaid` the units that a program overlays. `stack` and `heap` are in bytes.
#[derive(Drop)]
pub struct Unit {
    pub name: Name,
    pub names: Names,
    pub types: Types,
    pub items: Items,
    pub globals: Globals,
    pub routines: Routines,
    pub initial: Option<u32>,
    pub uses: Names,
    pub overlayable: bool,
    pub overlaid: Names,
    pub stack: u32,
    pub heap: u32,
}

/// The units of a program in order of initialisation, and the place of the program itself among them.
#[derive(Drop)]
pub struct Program {
    pub units: Units,
    pub start: u32,
}
