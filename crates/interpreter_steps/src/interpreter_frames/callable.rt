//! What is called once its arguments are known.

use crate::Instance;
use interpreter_store::cell_store::Value;
use interpreter_store::typed_cells::{Reached, Sort};
use type_layout::{RoutineId, TypeId};
use typed_tree::{Destructor, Expr};

/// What is called.
#[derive(Drop)]
pub enum Callable<'a> {
    /// A routine by its name.
    Named {
        routine: RoutineId,
        instance: Instance,
    },
    /// The method that the class of an instance has.
    OfClass {
        at: Reached<'a>,
        slot: u32,
        checked: bool,
    },
    /// The routine that a variable holds.
    Held {
        at: Reached<'a>,
    },
    Standard {
        ty: Option<TypeId>,
        number: u32,
    },
    /// The constructor of a new block.
    Constructor {
        routine: RoutineId,
        serial: usize,
        sort: Sort<'a>,
    },
    /// The destructor of the block to which a pointer leads, which is then freed.
    Destructor {
        pointer: &'a Box<Expr>,
        block: Value,
        destructor: Destructor,
    },
}
