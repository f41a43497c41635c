//! The interpreter of flat code.
#![tactic(auto)]

mod activations;
mod calls;
mod context;
mod memory;
mod program;
mod start;
mod state;
mod statements;
mod value;

pub use context::Interpreter;
pub use memory::Memory;
pub use program::{
    Callee, callee_of, datum_of, far_of, fits, name_at, runtime_callee, unit_of, vmt_of,
};
pub use start::{Meaning, flat_mean};
pub use state::{Flow, MeanEnd, Run, Stop};
pub use value::{Activation, place_of, routine_pointer, value_of};
