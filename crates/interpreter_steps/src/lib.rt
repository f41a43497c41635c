//! Steps of the interpreter of typed programs: those that run no other part of a program.
#![tactic(auto)]

mod calls;
mod expressions;
mod instances;
pub mod interpreter_frames;
mod operands;
mod places;
mod reading;
mod state;
mod statements;

pub use expressions::{
    constant_value, element_number, routine_value, set_spanned, sort_of, unary_value, value_within,
};
pub use instances::{Instance, held_routine, instance_at, named, new_instance};
pub use operands::{all_handed, operand_behind};
pub use state::{Flow, Interpreter, Over, Run};
pub use statements::{
    covers, end_line, halted, is_past, number_in, number_of, skip_line, unless_nil,
};
