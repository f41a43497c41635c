//! The rules on types that expressions keep, and the nodes that they are given.
#![tactic(auto)]

mod assignments;
mod faults;
mod joins;
mod laws;
mod operators;
mod plans;
mod selectors;
mod sorts;
mod wanting;

pub use assignments::{assigned, assigned_by, is_assignable, is_procedural, is_string, ranged};
pub use faults::{
    Cause, CheckError, Fault, Refusal, Rule, broken, error_for, error_of, left_out, too_large,
    undeclared,
};
pub use joins::{is_below, is_line, is_of_type};
pub use laws::rule_laws;
pub use operators::{combined, negated, sign_value, signed};
pub use plans::{
    Operation, Plan, allows, allows_not, are_of_one_base, are_of_one_host, are_sets, base_holding,
    is_boolean, is_integer, is_text, operation_of, rule_of, turned,
};
pub use selectors::{followed, indexed, loaded, selected};
pub use sorts::{
    Range, SetBase, Sort, definition, holding_type, number_type, sort_of, sort_of_constant,
    sort_of_type, type_of,
};
pub use wanting::{UNTYPED, as_text, constant, converted, nil, predefined, stored_of_type, wanted};
