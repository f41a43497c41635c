//! What the trees of units refer to.
#![tactic(auto)]

pub mod methods;
pub mod programs;

ghost use Rattle.unit_references.specs.Laws.{StatementsRefer, UnitsAreWellTyped};

pub use type_soundness;
pub use type_soundness::{store_typing, type_layout, typed_tree};

/// Where what units suppose of others is so in the program, and they agree and are sound in themselves: however a statement of a unit is
/// typed, it refers as it says; so such units are a well-typed program, where its classes and methods are in order. It does nothing.
pub fn unit_reference_laws()
    ensures statements { StatementsRefer }
    ensures programs { UnitsAreWellTyped }
{}
