//! What later parts may rely on in a typed unit.
#![tactic(auto)]

mod laws;
pub mod weakening;

pub use laws::typed_laws;
pub use type_layout;
pub use typed_tree;
