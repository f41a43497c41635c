//! The standard functions: what they ask of their arguments, and the nodes of their calls.

mod calls;
mod laws;
mod signatures;
mod sizes;

pub use calls::{accepts_one, fits, handed, is_for_text, is_special, standard};
pub use laws::standard_laws;
pub use signatures::{Outcome, Shape, Signature, Want, signature_of};
pub use sizes::{bytes_of_type, has_class, is_size, sized, variable_sized};
