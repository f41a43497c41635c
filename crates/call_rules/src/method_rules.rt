//! Methods: which one a name means, what is called, and the nodes of their calls.

mod calls;
mod laws;
mod methods;
mod slots;

pub use calls::{called_on, performed_on};
pub use laws::method_laws;
pub use methods::{
    BoundMethod, Callee, bound, callee_of, inherited, method_in, routine_in, routine_named,
};
pub use slots::slot_of;
