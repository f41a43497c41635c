//! New and Dispose with constructors and destructors, and their nodes.

mod constructors;
mod destructors;
mod laws;

pub use constructors::{BoundConstructor, blank, constructor, made, newly_made};
pub use destructors::{BoundDestructor, destructor_of, unmade};
pub use laws::allocation_laws;
