//! What types say of trees: new variables, first values, assignment, copies, and the class of an instance.

mod assignment;
mod parts;
mod places;
mod sorts;
mod trees;

pub use assignment::{assigned_over, copied_over};
pub use parts::{Part, class_place, field_place, field_type, parts_of_type};
pub use places::{inside, loaded_as};
pub use sorts::{Reached, Sort};
pub use trees::new_tree;
