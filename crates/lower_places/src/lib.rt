//! Where lies what lowered programs name: variables and slots in activation records, globals, literals and virtual method
//! tables among the data; and of which sort each place is.
#![tactic(auto)]

mod homes;
mod kinds;
mod laws;
mod literals;
mod names;
mod reach;
mod records;
mod scene;
mod shapes;
mod sizes;
mod sorts;

pub use homes::{Home, home_of, home_of_result, is_self};
pub use laws::layout_laws;
pub use literals::{
    literals_of_arg, literals_of_args, literals_of_element, literals_of_expr, literals_of_place,
    literals_of_receiver, literals_of_stmt,
};
pub use names::flat_names;
pub use reach::{Reach, further};
pub use records::{class_word_at, copy_at, instance_at, parameter_at};
pub use scene::{FIRST_HELD, Held, Scene, Spot, UnitGlobals};
pub use shapes::{holds_class, shape_of};
pub use sizes::{argument_bytes, is_copied, local_bytes, return_bytes, size_at};
pub use sorts::{Shape, Sort, type_of};
