//! What units see of one another: the scope of a unit that uses others, and the order in which units are initialised.
#![tactic(auto)]

mod circles;
mod edges;
mod exports;
mod interfaces;
mod keys;
mod merge;
mod order;
mod overlay;
mod reach;
mod renumber;
mod resolving;
mod visits;

pub use edges::UsesOf;
pub use exports::interface_of;
pub use interfaces::Interface;
pub use keys::Key;
pub use merge::MergeError;
pub use order::{Order, OrderError, initial_order};
pub use resolving::{ResolveError, resolve, use_unit};
pub use scopes;
pub use type_layout;
pub use typed_tree;
