//! What a unit shows to those that use it.

use type_layout::{Name, Types};
use typed_tree::Items;

/// The interface of a unit: its items, and the types to which they lead. These keep the order that they have in the unit's
/// own table, but their ids close up.
#[derive(Debug, Drop)]
pub struct Interface {
    pub name: Name,
    pub types: Types,
    pub items: Items,
}
