//! What stands behind the interface of a unit.

use crate::unit::Interfaces;
use object_file::object_unit::ObjectUnit;
use type_layout::Names;

/// What stands behind the interface of a unit.
#[derive(Debug, Drop)]
pub(crate) struct Tail {
    pub overlaid: Names,
    pub stack: u32,
    pub heap: u32,
    pub imports: Interfaces,
    pub object: ObjectUnit,
    pub start: Option<u32>,
}
