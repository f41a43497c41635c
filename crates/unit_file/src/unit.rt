//! What a unit file holds.

use object_file::object_unit::ObjectUnit;
use type_layout::{Name, Names, Sequence};
use unit_interface::Interface;

/// Interfaces, in order.
pub type Interfaces = Sequence<Interface>;

/// A compiled unit or program.
#[derive(Debug, Drop)]
pub struct UnitRecord {
    /// The version of its file, 1 or 2. Only code of version 2 marks its frames.
    pub version: u16,
    pub name: Name,
    pub program: bool,
    pub overlayable: bool,
    pub interface: Interface,
    /// The units that a program overlays.
    pub overlaid: Names,
    /// In bytes.
    pub stack: u32,
    /// In bytes.
    pub heap: u32,
    /// The interfaces of the used units in the order of the clauses, but OVERLAY's.
    pub imports: Interfaces,
    pub object: ObjectUnit,
    /// The number of the main or initialisation part among the routines.
    pub start: Option<u32>,
}
