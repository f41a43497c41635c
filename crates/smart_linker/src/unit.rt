//! What is linked.

use object_file::object_unit::ObjectUnit;
use overlay_file::OverlayCode8086;
use type_layout::{FileName, Name, Sequence};

/// How many units the runtime has: text, strings, and overlays with the heap.
pub const RUNTIME_UNITS: usize = 3;

/// A unit of a program.
#[derive(Drop)]
pub struct LinkUnit {
    /// The name by which other units know it. Those of the runtime's first two units are known to none.
    pub name: Name,
    pub object: ObjectUnit,
    /// The number of its main or initialisation part.
    pub initial: Option<u32>,
    /// Whether it was compiled so that its code can be an overlay's.
    pub overlayable: bool,
    /// Whether its code is an overlay's.
    pub overlaid: bool,
    /// Whether frames of its far routines are marked.
    pub marked: bool,
}

/// What a program is given as it starts.
#[derive(Drop)]
pub struct Setting {
    /// The bytes of the stack.
    pub stack: u16,
    /// The bytes of the heap, at most 196,608.
    pub heap: u32,
    /// The name of the overlay file.
    pub file: FileName,
}

/// The overlays of a program, in the order of their stubs.
pub type Overlays = Sequence<OverlayCode8086>;
