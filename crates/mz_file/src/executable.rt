//! The value that an executable file stands for.

use cpu_8086::Far;
use type_layout::{Bytes, Sequence};

/// Far pointers, in order.
pub type FarList = Sequence<Far>;

/// Segments, in order.
pub type Segments = Sequence<u16>;

/// What the runner is told of a program. Each segment counts from the image's start.
#[derive(Debug, Drop)]
pub struct Block {
    /// The segment of each overlay's stub.
    pub stubs: Segments,
    /// The size of the largest overlay in paragraphs.
    pub largest: u16,
    /// Where a run-time error goes on.
    pub error_routine: Far,
    /// The byte that says whether the overlay manager is installed.
    pub installed: Far,
    /// The size of the stack in bytes.
    pub stack: u16,
    /// The size of the heap in bytes.
    pub heap: u32,
    /// The segment of the data.
    pub data_segment: u16,
    /// The size of the data in bytes.
    pub data_bytes: u16,
    /// Whether frames are marked: a far routine's by the lowest bit of its link.
    pub marked: bool,
}

/// An executable program. Each segment counts from the image's start.
#[derive(Debug, Drop)]
pub struct Exe {
    /// The code, the stubs and the front of the data.
    pub image: Bytes,
    /// The words of the image that are segments.
    pub relocations: FarList,
    /// Where it starts.
    pub entry: Far,
    /// SS and SP as it starts.
    pub stack: Far,
    /// How many paragraphs it needs behind the image.
    pub extra: u16,
    /// What the runner is told.
    pub block: Block,
}
