//! What an overlay file holds, and what a stub says of its overlay.

use type_layout::{Bytes, Name, Sequence};

/// Offsets, in order.
pub type Offsets = Sequence<u32>;

/// The code of an overlay.
#[derive(Debug, Drop)]
pub struct OverlayCode8086 {
    pub name: Name,
    pub code: Bytes,
    /// The offsets of the words of the code that are segments. In the file these count from the image's start.
    pub fixups: Offsets,
}

/// Where a file has an overlay.
#[derive(Debug, Drop)]
pub struct OvrEntry {
    pub name: Name,
    /// Where the code begins. The fixups, a word each, follow it.
    pub place: u32,
    /// The size of the code in bytes.
    pub size: u16,
    /// The number of fixups.
    pub fixups: u16,
}

/// Entries, in the order of the stubs.
pub type OvrIndex = Sequence<OvrEntry>;

/// What a stub says of its overlay.
#[derive(Clone, Copy, Debug, PartialEq, Eq)]
pub struct Stub {
    /// The offset at which the topmost return into the overlay goes on, while it is out.
    pub saved: u16,
    /// Where its code begins in the overlay file.
    pub place: u32,
    /// The size of its code in bytes.
    pub size: u16,
    /// The number of its fixups.
    pub fixups: u16,
    /// The number of its entries.
    pub entries: u16,
    /// The segment where its code stands, or 0 while it is out.
    pub load: u16,
    /// The segment of the next loaded stub, or 0.
    pub next: u16,
}
