//! A table of overlays, and the fault of a chain.

/// An overlay: the segment of its stub, and the one where its code stands, or 0 where it is out.
#[derive(Clone, Copy, Debug, PartialEq, Eq)]
pub struct Loaded {
    pub stub: u16,
    pub load: u16,
}

/// The word at SS:`bp` is no link: the place that it gives is not 0, and doesn't lie above its own.
#[derive(Clone, Copy, Debug, PartialEq, Eq)]
pub struct BadChain {
    pub bp: u16,
}
