/// How much of a program ran so far. At the greatest `u64` a count stays.
#[derive(Clone, Copy, PartialEq, Eq, Debug)]
pub struct Counts {
    /// Overlays that were loaded.
    pub loads: u64,
    /// Overlay traps that were served.
    pub traps: u64,
    /// Live returns that were changed.
    pub patched: u64,
    /// Instructions that were executed.
    pub instructions: u64,
}
