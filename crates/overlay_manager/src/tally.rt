//! What an overlay manager did so far.

ghost use Rattle.std.specs.Prelude.{◌≡◌};
ghost use Rattle.overlay_manager.specs.Manager.{with_more};

/// How many overlays were loaded, and how many live returns changed. At the greatest `u64` a count stays.
#[derive(Clone, Copy, Debug, PartialEq, Eq)]
pub struct Tally {
    pub loads: u64,
    pub patched: u64,
}

impl Tally {
    /// Adds so many of both.
    pub fn add(&mut self, loads: u32, patched: u32)
        ensures { self.new ≡ with_more self.old loads patched }
    {
        self.loads = self.loads.saturating_add(u64::from(loads));
        self.patched = self.patched.saturating_add(u64::from(patched));
    }
}
