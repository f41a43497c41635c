ghost use Rattle.std.specs.Prelude.{◌≡◌, ◌+◌, ◌^◌, ◌<◌};

/// A loaded overlay. Places and sizes are in paragraphs; places count from the buffer's begin.
#[derive(Clone, Copy, Debug, PartialEq, Eq)]
pub struct Seat {
    pub overlay: u16,
    pub at: u16,
    pub size: u16,
}

impl Seat {
    ghost use Rattle.overlay_ring.specs.Seats.{overlaps};

    /// The place behind the overlay, which may be 65,536 or above.
    pub fn end(&self) -> u32
        ensures value { result ≡ self.now.at + self.now.size }
        ensures bound { result < 2 ^ 17 }
    {
        self.at as u32 + self.size as u32
    }

    /// Whether the overlay has a paragraph in common with `size` paragraphs from `at` on.
    pub fn overlaps(&self, at: u16, size: u16) -> bool
        ensures { result ≡ overlaps at size self.now }
    {
        (at as u32) < self.end() && (self.at as u32) < at as u32 + size as u32
    }
}

/// Where a wanted overlay stands, and what its loading cost.
#[derive(Clone, Copy, Debug, PartialEq, Eq)]
pub struct Placement {
    /// The paragraph where it begins.
    pub at: u16,
    /// How many overlays left the buffer.
    pub dropped: u32,
    /// Whether it was there already.
    pub loaded: bool,
}
