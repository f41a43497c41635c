//! The topmost return into each overlay.

ghost use Rattle.std.specs.Prelude.{◌≡◌, ℕ, None, slice_index_or};
ghost use Rattle.return_repair.specs.Repair.{with_topmost};
ghost use Rattle.return_repair.specs.Topmosts.{by_stub};

/// The offset of the topmost return into each overlay, by the segment of its stub.
#[derive(Drop)]
pub struct Topmost {
    offsets: [Option<u16>; 65536],
}

/// So many offsets, none of which is known.
fn unknown<const N: usize>() -> [Option<u16>; N]
    ensures { (k : ℕ) → slice_index_or result k None ≡ None }
{
    [None; N]
}

impl Topmost {
    pub fn none() -> Topmost
        ensures { (stub : ℕ) → by_stub result.offsets stub ≡ None }
    {
        Topmost { offsets: unknown() }
    }

    pub fn of(&self, stub: u16) -> Option<u16>
        ensures { result ≡ by_stub self.now.offsets stub }
    {
        self.offsets[stub as usize]
    }

    /// Adds a return. Of those into one overlay the first counts.
    pub fn add(&mut self, stub: u16, offset: u16)
        ensures { (other : ℕ) → by_stub self.new.offsets other ≡ with_topmost (by_stub self.old.offsets) stub offset other }
    {
        let known = self.offsets[stub as usize];
        if known.is_none() {
            self.offsets[stub as usize] = Some(offset);
        }
    }
}
