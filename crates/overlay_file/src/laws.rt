//! What holds of every overlay file.

ghost use Rattle.std.specs.Prelude.{◌≡◌, ◌++◌, ℕ, List};
ghost use Rattle.overlay_file.specs.declared.overlay.OverlayCode8086.{OverlayCode8086};
ghost use Rattle.overlay_file.specs.Format.{AreOverlays, spelling};

/// Overlays have one spelling, and none begins another.
pub fn one_spelling()
    ensures { (overlays others : List OverlayCode8086) (x y : List ℕ) → AreOverlays overlays → AreOverlays others
        → spelling overlays ++ x ≡ spelling others ++ y → overlays ≡ others }
{}
