//! Sets against the bounds of their types.

ghost use Rattle.std.specs.Prelude.{◌≡◌, ◌≤◌, IfSome};
ghost use Rattle.constant_checker.specs.typed_constants.Initializers.{byte_bounds, are_within};

/// The bounds of what a set is over, where they lie in 0..255.
pub(crate) fn byte_bounds(low: i32, high: i32) -> Option<(u8, u8)>
    ensures value { result ≡ byte_bounds low high }
    ensures rising { IfSome result (λ bounds. bounds.0 ≤ bounds.1) }
{
    if 0 <= low && low <= high && high <= 255 {
        Some((low as u8, high as u8))
    } else {
        None
    }
}

/// Whether all of these ordinals lie between the bounds.
pub(crate) fn are_within(low: u8, high: u8, elements: &[u8]) -> bool
    ensures { result ≡ are_within low high elements.now }
{
    elements.iter().all(|e| low <= *e && *e <= high)
}
