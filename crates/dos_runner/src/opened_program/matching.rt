//! Whether a program's stubs and the overlays of its file belong together, and how large the overlays are.

ghost use Rattle.std.specs.Prelude.{◌≡◌, ◌<◌, ◌≤◌, ◌↔◌, IsTrue, MatchOption, length, max};
ghost use Rattle.overlay_manager.specs.Manager.{paragraphs_of};
ghost use Rattle.dos_runner.specs.opened_program.Matching.{largest, IsMatch, BelongTogether, IsFirstMismatch};

use crate::opened_program::stubs::is_stub_of;
use overlay_file::OvrEntry;

/// The size of an overlay in paragraphs.
fn paragraphs_of(overlay: &OvrEntry) -> u16
    ensures { result ≡ paragraphs_of overlay.now }
{
    ((overlay.size as u32 + 15) / 16) as u16
}

/// The larger of two numbers.
fn larger(one: u16, other: u16) -> u16
    ensures { result ≡ max one other }
{
    if one < other { other } else { one }
}

/// The size of the largest of these overlays in paragraphs, or 0 where there is none.
pub fn largest(overlays: &[OvrEntry]) -> u16
    ensures { result ≡ largest overlays.now }
{
    let mut most = 0;
    for overlay in overlays {
        most = larger(most, paragraphs_of(overlay));
    }
    most
}

/// Whether the stub and the overlay with this number are there, and belong together.
fn is_match(image: &[u8], stubs: &[u16], overlays: &[OvrEntry], number: usize) -> bool
    requires { number < length overlays.now }
    ensures { IsTrue result ↔ IsMatch image.now stubs.now overlays.now number }
{
    number < stubs.len() && is_stub_of(image, stubs[number], &overlays[number])
}

/// The number of the first overlay that has no stub, or of which the file has nothing, or whose stub isn't that of this
/// overlay while it is out.
pub fn first_mismatch(image: &[u8], stubs: &[u16], overlays: &[OvrEntry]) -> Option<u16>
    requires { length overlays.now ≤ 256 }
    ensures { MatchOption result (BelongTogether image.now stubs.now overlays.now)
        (IsFirstMismatch image.now stubs.now overlays.now) }
{
    let count = overlays.len();
    for number in 0..count {
        if !is_match(image, stubs, overlays, number) {
            return Some(number as u16);
        }
    }
    if count < stubs.len() {
        return Some(count as u16);
    }
    None
}
