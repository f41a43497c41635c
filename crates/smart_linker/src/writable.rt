//! Whether what was linked can be written.

ghost use Rattle.std.specs.Prelude.{◌↔◌, ◌+◌, ◌*◌, ◌<◌, IsTrue, All};
ghost use Rattle.std.specs.List.{AllByRecursion};
ghost use Rattle.mz_file.specs.Format.{IsWithin};
ghost use Rattle.mz_file.specs.Spelling.{IsWritable};
ghost use Rattle.overlay_file.specs.Format.{AreFixups, IsOverlay, AreOverlays};

use cpu_8086::Far;
use mz_file::Exe;
use overlay_file::OverlayCode8086;

fn are_within(size: usize, fars: &[Far]) -> bool
    ensures { IsTrue result ↔ All (IsWithin size) fars.now }
{
    fars.iter().all(|far| 16 * usize::from(far.segment) + usize::from(far.offset) + 2 <= size)
}

/// Whether an executable file can hold this.
pub(crate) fn is_writable(exe: &Exe) -> bool
    ensures { IsTrue result → IsWritable exe.now }
{
    let stubs = exe.block.stubs.len();
    let relocations = exe.relocations.len();
    let image = exe.image.len();
    if stubs > 256 || relocations > 0xFFFF || image > 512 * 0xFFFF {
        return false;
    }
    let header = (0x36 + 2 * stubs + 4 * relocations + 15) / 16;
    16 * header + image <= 512 * 0xFFFF && are_within(image, exe.relocations.as_slice())
}

fn are_fixups(size: usize, fixups: &[u32]) -> bool
    ensures { IsTrue result → AreFixups size 0 fixups.now }
{
    let mut least: u64 = 0;
    for fixup in fixups {
        let end = u64::from(*fixup) + 2;
        if u64::from(*fixup) < least || end > size as u64 {
            return false;
        }
        least = end;
    }
    true
}

fn is_overlay(overlay: &OverlayCode8086) -> bool
    ensures { IsTrue result → IsOverlay overlay.now }
{
    let size = overlay.code.len();
    let name = overlay.name.as_bytes();
    if name.is_empty() || size == 0 || size > 65_520 {
        return false;
    }
    are_fixups(size, overlay.fixups.as_slice())
}

fn all_overlays(overlays: &[OverlayCode8086]) -> bool
    ensures { IsTrue result → AllByRecursion IsOverlay overlays.now }
{
    match overlays {
        [] => true,
        [overlay, rest @ ..] => is_overlay(overlay) && all_overlays(rest),
    }
}

/// Whether an overlay file can hold these.
pub(crate) fn are_overlays(overlays: &[OverlayCode8086]) -> bool
    ensures { IsTrue result → AreOverlays overlays.now }
{
    !overlays.is_empty() && overlays.len() <= 256 && all_overlays(overlays)
}
