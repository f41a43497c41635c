//! Stubs as the image of a program holds them, while their overlays are out.

ghost use Rattle.std.specs.Prelude.{◌≡◌, ◌+◌, ◌*◌, ◌≤◌, ◌↔◌, IsTrue, length};
ghost use Rattle.mz_file.specs.Words.{word_at};
ghost use Rattle.dos_runner.specs.opened_program.Stubs.{AreZeros, TrapsAt, AreTraps, IsStubOf};

use overlay_file::OvrEntry;

/// The word at a place.
fn word(bytes: &[u8], place: usize) -> u16
    requires { place + 2 ≤ length bytes.now }
    ensures { result ≡ word_at bytes.now place }
{
    bytes[place] as u16 + 256 * bytes[place + 1] as u16
}

fn has_zeros(image: &[u8], place: usize) -> bool
    requires { place + 18 ≤ length image.now }
    ensures { IsTrue result ↔ AreZeros image.now place }
{
    for k in 0..18 {
        if image[place + k] != 0 {
            return false;
        }
    }
    true
}

fn is_trap(image: &[u8], place: usize) -> bool
    requires { place + 5 ≤ length image.now }
    ensures { IsTrue result ↔ TrapsAt image.now place }
{
    word(image, place) == 0x3FCD && image[place + 4] == 0
}

fn are_traps(image: &[u8], place: usize, entries: u16) -> bool
    requires { place + 5 * entries ≤ length image.now }
    ensures { IsTrue result ↔ AreTraps image.now place entries }
{
    for entry in 0..entries {
        if !is_trap(image, place + 5 * entry as usize) {
            return false;
        }
    }
    true
}

/// Whether the bytes of an image at a segment are the stub of an overlay of the file, while it is out.
pub fn is_stub_of(image: &[u8], segment: u16, overlay: &OvrEntry) -> bool
    ensures { IsTrue result ↔ IsStubOf image.now segment overlay.now }
{
    let place = 16 * segment as usize;
    if image.len() < place + 32 {
        return false;
    }
    let entries = word(image, place + 12);
    let size = 32 + 5 * entries as usize;
    if 0x1_0000 < size || image.len() < place + size {
        return false;
    }
    word(image, place) == 0x3FCD
        && word(image, place + 2) == 0
        && word(image, place + 4) as u32 + 0x1_0000 * word(image, place + 6) as u32 == overlay.place
        && word(image, place + 8) == overlay.size
        && word(image, place + 10) == overlay.fixups
        && has_zeros(image, place + 14)
        && are_traps(image, place + 32, entries)
}
