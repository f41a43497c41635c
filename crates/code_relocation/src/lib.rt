//! Relocation: code with the addresses of an image, and the segments of the image where it is loaded.
#![tactic(auto)]

ghost use Rattle.code_relocation.specs.Raised.{RaisingLaw};

/// Code with the addresses filled in that count segments from the image's start is, once each word of a segment is made a loaded one,
/// the code with the loaded addresses filled in. It serves the relocations of executables and the fixups of overlays alike.
pub fn raising_law()
    ensures { RaisingLaw }
{}
