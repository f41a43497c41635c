//! The files of a program.

ghost use Rattle.std.specs.Prelude.{◌≡◌, ◌<◌, length, IfOk};
ghost use Rattle.mz_file.specs.Format.{Denotes};
ghost use Rattle.mz_file.specs.Spelling.{IsWritable, spelling};
ghost use Rattle.overlay_file.specs.Format.{AreOverlays};
ghost use Rattle.back_end.specs.Files.{overlay_bytes};

use mz_file::write_exe;
use overlay_file::write_ovr;
use smart_linker::{Linked, Overlays};
use std::alloc::{AllocError, Global};
use type_layout::Bytes;

/// What the files of a program hold.
#[derive(Drop)]
pub struct ProgramFiles {
    /// The bytes of the executable.
    pub executable: Bytes,
    /// The bytes of the overlay file, where the program has overlays.
    pub overlays: Option<Bytes>,
}

/// The bytes of an overlay file, where there are overlays.
fn overlay_bytes(alloc: Global, overlays: &Overlays) -> Result<Option<Bytes>, AllocError>
    requires { 0 < length overlays.now → AreOverlays overlays.now }
    ensures { IfOk result (λ bytes. bytes ≡ overlay_bytes overlays.now) }
{
    if overlays.is_empty() {
        Ok(None)
    } else {
        Ok(Some(write_ovr(alloc, overlays.as_slice())?))
    }
}

/// What the files of a linked program hold.
pub fn program_files(alloc: Global, linked: &Linked) -> Result<ProgramFiles, AllocError>
    requires writable { IsWritable linked.now.exe }
    requires overlays { 0 < length linked.now.overlays → AreOverlays linked.now.overlays }
    ensures executable { IfOk result (λ files. files.executable ≡ spelling linked.now.exe) }
    ensures denotes { IfOk result (λ files. Denotes files.executable linked.now.exe) }
    ensures overlays { IfOk result (λ files. files.overlays ≡ overlay_bytes linked.now.overlays) }
{
    Ok(ProgramFiles {
        executable: write_exe(alloc, &linked.exe)?,
        overlays: overlay_bytes(alloc, &linked.overlays)?,
    })
}
