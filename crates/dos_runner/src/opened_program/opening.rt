//! Opening a program.

ghost use Rattle.std.specs.Prelude.{◌≡◌, ◌+◌, ◌<◌, ◌≤◌, IfOk, IfErr, IfSome, MatchResult, Err, length};
ghost use Rattle.std.specs.List.{All};
ghost use Rattle.mz_file.specs.Load.{IsLoadable, loaded, paragraphs_taken, FitsWithBuffer};
ghost use Rattle.overlay_manager.specs.Manager.{paragraphs_of};
ghost use Rattle.tp_outside.specs.Faults.{HasRisen};
ghost use Rattle.dos_runner.specs.declared.opened_program.error.OpenError.{OpenError};
ghost use Rattle.dos_runner.specs.opened_program.Matching.{largest};
ghost use Rattle.dos_runner.specs.opened_program.Opening.{HasOverlays, HasNoOverlays, room_of, FitTogether, IsMisfit, start_manager, IsOpened, IsRefused};

use crate::opened_program::error::OpenError;
use crate::opened_program::matching::{first_mismatch, largest};
use cpu_8086::Machine;
use mz_file::{Exe, load, read_exe};
use overlay_file::{OvrIndex, read_ovr};
use overlay_manager::Ovr;
use std::alloc::{AllocError, Global};
use tp_outside::{Files, read_file};
use type_layout::FileName;

/// What the run of a program begins with: the machine in which it is loaded, and the manager of its overlays, which are all
/// out.
#[derive(Drop)]
pub struct Opened {
    pub machine: Machine,
    pub ovr: Ovr,
}

/// The overlays of a program, by its overlay file. A program without stubs has none, and the file isn't looked at.
fn read_overlays<F: Files>(
    alloc: Global,
    stubs: &[u16],
    name: &FileName,
    files: &mut F,
) -> Result<OvrIndex, OpenError>
    ensures told { IfSome (F.folder files.old) (λ held. MatchResult result (HasOverlays stubs.now (held name.now))
        (HasNoOverlays stubs.now name.now (held name.now))) }
    ensures few { IfOk result (λ overlays. length overlays ≤ 256) }
    ensures some { IfOk result (λ overlays. All (λ overlay. 0 < paragraphs_of overlay) overlays) }
    ensures unchanged { F.folder files.new ≡ F.folder files.old }
    ensures counted { F.faults files.old ≤ F.faults files.new }
    ensures failed { result ≡ Err OpenError.FilesFault → HasRisen (F.faults files.old) (F.faults files.new) }
{
    if stubs.is_empty() {
        return Ok(OvrIndex::new(alloc));
    }
    match read_file(alloc, files, name.as_str())? {
        None => Err(OpenError::MissingFile {
            name: name.copied(),
        }),
        Some(bytes) => Ok(read_ovr(alloc, &bytes)?),
    }
}

/// How many paragraphs a program takes from segment 0 on, with a buffer of this size.
fn paragraphs_with(exe: &Exe, room: u16) -> u32
    requires { IsLoadable exe.now }
    ensures { result ≡ paragraphs_taken exe.now + room }
{
    let image = (exe.image.len() + 15) / 16;
    0x70 + image as u32 + exe.extra as u32 + room as u32
}

/// The size of the buffer: a program, the overlays of its file and the buffer fit together.
fn fitting_room(exe: &Exe, overlays: &OvrIndex, buffer: Option<u16>) -> Result<u16, OpenError>
    requires loadable { IsLoadable exe.now }
    requires few { length overlays.now ≤ 256 }
    ensures size { IfOk result (λ room. room ≡ room_of buffer overlays.now) }
    ensures fit { MatchResult result (FitTogether exe.now overlays.now) (IsMisfit exe.now overlays.now (room_of buffer overlays.now)) }
{
    if let Some(overlay) = first_mismatch(
        exe.image.as_slice(),
        exe.block.stubs.as_slice(),
        overlays.as_slice(),
    ) {
        return Err(OpenError::OverlayMismatch { overlay });
    }
    let need = largest(overlays.as_slice());
    let have = buffer.unwrap_or(need);
    if have < need {
        return Err(OpenError::BufferTooSmall { need, have });
    }
    let paragraphs = paragraphs_with(exe, have);
    if paragraphs > 0xA000 {
        return Err(OpenError::MemoryTooSmall { need: paragraphs });
    }
    Ok(have)
}

/// A machine in which the program is loaded.
fn loaded_machine(alloc: Global, exe: &Exe) -> Result<Machine, AllocError>
    requires loadable { IsLoadable exe.now }
    requires fits { FitsWithBuffer exe.now 0 }
    ensures { IfOk result (λ machine. machine ≡ loaded exe.now) }
{
    let mut machine = Machine::new(alloc)?;
    match load(exe, &mut machine) {
        Ok(()) => Ok(machine),
        Err(_) => unreachable!(),
    }
}

/// The machine and the manager of a program with these overlays and a buffer of this size.
fn start(
    alloc: Global,
    exe: &Exe,
    name: &FileName,
    overlays: &OvrIndex,
    room: u16,
) -> Result<Opened, AllocError>
    requires loadable { IsLoadable exe.now }
    requires few { length overlays.now ≤ 256 }
    requires some { All (λ overlay. 0 < paragraphs_of overlay) overlays.now }
    requires fit { FitTogether exe.now overlays.now room }
    ensures machine { IfOk result (λ opened. opened.machine ≡ loaded exe.now) }
    ensures manager { IfOk result (λ opened. opened.ovr ≡ start_manager exe.now name.now overlays.now room) }
{
    let machine = loaded_machine(alloc, exe)?;
    let ovr = Ovr::new(alloc, name.copied(), overlays, &exe.block, room)?;
    Ok(Opened { machine, ovr })
}

/// Opens the program whose executable file has these bytes, with its overlay file and with a buffer of so many paragraphs,
/// or as many as its largest overlay has.
pub fn open_program<F: Files>(
    alloc: Global,
    exe: &[u8],
    name: &FileName,
    files: &mut F,
    buffer: Option<u16>,
) -> Result<Opened, OpenError>
    ensures opened { IfSome (F.folder files.old) (λ held.
        IfOk result (λ opened. IsOpened exe.now name.now (held name.now) buffer opened.machine opened.ovr)) }
    ensures refused { IfSome (F.folder files.old) (λ held.
        IfErr result (IsRefused exe.now name.now (held name.now) buffer)) }
    ensures unchanged { F.folder files.new ≡ F.folder files.old }
    ensures counted { F.faults files.old ≤ F.faults files.new }
    ensures failed { result ≡ Err OpenError.FilesFault → HasRisen (F.faults files.old) (F.faults files.new) }
{
    let exe = read_exe(alloc, exe)?;
    let overlays = read_overlays(alloc, exe.block.stubs.as_slice(), name, files)?;
    let room = fitting_room(&exe, &overlays, buffer)?;
    Ok(start(alloc, &exe, name, &overlays, room)?)
}
