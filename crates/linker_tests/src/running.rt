//! Programs of rows, linked, written, opened and run.

ghost use Rattle.std.specs.Prelude.{◌<◌, length, IfOk};
ghost use Rattle.mz_file.specs.Spelling.{IsWritable};
ghost use Rattle.overlay_file.specs.Format.{AreOverlays};

use crate::flat_units::flat_unit;
use crate::rows::{ProgramRow, UnitRow};
use codegen_8086::{generate, has_short_arguments};
use dos_runner::overlay_runner::{Counts, OpenError, RunEnd, Runner};
use flat_code::FlatUnit;
use mz_file::write_exe;
use object_file::object_unit::ObjectUnit;
use overlay_file::write_ovr;
use runtime_units::runtime_units;
use smart_linker::{LinkError, LinkUnit, Linked, Setting, link};
use std::alloc::{AllocError, Global};
use tp_outside::{MemoryFiles, MemorySink, MemorySource};
use type_layout::{FileName, Name};

/// The most instructions of a run.
const MOST: u64 = 1_000_000;

/// The name of the overlay file.
pub const FILE: &str = "P.OVR";

/// The executable file of a program, and its overlay file, of no bytes where it has none.
#[derive(Drop)]
pub struct Files {
    pub exe: Vec<u8>,
    pub ovr: Vec<u8>,
}

/// What a run left.
#[derive(Debug, Drop)]
pub struct Left {
    pub end: RunEnd,
    pub counts: Counts,
    pub output: Vec<u8>,
    pub errors: Vec<u8>,
}

fn generated(alloc: Global, unit: &FlatUnit) -> Result<ObjectUnit, AllocError> {
    if unit.names.is_empty() || !has_short_arguments(unit) {
        return Err(AllocError);
    }
    generate(alloc, unit).map_err(|_| AllocError)
}

fn first_name(unit: &FlatUnit) -> Result<Name, AllocError> {
    match unit.names.as_slice().first() {
        Some(name) => Ok(name.copied()),
        None => Err(AllocError),
    }
}

/// A unit that can be overlaid.
fn link_unit(alloc: Global, unit: &FlatUnit, overlaid: bool) -> Result<LinkUnit, AllocError> {
    Ok(LinkUnit {
        name: first_name(unit)?,
        object: generated(alloc, unit)?,
        initial: unit.initial,
        overlayable: true,
        overlaid,
        marked: true,
    })
}

/// Appends the units of the runtime.
pub fn push_runtime(alloc: Global, units: &mut Vec<LinkUnit>) -> Result<(), AllocError> {
    for unit in &runtime_units(alloc)? {
        units.push(link_unit(alloc, unit, false)?)?;
    }
    Ok(())
}

/// The units of a program, and the runtime's.
pub fn link_units(alloc: Global, rows: &[UnitRow]) -> Result<Vec<LinkUnit>, AllocError> {
    let mut units = Vec::new(alloc);
    for row in rows {
        let flat = flat_unit(alloc, row)?;
        units.push(link_unit(alloc, &flat, row.overlaid)?)?;
    }
    push_runtime(alloc, &mut units)?;
    Ok(units)
}

/// Links units with this stack and heap.
pub fn linked(alloc: Global, units: &[LinkUnit], stack: u16, heap: u32) -> Result<Linked, LinkError>
    ensures writable { IfOk result (λ linked. IsWritable linked.exe) }
    ensures overlays { IfOk result (λ linked. 0 < length linked.overlays → AreOverlays linked.overlays) }
{
    if heap > 196_608 {
        return Err(LinkError::NoMemory);
    }
    let setting = Setting {
        stack,
        heap,
        file: FileName::new(FILE).ok_or(AllocError)?,
    };
    link(alloc, units, &setting)
}

/// The bytes of the files.
pub fn written(alloc: Global, linked: &Linked) -> Result<Files, AllocError>
    requires { IsWritable linked.now.exe × (0 < length linked.now.overlays → AreOverlays linked.now.overlays) }
{
    let ovr = if linked.overlays.is_empty() {
        Vec::new(alloc)
    } else {
        write_ovr(alloc, linked.overlays.as_slice())?.into_vec()
    };
    Ok(Files {
        exe: write_exe(alloc, &linked.exe)?.into_vec(),
        ovr,
    })
}

/// Opens a program with a buffer of so many paragraphs, or as many as its largest overlay has.
pub fn opened(
    alloc: Global,
    files: &Files,
    folder: &mut MemoryFiles,
    buffer: Option<u16>,
) -> Result<Runner, OpenError> {
    match FileName::new(FILE) {
        Some(name) => Runner::open(alloc, files.exe.as_slice(), &name, folder, buffer),
        None => Err(OpenError::NoMemory),
    }
}

/// A folder that holds the overlay file.
pub fn folder(alloc: Global, files: &Files) -> Result<MemoryFiles, AllocError> {
    let mut folder = MemoryFiles::new(alloc, &[])?;
    folder.put(FILE, files.ovr.as_slice())?;
    Ok(folder)
}

/// Runs a program that is opened, without input.
pub fn run(
    alloc: Global,
    runner: &mut Runner,
    folder: &mut MemoryFiles,
) -> Result<Left, AllocError> {
    let mut input = MemorySource::new(alloc, b"", &[])?;
    let mut output = MemorySink::new(alloc, 1000, &[])?;
    let mut errors = MemorySink::new(alloc, 1000, &[])?;
    let end = runner.run(folder, &mut input, &mut output, &mut errors, MOST);
    Ok(Left {
        end,
        counts: runner.counts(),
        output: Vec::from_slice(alloc, output.bytes())?,
        errors: Vec::from_slice(alloc, errors.bytes())?,
    })
}

/// The program of a row.
pub fn program(alloc: Global, row: &ProgramRow) -> Result<Linked, LinkError>
    ensures writable { IfOk result (λ linked. IsWritable linked.exe) }
    ensures overlays { IfOk result (λ linked. 0 < length linked.overlays → AreOverlays linked.overlays) }
{
    let units = link_units(alloc, row.units)?;
    linked(alloc, units.as_slice(), row.stack, row.heap)
}

/// What the program of a row leaves, in a buffer of its largest overlay's size.
pub fn left_by(alloc: Global, linked: &Linked) -> Result<Option<Left>, AllocError>
    requires { IsWritable linked.now.exe × (0 < length linked.now.overlays → AreOverlays linked.now.overlays) }
{
    let files = written(alloc, linked)?;
    let mut folder = folder(alloc, &files)?;
    match opened(alloc, &files, &mut folder, None) {
        Ok(mut runner) => Ok(Some(run(alloc, &mut runner, &mut folder)?)),
        Err(_) => Ok(None),
    }
}
