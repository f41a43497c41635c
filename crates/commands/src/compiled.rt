//! Programs of any form but that of literals: their files, opened before they are written.

ghost use Rattle.std.specs.Prelude.{◌≡◌, ◌≤◌, None, Some, Err, IfOk, IfErr, IfSome, OnOk, OnErr};
ghost use Rattle.std.specs.Option.{option_or};
ghost use Rattle.tp_outside.specs.Faults.{HasRisen};
ghost use Rattle.tp_outside.specs.declared.faults.WriteError.{WriteError};
ghost use Rattle.dos_runner.specs.declared.opened_program.error.OpenError.{OpenError};
ghost use Rattle.dos_runner.specs.opened_program.Opening.{IsRefused};
ghost use Rattle.dos_runner.specs.overlay_runner.Runner.{Begins};
ghost use Rattle.back_end.specs.Files.{AreFilesOf};
ghost use Rattle.commands.specs.Compiled.{not_compiled, without_fault, not_written, with_files, with_known_files, IsNotCompiled, IsNotOpened, IsFront};
ghost use Rattle.commands.specs.Run.{BeginsNamed};

use crate::names::{FileKind, file_name};
use crate::run::refused_as;
use back_end::{BuildError, ProgramFiles, built_files};
use dos_runner::overlay_runner::{OpenError, Runner};
use front_end::outcomes::{Outcome, Refusal, What};
use std::alloc::Global;
use tp_outside::{Files, MemoryFiles, WriteError};
use type_layout::{Bytes, FileName, Name};
use typed_tree::Program;

fn too_large(what: What, number: u64) -> Outcome
    ensures { result ≡ Outcome.Refused (Refusal.TooLarge what number) }
{
    Outcome::Refused(Refusal::TooLarge { what, number })
}

/// The outcome of a program that is not compiled.
fn not_compiled(error: BuildError) -> Outcome
    ensures { result ≡ not_compiled error }
{
    match error {
        BuildError::CodeTooLarge { bytes } => too_large(What::Code, bytes),
        BuildError::NotOverlayable { unit } => Outcome::Refused(Refusal::NotOverlayable { unit }),
        BuildError::DataTooLarge { bytes } => too_large(What::Data, bytes),
        BuildError::ImageTooLarge { paragraphs } => too_large(What::Image, paragraphs),
        BuildError::TooManyRelocations { count } => too_large(What::Relocations, count),
        BuildError::NoMemory => Outcome::NoMemory,
    }
}

/// What the files of a typed program hold.
pub(crate) fn compiled_files(alloc: Global, program: &Program) -> Result<ProgramFiles, Outcome>
    ensures made { IfOk result (AreFilesOf program.now) }
    ensures reason { IfErr result (IsNotCompiled program.now) }
{
    match built_files(alloc, program) {
        Ok(files) => Ok(files),
        Err(error) => Err(not_compiled(error)),
    }
}

/// An error of files in memory, of which no call fails.
fn without_fault(error: OpenError) -> OpenError
    ensures { result ≡ without_fault error }
{
    match error {
        OpenError::FilesFault => OpenError::NoMemory,
        error => error,
    }
}

/// The program of an executable file with these bytes, opened with an overlay file that has these.
fn open_in_memory(
    alloc: Global,
    executable: &[u8],
    name: &FileName,
    overlays: &[u8],
    buffer: Option<u16>,
) -> Result<Runner, OpenError>
    ensures begins { IfOk result (Begins executable.now name.now (Some overlays.now) buffer) }
    ensures idle { IfOk result (λ runner. runner.end ≡ None) }
    ensures refused { IfErr result (IsRefused executable.now name.now (Some overlays.now) buffer) }
    ensures no_fault { result ≡ Err OpenError.FilesFault → ⊥ }
{
    let mut files = MemoryFiles::new(alloc, &[])?;
    files.put(name.as_str(), overlays)?;
    match Runner::open(alloc, executable, name, &mut files, buffer) {
        Ok(runner) => Ok(runner),
        Err(error) => Err(without_fault(error)),
    }
}

/// The program of an executable file with these bytes, opened with an overlay file that has these; without them, with the one that is there.
fn open_files<F: Files>(
    alloc: Global,
    executable: &[u8],
    name: &FileName,
    overlays: &Option<Bytes>,
    buffer: Option<u16>,
    files: &mut F,
) -> Result<Runner, OpenError>
    ensures begins { IfSome (F.folder files.old) (λ held.
        IfOk result (Begins executable.now name.now (option_or overlays.now (held name.now)) buffer)) }
    ensures idle { IfOk result (λ runner. runner.end ≡ None) }
    ensures refused { IfSome (F.folder files.old) (λ held.
        IfErr result (IsRefused executable.now name.now (option_or overlays.now (held name.now)) buffer)) }
    ensures unchanged { F.folder files.new ≡ F.folder files.old }
    ensures counted { F.faults files.old ≤ F.faults files.new }
    ensures failed { result ≡ Err OpenError.FilesFault → HasRisen (F.faults files.old) (F.faults files.new) }
{
    match overlays {
        Some(bytes) => open_in_memory(alloc, executable, name, bytes.as_slice(), buffer),
        None => Runner::open(alloc, executable, name, files, buffer),
    }
}

/// A runner that begins with these files of a program, before they are written.
pub(crate) fn open_compiled<F: Files>(
    alloc: Global,
    name: &Name,
    compiled: &ProgramFiles,
    buffer: Option<u16>,
    files: &mut F,
) -> Result<Runner, Outcome>
    ensures begins { IfSome (F.folder files.old) (λ held.
        IfOk result (BeginsNamed (with_files held name.now compiled.now) name.now buffer)) }
    ensures idle { IfOk result (λ runner. runner.end ≡ None) }
    ensures reason { IfErr result (λ outcome.
        IsNotOpened outcome name.now compiled.now buffer (F.folder files.old) (F.faults files.old) (F.faults files.new)) }
    ensures unchanged { F.folder files.new ≡ F.folder files.old }
    ensures counted { F.faults files.old ≤ F.faults files.new }
{
    let executable = compiled.executable.as_slice();
    let file = file_name(name, FileKind::Overlays);
    match open_files(alloc, executable, &file, &compiled.overlays, buffer, files) {
        Ok(runner) => Ok(runner),
        Err(error) => Err(refused_as(error)),
    }
}

/// Writes the executable of a program, and its overlay file where it has overlays.
pub(crate) fn write_files<F: Files>(
    name: &Name,
    compiled: &ProgramFiles,
    files: &mut F,
) -> Result<(), WriteError>
    ensures written { OnOk result (F.folder files.new ≡ with_known_files (F.folder files.old) name.now compiled.now) }
    ensures front { OnErr result (IsFront (F.folder files.old) (F.folder files.new) name.now compiled.now) }
    ensures counted { F.faults files.old ≤ F.faults files.new }
    ensures failed { result ≡ Err WriteError.Failed → HasRisen (F.faults files.old) (F.faults files.new) }
{
    let executable = file_name(name, FileKind::Executable);
    files.write(executable.as_str(), compiled.executable.as_slice())?;
    match &compiled.overlays {
        Some(overlays) => {
            let file = file_name(name, FileKind::Overlays);
            files.write(file.as_str(), overlays.as_slice())
        }
        None => Ok(()),
    }
}

/// The outcome where a file was not written.
pub(crate) fn not_written(error: WriteError) -> Outcome
    ensures { result ≡ not_written error }
{
    match error {
        WriteError::Failed => Outcome::FilesFault,
        WriteError::NoMemory => Outcome::NoMemory,
    }
}
