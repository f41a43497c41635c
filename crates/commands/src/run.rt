//! The command `run`, before its last line.

ghost use Rattle.std.specs.Prelude.{◌≡◌, ◌≤◌, ℕ, List, Some, None, IfSome, IfOk, IfErr};
ghost use Rattle.tp_outside.specs.Faults.{HasRisen};
ghost use Rattle.dos_runner.specs.overlay_runner.Runner.{Begins};
ghost use Rattle.commands.specs.Files.{file_of};
ghost use Rattle.commands.specs.Run.{refused_as, IsAbsent, IsNotRun, BeginsNamed, RunDid};
ghost use Rattle.commands.specs.World.{world};
ghost use Rattle.commands.specs.declared.names.FileKind.{FileKind};

use crate::ending::outcome_of;
use crate::names::{FileKind, file_name};
use command_line::RunOptions;
use dos_runner::overlay_runner::{OpenError, Runner};
use front_end::outcomes::{Outcome, Refusal};
use std::alloc::Global;
use tp_outside::{self, Files, Sink, Source, read_file};
use type_layout::{FileName, Name};

/// How many instructions a program may take where the words don't say it.
pub(crate) const LIMIT: u64 = 1_000_000_000;

/// The bytes of an executable file.
fn read_executable<F: Files>(
    alloc: Global,
    files: &mut F,
    executable: &FileName,
) -> Result<Vec<u8>, Outcome>
    ensures held { IfSome (F.folder files.old) (λ held. IfOk result (λ bytes. held executable.now ≡ Some bytes.items)) }
    ensures reason { IfErr result (λ outcome.
        IsAbsent outcome executable.now (F.folder files.old) (F.faults files.old) (F.faults files.new)) }
    ensures unchanged { F.folder files.new ≡ F.folder files.old }
    ensures counted { F.faults files.old ≤ F.faults files.new }
{
    match read_file(alloc, files, executable.as_str()) {
        Ok(Some(bytes)) => Ok(bytes),
        Ok(None) => Err(Outcome::Refused(Refusal::MissingFile {
            name: executable.copied(),
        })),
        Err(tp_outside::ReadError::Failed) => Err(Outcome::FilesFault),
        Err(tp_outside::ReadError::NoMemory) => Err(Outcome::NoMemory),
    }
}

/// The outcome of a program that was not opened.
pub(crate) fn refused_as(error: OpenError) -> Outcome
    ensures { result ≡ refused_as error }
{
    match error {
        OpenError::NotExecutable { cause } => Outcome::Refused(Refusal::NotExecutable { cause }),
        OpenError::MissingFile { name } => Outcome::Refused(Refusal::MissingFile { name }),
        OpenError::OverlayFileDamaged { at } => {
            Outcome::Refused(Refusal::OverlayFileDamaged { at })
        }
        OpenError::OverlayMismatch { overlay } => {
            Outcome::Refused(Refusal::OverlayMismatch { overlay })
        }
        OpenError::BufferTooSmall { need, have } => {
            Outcome::Refused(Refusal::BufferTooSmall { need, have })
        }
        OpenError::MemoryTooSmall { need } => Outcome::Refused(Refusal::MemoryTooSmall { need }),
        OpenError::FilesFault => Outcome::FilesFault,
        OpenError::NoMemory => Outcome::NoMemory,
    }
}

/// The program of this name, opened from its files.
fn open_named<F: Files>(
    alloc: Global,
    name: &Name,
    buffer: Option<u16>,
    files: &mut F,
) -> Result<Runner, Outcome>
    ensures begins { IfSome (F.folder files.old) (λ held. IfOk result (BeginsNamed held name.now buffer)) }
    ensures idle { IfOk result (λ runner. runner.end ≡ None) }
    ensures reason { IfErr result (λ outcome.
        IsNotRun outcome name.now buffer (F.folder files.old) (F.faults files.old) (F.faults files.new)) }
    ensures unchanged { F.folder files.new ≡ F.folder files.old }
    ensures counted { F.faults files.old ≤ F.faults files.new }
{
    let bytes = read_executable(alloc, files, &file_name(name, FileKind::Executable))?;
    let overlays = file_name(name, FileKind::Overlays);
    match Runner::open(alloc, bytes.as_slice(), &overlays, files, buffer) {
        Ok(runner) => Ok(runner),
        Err(error) => Err(refused_as(error)),
    }
}

/// Opens the program of this name from its files and runs it.
pub fn run_program<F: Files, S: Source, K: Sink, E: Sink>(
    alloc: Global,
    name: &Name,
    options: RunOptions,
    files: &mut F,
    input: &mut S,
    output: &mut K,
    errors: &mut E,
) -> Outcome
    ensures did { RunDid result name.now options
        (world (F.folder files.old) (F.faults files.old)
        (S.remaining input.old) (K.contents output.old) (E.contents errors.old)
        (S.faults input.old) (K.faults output.old) (E.faults errors.old))
        (world (F.folder files.new) (F.faults files.new)
        (S.remaining input.new) (K.contents output.new) (E.contents errors.new)
        (S.faults input.new) (K.faults output.new) (E.faults errors.new)) }
    ensures files_counted { F.faults files.old ≤ F.faults files.new }
    ensures errors_counted { E.faults errors.old ≤ E.faults errors.new }
{
    match open_named(alloc, name, options.buffer, files) {
        Ok(mut runner) => {
            runner.set_retry(options.retry.unwrap_or(0));
            let limit = options.limit.unwrap_or(LIMIT);
            outcome_of(runner.run(files, input, output, errors, limit))
        }
        Err(outcome) => outcome,
    }
}
