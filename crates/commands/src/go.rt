//! The command `go`, before its last line.

ghost use Rattle.std.specs.Prelude.{◌≡◌, ◌≤◌, ℕ, Option, IfOk, IfErr, IfSome, MatchOption};
ghost use Rattle.mz_file.specs.Format.{Denotes};
ghost use Rattle.mz_file.specs.Spelling.{IsWritable, spelling};
ghost use Rattle.literal_programs.specs.Literals.{IsLiteral};
ghost use Rattle.front_end.specs.declared.outcomes.outcome.Outcome.{Outcome};
ghost use Rattle.commands.specs.Go.{DoesSoon, IsNotGone, GoDid};
ghost use Rattle.commands.specs.Prepared.{IsBuilt, IsIdle, IsPrepared};
ghost use Rattle.commands.specs.World.{world};

use crate::compiled::{compiled_files, not_written, open_compiled, write_files};
use crate::ending::outcome_of;
use crate::names::{FileKind, file_name};
use crate::run::{LIMIT, refused_as};
use back_end::ProgramFiles;
use checked_front_end::formed_sources;
use command_line::RunOptions;
use cpu_8086::Machine;
use dos_runner::opened_program::{Opened, open_program};
use dos_runner::overlay_runner::Runner;
use dos_runner::run;
use front_end::outcomes::Outcome;
use literal_programs::literal_executable;
use mz_file::{Exe, write_exe};
use std::alloc::Global;
use tp_outside::{Files, Sink, Source};
use type_layout::{Bytes, Name};
use typed_tree::Program;

/// What was built of a program.
#[derive(Drop)]
pub(crate) enum Built {
    /// The bytes of an executable, of a program of literals.
    Literal(Bytes),
    /// The files of any other program.
    Compiled(ProgramFiles),
}

/// A program that was built and opened, and not yet written.
#[derive(Drop)]
pub(crate) enum Prepared {
    /// A program of literals: its executable's bytes, and a machine on which it starts.
    Literal { bytes: Bytes, machine: Machine },
    /// Any other program: its files, and a runner that begins with them.
    Compiled { files: ProgramFiles, runner: Runner },
}

// The bytes of an executable.
fn spelled(alloc: Global, exe: &Exe) -> Result<Bytes, Outcome>
    requires { IsWritable exe.now }
    ensures exact { IfOk result (λ bytes. bytes ≡ spelling exe.now) }
    ensures denotes { IfOk result (λ bytes. Denotes bytes exe.now) }
    ensures memory { IfErr result (λ error. error ≡ Outcome.NoMemory) }
{
    match write_exe(alloc, exe) {
        Ok(bytes) => Ok(bytes),
        Err(_) => Err(Outcome::NoMemory),
    }
}

// The executable of a typed program, where it is one of literals.
fn literal_bytes(alloc: Global, program: &Program) -> Result<Option<Bytes>, Outcome>
    ensures made { IfOk result (λ found. MatchOption found (IsLiteral program.now → ⊥) (DoesSoon program.now)) }
    ensures memory { IfErr result (λ error. error ≡ Outcome.NoMemory) }
{
    match literal_executable(alloc, program) {
        Ok(Some(exe)) => match spelled(alloc, &exe) {
            Ok(bytes) => Ok(Some(bytes)),
            Err(outcome) => Err(outcome),
        },
        Ok(None) => Ok(None),
        Err(_) => Err(Outcome::NoMemory),
    }
}

// What is built of the program of this name, from its sources.
fn build<F: Files>(alloc: Global, name: &Name, files: &mut F) -> Result<Built, Outcome>
    ensures built { IfSome (F.folder files.old) (λ held. IfOk result (IsBuilt held name.now)) }
    ensures reason { IfErr result (λ outcome. (buffer : Option ℕ)
        → IsNotGone outcome name.now buffer (F.folder files.old) (F.faults files.old) (F.faults files.new)) }
    ensures unchanged { F.folder files.new ≡ F.folder files.old }
    ensures counted { F.faults files.old ≤ F.faults files.new }
{
    let found = match formed_sources(alloc, name, files) {
        Ok(found) => found,
        Err(outcome) => return Err(outcome),
    };
    match literal_bytes(alloc, &found.program) {
        Ok(Some(bytes)) => Ok(Built::Literal(bytes)),
        Ok(None) => match compiled_files(alloc, &found.program) {
            Ok(files) => Ok(Built::Compiled(files)),
            Err(outcome) => Err(outcome),
        },
        Err(outcome) => Err(outcome),
    }
}

// The program of this name, built and opened. Nothing is written.
fn prepare<F: Files>(
    alloc: Global,
    name: &Name,
    buffer: Option<u16>,
    files: &mut F,
) -> Result<Prepared, Outcome>
    ensures prepared { IfSome (F.folder files.old) (λ held. IfOk result (IsPrepared held name.now buffer)) }
    ensures idle { IfOk result IsIdle }
    ensures reason { IfErr result (λ outcome.
        IsNotGone outcome name.now buffer (F.folder files.old) (F.faults files.old) (F.faults files.new)) }
    ensures unchanged { F.folder files.new ≡ F.folder files.old }
    ensures counted { F.faults files.old ≤ F.faults files.new }
{
    match build(alloc, name, files) {
        Ok(Built::Literal(bytes)) => {
            let overlays = file_name(name, FileKind::Overlays);
            match open_program(alloc, bytes.as_slice(), &overlays, files, buffer) {
                Ok(opened) => {
                    let Opened { machine, .. } = opened;
                    Ok(Prepared::Literal { bytes, machine })
                }
                Err(error) => Err(refused_as(error)),
            }
        }
        Ok(Built::Compiled(compiled)) => {
            match open_compiled(alloc, name, &compiled, buffer, files) {
                Ok(runner) => Ok(Prepared::Compiled {
                    files: compiled,
                    runner,
                }),
                Err(outcome) => Err(outcome),
            }
        }
        Err(outcome) => Err(outcome),
    }
}

/// Builds the program of this name, writes its executable and, where it has overlays, its overlay file, and runs what it wrote. A
/// program of literals has no overlays, so its machine runs as that of a program without any.
pub fn go<F: Files, S: Source, K: Sink, E: Sink>(
    alloc: Global,
    name: &Name,
    options: RunOptions,
    files: &mut F,
    input: &mut S,
    output: &mut K,
    errors: &mut E,
) -> Outcome
    ensures did { GoDid result name.now options
        (world (F.folder files.old) (F.faults files.old)
        (S.remaining input.old) (K.contents output.old) (E.contents errors.old)
        (S.faults input.old) (K.faults output.old) (E.faults errors.old))
        (world (F.folder files.new) (F.faults files.new)
        (S.remaining input.new) (K.contents output.new) (E.contents errors.new)
        (S.faults input.new) (K.faults output.new) (E.faults errors.new)) }
    ensures files_counted { F.faults files.old ≤ F.faults files.new }
    ensures errors_counted { E.faults errors.old ≤ E.faults errors.new }
{
    let limit = options.limit.unwrap_or(LIMIT);
    match prepare(alloc, name, options.buffer, files) {
        Ok(Prepared::Literal { bytes, mut machine }) => {
            let executable = file_name(name, FileKind::Executable);
            match files.write(executable.as_str(), bytes.as_slice()) {
                Ok(()) => outcome_of(run(&mut machine, input, output, errors, limit)),
                Err(error) => not_written(error),
            }
        }
        Ok(
            Prepared::Compiled {
                files: compiled,
                mut runner,
            },
        ) => match write_files(name, &compiled, files) {
            Ok(()) => {
                runner.set_retry(options.retry.unwrap_or(0));
                outcome_of(runner.run(files, input, output, errors, limit))
            }
            Err(error) => not_written(error),
        },
        Err(outcome) => outcome,
    }
}
