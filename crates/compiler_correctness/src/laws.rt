//! The theorems, each the contract of a function that does nothing but cite the laws below it.

ghost use Rattle.std.specs.Prelude.{◌≡◌, ℕ, List};
ghost use Rattle.typed_tree.specs.declared.units.Program.{Program};
ghost use Rattle.program_typing.specs.programs.WellTyped.{IsWellTyped};
ghost use Rattle.flat_code.specs.Program.{FlatProgram};
ghost use Rattle.runtime_units.specs.Units.{HoldsRuntime};
ghost use Rattle.compiler_correctness.specs.Runs.{Files};
ghost use Rattle.compiler_correctness.specs.Hypotheses.{IsBuiltPlain, plain_rate, IsBuilt, overlaid_rate, OverlaysFollow};
ghost use Rattle.compiler_correctness.specs.OverlayFiles.{HoldProgram};
ghost use Rattle.resident_machine.specs.Program as resident;
ghost use Rattle.resident_machine.specs.State.{ResidentState};
ghost use Rattle.compiler_correctness.specs.Correct.{IsCorrectPlain, IsCorrect};
ghost use Rattle.compiler_correctness.specs.Compiler.{Compiler, CompilerLaws, PlainTheorem, OverlaidTheorem, RingLaw, RunTheorem};
ghost use Rattle.compiler_correctness.specs.Slice.{SliceFollows, SliceStands};
ghost use Rattle.compiler_correctness.specs.Expressible.{PlainIsExpressible, RuntimeIsExpressible};
ghost use Rattle.tabled_runs.specs.Tables.{Tabled, TabledRuns};

use code_simulation::start::start_law;
use cpu_8086::{run_law, step_law};
use dos_runner::plain_opening::plain_opening_law;
use overlay_manager::overlay_run::plain_law;
use resident_machine::machine_lines::run_law as leads_law;
use resident_machine::resident_law;
use runtime_units::runtime_laws;
use tp_meaning::meaning_laws;
use type_soundness::programs::sound_program_laws;

/// A well-typed program without overlaid units, and the executable that is built from it: opened with any buffer for which there is
/// room, and run on any input of bytes, it follows what the program means, in both directions. Each code and each runtime error
/// comes just where it is meant. Within some turns it has so many events at most for each turn and each byte that was read.
pub fn plain_program_law()
    ensures { (program : Program) (exe : List ℕ) → IsWellTyped program → (built : IsBuiltPlain program exe) → IsCorrectPlain (plain_rate program exe built) program exe }
{
    start_law();
    leads_law();
    resident_law();
    run_law();
    plain_law();
    plain_opening_law();
    meaning_laws();
    sound_program_laws();
}

/// A well-typed program with overlaid units, and the two files that are built from it: with any buffer that fits, on any input of
/// bytes, and for any number of turns there is a number of events within which the run shows what the program means, wherever a list
/// of legal tables puts the overlays. So output and end are the same for all of these, the run is never stopped before an undefined
/// act, and it goes on where the meaning does.
pub fn overlaid_program_law()
    ensures { (program : Program) (files : Files) → IsWellTyped program → (built : IsBuilt program files) → IsCorrect (overlaid_rate program files built) program files }
{
    start_law();
    leads_law();
    step_law();
    meaning_laws();
    sound_program_laws();
}

/// The theorems of a whole compiler, from the laws of its parts: without overlaid units, with them, and of what the ring chooses.
pub fn compiler_law()
    ensures plain { (c : Compiler) → CompilerLaws c → PlainTheorem c }
    ensures overlaid { (c : Compiler) → CompilerLaws c → OverlaidTheorem c }
    ensures run { (c : Compiler) → CompilerLaws c → RunTheorem c }
{
    plain_program_law();
    overlaid_program_law();
}

/// Files that hold a program of the resident machine follow it, wherever overlays are put; and what the ring chooses for opened files
/// are tables, with reprieve and without. So of what is taken of overlays it is left that files hold the program.
pub fn overlay_files_law()
    ensures overlays { (machine : resident.Program) (start : List ℕ → ResidentState) (files : Files) → HoldProgram machine start files → OverlaysFollow machine start files }
    ensures ring { RingLaw }
{}

/// A run by given tables has one outcome after so many events.
pub fn tabled_run_law()
    ensures { (bytes : List ℕ) (n : ℕ) (p q r : Tabled) → TabledRuns bytes n p q → TabledRuns bytes n p r → q ≡ r }
{
    step_law();
}

/// What is asked of the lowering can be met: by a program of two units, the first of which has a part that is called at the start,
/// through a stub that refuses it where the unit is overlaid; the second takes a turn and ends with an error. There are places for
/// its parts, of which this can be asked.
pub fn slice_law()
    ensures follows { SliceFollows }
    ensures stands { SliceStands }
{}

/// What the code of the runtime asks for is there, as placed programs want it: its numbers are words, and it calls effects of the
/// machine alone.
pub fn runtime_code_law()
    ensures plain { PlainIsExpressible }
    ensures runtime { (program : FlatProgram) → HoldsRuntime program → RuntimeIsExpressible program }
{
    runtime_laws();
}
