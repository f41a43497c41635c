//! The three units of the runtime together: what they promise of each routine, and the room that they take.
#![tactic(auto)]

pub mod numbers;

ghost use Rattle.std.specs.Prelude.{◌≡◌, ◌≤◌, ◌++◌, IfOk, ℕ, Bool, true, false, IsTrue, List, map};
ghost use Rattle.flat_code.specs.Program.{Name, UnitCode, FlatProgram, Choice, text_unit, strings_unit, overlay_unit};
ghost use Rattle.flat_code.specs.Legal.{Mention, StackFits, IsLegal, IsWellFormed};
ghost use Rattle.flat_code.specs.Plain.{view_unit, program_of, units_size};
ghost use Rattle.runtime_units.specs.Units.{runtime_codes, HoldsRuntime, ReachesRuntimeData, RuntimePlaces, CanStart};
ghost use Rattle.runtime_units.specs.Specifications.{RuntimeWorks, StartsRuntime};
ghost use Rattle.runtime_units.specs.Bounds.{IsShallowRuntime, StandFirst};
ghost use Rattle.runtime_units.specs.PlainCode.{runtime_is_plain, IsPlainRuntime};

use flat_code::FlatUnit;
use heap_runtime::heap_routines;
use rt_strings::string_routines;
use rt_text::text_routines;
use std::alloc::{AllocError, Global};

/// The units of the runtime, in the order in which they stand first in a program.
pub fn runtime_units(alloc: Global) -> Result<Vec<FlatUnit>, AllocError>
    ensures { IfOk result (λ units. map view_unit units.items ≡ runtime_codes) }
{
    Ok(vec![in alloc;
        text_routines(alloc)?,
        string_routines(alloc)?,
        heap_routines(alloc)?,
    ]?)
}

/// The laws of the runtime. A program whose list of units begins with the three holds them; where it holds
/// them, each routine does what the runtime promises, wherever the program's parts lie; by a legal choice
/// that reaches the runtime's data these have their places, and as the program starts they are as the
/// routines want them. No chain of calls that a routine of the runtime begins takes more than 64 bytes of
/// the stack. The data of the three units take at most 1,024 bytes, and stand first. The code of all
/// routines has no numbers but words, and calls nothing but effects of the machine. It does nothing.
pub fn runtime_laws()
    ensures holds { (units : List UnitCode) (overlaid : List Name) (stack heap : ℕ) → let program = program_of (runtime_codes ++ units) overlaid stack heap in program.overlaid text_unit ≡ false → program.overlaid strings_unit ≡ false → program.overlaid overlay_unit ≡ false → HoldsRuntime program }
    ensures places { (program : FlatProgram) (choice : Choice) (reached : Mention → Bool) → IsLegal program choice (λ mention. IsTrue (reached mention)) → HoldsRuntime program → ReachesRuntimeData (λ mention. IsTrue (reached mention)) → program.heap ≤ 196608 → RuntimePlaces program choice }
    ensures works { (program : FlatProgram) (choice : Choice) (places : RuntimePlaces program choice) → StackFits program choice → HoldsRuntime program → RuntimeWorks program choice places }
    ensures starts { (program : FlatProgram) (choice : Choice) (reached : Mention → Bool) (places : RuntimePlaces program choice) → IsLegal program choice (λ mention. IsTrue (reached mention)) → HoldsRuntime program → CanStart program choice → StartsRuntime program choice places }
    ensures chains { (program : FlatProgram) → HoldsRuntime program → IsWellFormed program → IsShallowRuntime program 64 }
    ensures data { units_size runtime_codes ≤ 1024 }
    ensures first { (units : List UnitCode) → StandFirst units }
    ensures all_plain { runtime_is_plain ≡ true }
    ensures plain { (program : FlatProgram) → HoldsRuntime program → IsPlainRuntime program }
{}
