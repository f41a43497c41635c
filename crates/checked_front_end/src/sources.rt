//! The typed program that the files of a folder hold, which is well-typed.

ghost use Rattle.std.specs.Prelude.{◌≡◌, ◌≤◌, ℕ, List, IsTrue, IfOk, IfErr, IfSome, Err};
ghost use Rattle.tp_outside.specs.Faults.{HasRisen};
ghost use Rattle.tp_outside.specs.Folder.{Folder};
ghost use Rattle.front_end.specs.declared.outcomes.outcome.Outcome.{Outcome};
ghost use Rattle.front_end.specs.Found.{IsFoundIn};
ghost use Rattle.front_end.specs.Untyped.{IsNoProgram, IsDeclining};
ghost use Rattle.checked_front_end.specs.Formed.{AreFormed, FormedLaw};

use crate::known::{are_kept, are_texts};
use crate::numbers::are_numbered;
use front_end::outcomes::Outcome;
use front_end::{TypedSources, typed_sources};
use programs_well_typed::programs::{
    formed_program_laws, numbered_method_laws, well_typed_program_laws,
};
use std::alloc::Global;
use token_provenance::sources::written_source_laws;
use tp_outside::Files;
use type_layout::Name;

fn formed_law()
    ensures { FormedLaw }
{
    written_source_laws();
    numbered_method_laws();
    formed_program_laws();
    well_typed_program_laws();
}

// Whether 32 bits hold the numbers of what is declared, and then each unit is well formed, and the program well-typed.
fn are_formed(found: &TypedSources) -> bool
    ensures formed { IsTrue result → (held : Folder) (name : List ℕ) → IsFoundIn held name found.now → AreFormed found.now.program }
{
    formed_law();
    are_texts(found.texts.as_slice());
    are_kept(found.program.units.as_slice());
    are_numbered(found)
}

/// The sources of the program of this name with the typed program that they are, which is well-typed: it never comes to an ill-typed step. An error is the
/// outcome of a command that asks for it: the first refusal in the order of the phases, a fault of the files, or out of memory. It is out
/// of memory too where 32 bits don't hold the numbers of what the sources declare: limits on texts don't see to that, since a text may
/// include a file many times.
pub fn formed_sources<F: Files>(
    alloc: Global,
    name: &Name,
    files: &mut F,
) -> Result<TypedSources, Outcome>
    ensures found { IfSome (F.folder files.old) (λ held. IfOk result (IsFoundIn held name.now)) }
    ensures formed { IfOk result (λ found. AreFormed found.program) }
    ensures cause { IfSome (F.folder files.old) (λ held. IfErr result (IsNoProgram held name.now)) }
    ensures declines { IfErr result IsDeclining }
    ensures unchanged { F.folder files.new ≡ F.folder files.old }
    ensures counted { F.faults files.old ≤ F.faults files.new }
    ensures failed { result ≡ Err Outcome.FilesFault → HasRisen (F.faults files.old) (F.faults files.new) }
{
    match typed_sources(alloc, name, files) {
        Ok(found) => {
            if are_formed(&found) {
                Ok(found)
            } else {
                Err(Outcome::NoMemory)
            }
        }
        Err(outcome) => Err(outcome),
    }
}
