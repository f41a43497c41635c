//! Building.

ghost use Rattle.std.specs.Prelude.{◌≡◌, ◌<◌, ◌≤◌, None, length, IfOk, IfErr, OnOk};
ghost use Rattle.std.specs.Option.{option_copied};
ghost use Rattle.tp_meaning.specs.Programs.{main_unit};
ghost use Rattle.mz_file.specs.Spelling.{IsWritable};
ghost use Rattle.overlay_file.specs.Format.{AreOverlays};
ghost use Rattle.smart_linker.specs.Given.{IsGiven};
ghost use Rattle.smart_linker.specs.Names.{overlaid_names as linked_names, names_of};
ghost use Rattle.smart_linker.specs.Overlaid.{is_unfit, is_unmarked, first_where};
ghost use Rattle.smart_linker.specs.Refused.{IsRefused as IsNotLinked};
ghost use Rattle.back_end.specs.Files.{AreFilesOf, IsLinkedOf};
ghost use Rattle.back_end.specs.Refused.{IsRefused, IsRefusedFor};

use crate::error::BuildError;
use crate::files::{ProgramFiles, program_files};
use crate::object_units::{LinkUnits, link_units};
use crate::setting::setting_of;
use smart_linker::{LinkError, LinkUnit, Linked, Setting, link};
use std::alloc::Global;
use typed_tree::{Program, Unit};

/// The program itself, among its units.
fn main_unit(program: &Program) -> Option<&Unit>
    ensures { option_copied result ≡ main_unit program.now }
{
    program.units.as_slice().get(program.start as usize)
}

/// A refusal of the linker, for units whose frames are marked. A reference that doesn't fit isn't met, nor is a stub that is too
/// large: the code of a unit has no room for so many routines.
fn link_refusal(units: &[LinkUnit], error: LinkError) -> BuildError
    requires refused { IsNotLinked units.now error }
    requires marked { first_where is_unmarked units.now ≡ None }
    ensures { IsRefusedFor (first_where is_unfit units.now) result }
{
    match error {
        LinkError::NotOverlayable { unit } => BuildError::NotOverlayable { unit },
        LinkError::OldFrames { .. } => unreachable!(),
        LinkError::CodeTooLarge { bytes, .. } => BuildError::CodeTooLarge { bytes },
        LinkError::DataTooLarge { bytes } => BuildError::DataTooLarge { bytes },
        LinkError::ImageTooLarge { paragraphs } => BuildError::ImageTooLarge { paragraphs },
        LinkError::TooManyRelocations { count } => BuildError::TooManyRelocations { count },
        LinkError::Misfit { .. } | LinkError::TooManyEntries { .. } | LinkError::NoMemory => {
            BuildError::NoMemory
        }
    }
}

/// Units of a program, linked.
fn linked(alloc: Global, units: &LinkUnits, setting: &Setting) -> Result<Linked, BuildError>
    requires heap { setting.now.heap ≤ 196608 }
    requires marked { first_where is_unmarked units.now ≡ None }
    ensures overlayable { OnOk result (first_where is_unfit units.now ≡ None) }
    ensures given { IfOk result (λ linked. IsGiven setting.now linked.exe) }
    ensures names { IfOk result (λ linked. names_of linked.overlays ≡ linked_names units.now) }
    ensures writable { IfOk result (λ linked. IsWritable linked.exe) }
    ensures overlays { IfOk result (λ linked. 0 < length linked.overlays → AreOverlays linked.overlays) }
    ensures refused { IfErr result (IsRefusedFor (first_where is_unfit units.now)) }
{
    match link(alloc, units.as_slice(), setting) {
        Ok(linked) => Ok(linked),
        Err(error) => Err(link_refusal(units.as_slice(), error)),
    }
}

/// The executable of a program and its overlays, linked from its units and those of the runtime.
#[tactic(auto, using(crate::proofs::LinkedUnits::linked_so, crate::proofs::LinkedUnits::refused_so, crate::proofs::LinkedUnits::marked_so, crate::proofs::LinkedUnits::code_refused))]
pub fn build(alloc: Global, program: &Program) -> Result<Linked, BuildError>
    ensures linked { IfOk result (IsLinkedOf program.now) }
    ensures refused { IfErr result (IsRefused program.now) }
{
    let Some(main) = main_unit(program) else {
        return Err(BuildError::NoMemory);
    };
    let setting = setting_of(main)?;
    let units = link_units(alloc, program, main.overlaid.as_slice())?;
    linked(alloc, &units, &setting)
}

/// What the files of a program hold.
pub fn built_files(alloc: Global, program: &Program) -> Result<ProgramFiles, BuildError>
    ensures built { IfOk result (AreFilesOf program.now) }
    ensures refused { IfErr result (IsRefused program.now) }
{
    let linked = build(alloc, program)?;
    Ok(program_files(alloc, &linked)?)
}
