//! Which programs can be lowered: routines are far where they have to be, and limits are kept.
#![tactic(auto)]

ghost use Rattle.std.specs.Prelude.{◌≡◌, true};
ghost use Rattle.std.specs.Option.{option_copied};
ghost use Rattle.typed_tree.specs.declared.units.Program.{Program as TypedProgram};
ghost use Rattle.tp_meaning.specs.Programs.{main_unit};
ghost use Rattle.lowerable.specs.Limits.{has_stack};
ghost use Rattle.lowerable.specs.Lowerable.{is_lowerable, IsLowerable, NamesApart};

mod expressions;
mod limits;
mod routines;
mod statements;
mod units;

use crate::units::are_lowerable_units;
use typed_tree::{Program, Unit};

fn main_unit(program: &Program) -> Option<&Unit>
    ensures { option_copied result ≡ main_unit program.now }
{
    program.units.as_slice().get(program.start as usize)
}

fn has_stack(main: Option<&Unit>) -> bool
    ensures { result ≡ has_stack (option_copied main.entry) }
{
    match main {
        None => false,
        Some(unit) => 1024 <= unit.stack && unit.stack <= 65_520,
    }
}

/// Whether a program can be lowered. Each routine is far that another unit calls, that is a value or a virtual
/// method, or that begins a unit; arguments, locals, nesting and the stack keep their limits; and no unit has
/// the name of the runtime's.
pub fn is_lowerable(program: &Program) -> bool
    ensures { result ≡ is_lowerable program.now }
{
    has_stack(main_unit(program)) && are_lowerable_units(program.units.as_slice())
}

/// What a program has that can be lowered; and that a name which isn't Overlay's is none of the runtime's. It does
/// nothing.
pub fn lowerable_laws()
    ensures gives { (program : TypedProgram) → is_lowerable program ≡ true → IsLowerable program }
    ensures names { NamesApart }
{}
