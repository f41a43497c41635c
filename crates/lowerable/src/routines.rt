//! Which routines are far.

ghost use Rattle.std.specs.Prelude.{◌≡◌};
ghost use Rattle.std.specs.Option.{option_copied};
ghost use Rattle.tp_meaning.specs.Programs.{unit_in, is_overlay};
ghost use Rattle.lowerable.specs.Farness.{is_far_in, is_far_named, is_far_at, is_far, is_callable, is_dispatchable};

use type_layout::{Method, Name, RoutineId};
use typed_tree::Unit;

fn unit_in<'a>(units: &'a [Unit], name: &Name) -> Option<&'a Unit>
    ensures { option_copied result ≡ unit_in units.now name.now }
{
    match units {
        [] => None,
        [unit, rest @ ..] => {
            if *name == unit.name {
                Some(unit)
            } else {
                unit_in(rest, name)
            }
        }
    }
}

/// Whether a unit has the name of the runtime's unit Overlay, which no source has.
pub fn is_overlay(name: &Name) -> bool
    ensures { result ≡ is_overlay name.now }
{
    name.as_bytes() == b"OVERLAY".as_slice()
}

/// Whether the routine of a number is far.
pub fn is_far_in(number: u32, unit: Option<&Unit>) -> bool
    ensures { result ≡ is_far_in number (option_copied unit.entry) }
{
    match unit {
        None => false,
        Some(unit) => match unit.routines.as_slice().get(number as usize) {
            None => false,
            Some(routine) => routine.far,
        },
    }
}

fn is_far_named(units: &[Unit], number: u32, name: &Name) -> bool
    ensures { result ≡ is_far_named units.now number name.now }
{
    is_overlay(name) || is_far_in(number, unit_in(units, name))
}

/// Whether the routine is far that a place among names leads to.
pub fn is_far_at(units: &[Unit], names: &[Name], place: u32, number: u32) -> bool
    ensures { result ≡ is_far_at units.now names.now place number }
{
    match names.get(place as usize) {
        None => false,
        Some(name) => is_far_named(units, number, name),
    }
}

/// Whether a routine may be a value.
pub fn is_far(units: &[Unit], unit: &Unit, routine: RoutineId) -> bool
    ensures { result ≡ is_far units.now unit.now routine }
{
    let own = routine.unit == 0 && is_far_in(routine.number, Some(unit));
    own || is_far_at(units, unit.names.as_slice(), routine.unit, routine.number)
}

/// Whether a unit may call a routine.
pub fn is_callable(units: &[Unit], unit: &Unit, routine: RoutineId) -> bool
    ensures { result ≡ is_callable units.now unit.now routine }
{
    routine.unit == 0 || is_far_at(units, unit.names.as_slice(), routine.unit, routine.number)
}

/// Whether a method may be called by the class of an instance, if it is one that is.
pub fn is_dispatchable(units: &[Unit], unit: &Unit, method: &Method) -> bool
    ensures { result ≡ is_dispatchable units.now unit.now method.now }
{
    let id = method.routine;
    !method.is_virtual || is_far_at(units, unit.types.units(), id.unit, id.number)
}
