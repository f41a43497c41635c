//! Which units can be lowered.

ghost use Rattle.std.specs.Prelude.{◌≡◌, ◌<◌, false, length, slice_get};
ghost use Rattle.std.specs.List.{list_all};
ghost use Rattle.std.specs.Option.{option_map_or};
ghost use Rattle.typed_tree.specs.declared.units.Routine.{Routine as TypedRoutine};
ghost use Rattle.lowerable.specs.Farness.{is_dispatchable, has_far_methods, has_far_initial};
ghost use Rattle.lowerable.specs.Lowerable.{is_lowerable_routine, is_lowerable_unit};

use crate::limits::{fits, nests};
use crate::routines::{is_dispatchable, is_far_in, is_overlay};
use crate::statements::is_linkable_statement;
use type_layout::{Method, TypeDef, TypeId};
use typed_tree::Unit;

// The most routines that stand round one: they nest 16 deep.
const MOST_AROUND: u32 = 15;

fn are_dispatchable(units: &[Unit], unit: &Unit, methods: &[Method]) -> bool
    ensures { result ≡ list_all (is_dispatchable units.now unit.now) methods.now }
{
    methods
        .iter()
        .all(|method| is_dispatchable(units, unit, method))
}

fn has_far_methods(units: &[Unit], unit: &Unit, ty: &TypeDef) -> bool
    ensures { result ≡ has_far_methods units.now unit.now ty.now }
{
    match ty {
        TypeDef::ObjectOf { methods, .. } => are_dispatchable(units, unit, methods.as_slice()),
        _ => true,
    }
}

fn have_far_methods(units: &[Unit], unit: &Unit) -> bool
    ensures { result ≡ list_all (has_far_methods units.now unit.now) unit.now.types.types }
{
    for number in 0..unit.types.count() {
        if !has_far_methods(units, unit, unit.types.get(TypeId(number))) {
            return false;
        }
    }
    true
}

fn has_far_initial(unit: &Unit) -> bool
    ensures { result ≡ has_far_initial unit.now }
{
    match unit.initial {
        None => true,
        Some(number) => is_far_in(number, Some(unit)),
    }
}

fn is_lowerable_routine(units: &[Unit], unit: &Unit, number: u32) -> bool
    requires { number < length unit.now.routines }
    ensures { result ≡ option_map_or (λ (routine : TypedRoutine). is_lowerable_routine units.now unit.now routine) (slice_get unit.now.routines number) false }
{
    let routine = &unit.routines.as_slice()[number as usize];
    fits(unit, number)
        && nests(unit.routines.as_slice(), MOST_AROUND, routine.outer)
        && is_linkable_statement(units, unit, &routine.body)
}

fn are_lowerable_routines(units: &[Unit], unit: &Unit, count: u32) -> bool
    requires { count ≡ length unit.now.routines }
    ensures { result ≡ list_all (is_lowerable_routine units.now unit.now) unit.now.routines }
{
    for number in 0..count {
        if !is_lowerable_routine(units, unit, number) {
            return false;
        }
    }
    true
}

// Whether a unit can be lowered, where it is one of these.
fn is_lowerable_unit(units: &[Unit], unit: &Unit) -> bool
    ensures { result ≡ is_lowerable_unit units.now unit.now }
{
    if is_overlay(&unit.name) || !has_far_initial(unit) || !have_far_methods(units, unit) {
        return false;
    }
    match u32::try_from(unit.routines.len()) {
        Err(_) => false,
        Ok(count) => are_lowerable_routines(units, unit, count),
    }
}

/// Whether all units of a program can be lowered.
pub fn are_lowerable_units(units: &[Unit]) -> bool
    ensures { result ≡ list_all (is_lowerable_unit units.now) units.now }
{
    units.iter().all(|unit| is_lowerable_unit(units, unit))
}
