//! Whether 32 bits hold the numbers of what sources and units declare.

ghost use Rattle.std.specs.Prelude.{◌≡◌, ◌≤◌, ◌^◌, ◌↔◌, All, IsTrue, length, min};
ghost use Rattle.typed_tree.specs.type_fits.Routines.{listed, variables_of};
ghost use Rattle.programs_well_typed.specs.declarations_well_formed.tables.Laws.{IsFit};
ghost use Rattle.programs_well_typed.specs.programs.Below.{HasFewVariables, HaveDeclaredMethods};
ghost use Rattle.checked_front_end.specs.Numbers.{own_members, members_declared, HasRoom, IsRoomyThen, IsNumbered};

use crate::variables::has_few_variables;
use front_end::TypedSources;
use type_layout::{TypeDef, TypeId, Types};
use typed_tree::{Routine, Unit};

// How many numbers 32 bits hold.
const NUMBERS: u64 = 1 << 32;

// How many numbers the variables of a routine have; the others of 32 bits are for what a `with` holds.
const VARIABLES: u64 = 1 << 31;

// A type, or none.
fn listed(one: &Option<TypeId>) -> u64
    ensures { result ≡ length (listed one.now) }
{
    match one {
        Some(_) => 1,
        None => 0,
    }
}

// How many variables a routine has, or the greatest u64 where they pass it.
fn variables_of(one: &Routine) -> u64
    ensures { result ≡ min (length (variables_of one.now)) u64.MAX }
{
    (one.header.params.len() as u64)
        .saturating_add(one.locals.len() as u64)
        .saturating_add(listed(&one.owner))
        .saturating_add(listed(&one.header.result))
}

// Whether the variables of a routine can be numbered.
fn has_few(one: &Routine) -> bool
    ensures { IsTrue result ↔ HasFewVariables one.now }
{
    variables_of(one) < VARIABLES
}

// How many fields and methods a type declares itself, or the greatest u64 where they pass it.
fn own_members(one: &TypeDef) -> u64
    ensures { result ≡ min (own_members one.now) u64.MAX }
{
    match one {
        TypeDef::RecordOf { fields } => fields.len() as u64,
        TypeDef::ObjectOf {
            fields,
            methods,
            ..
        } => (fields.len() as u64).saturating_add(methods.len() as u64),
        _ => 0,
    }
}

// How many fields and methods the types of a table declare, or the greatest u64 where they pass it.
fn members_declared(types: &Types) -> u64
    ensures value { result ≡ min (members_declared types.now.types) u64.MAX }
    ensures fit { result ≤ 2 ^ 32 → HaveDeclaredMethods types.now.types → IsFit types.now.types }
{
    let mut count = 0u64;
    for number in 0..types.count() {
        count = count.saturating_add(own_members(types.get(TypeId(number))));
    }
    count
}

// Whether 32 bits hold the numbers of what a unit declares.
fn has_room(unit: &Unit) -> bool
    ensures decides { IsTrue result ↔ HasRoom unit.now }
    ensures roomy { IsTrue result → IsRoomyThen unit.now }
{
    (unit.routines.len() as u64) < NUMBERS
        && (unit.globals.len() as u64) < NUMBERS
        && (unit.names.len() as u64) < NUMBERS
        && members_declared(&unit.types) <= NUMBERS
        && unit.routines.as_slice().iter().all(has_few)
}

/// Whether 32 bits hold the numbers of what the sources of a program and its units declare. No limit on texts sees to that: a text
/// may include a file many times, and that file another.
pub(crate) fn are_numbered(found: &TypedSources) -> bool
    ensures decides { IsTrue result ↔ IsNumbered found.now }
    ensures roomy { IsTrue result → All IsRoomyThen found.now.program.units }
{
    found
        .sources
        .iter()
        .all(|source| has_few_variables(&source.tree))
        && found.program.units.as_slice().iter().all(has_room)
}
