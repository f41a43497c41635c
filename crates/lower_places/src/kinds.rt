//! The kinds of routines.

ghost use Rattle.std.specs.Prelude.{◌≡◌, Some, IfOk};
ghost use Rattle.std.specs.Option.{option_copied};
ghost use Rattle.tp_meaning.specs.Programs.{is_name};
ghost use Rattle.lower_places.specs.Kinds.{methods_of, is_method, kind_among, kind_from, method_kind, kind_of};

use crate::scene::Scene;
use std::alloc::AllocError;
use type_layout::{Kind, Method, Name, RoutineId, TypeDef, TypeId, Types};

fn methods_of(one: &TypeDef) -> &[Method]
    ensures { result.now ≡ methods_of one.now }
{
    match one {
        TypeDef::ObjectOf { methods, .. } => methods.as_slice(),
        _ => &[],
    }
}

fn is_name(name: &Name, other: Option<&Name>) -> bool
    ensures { result ≡ is_name name.now (option_copied other.entry) }
{
    match other {
        None => false,
        Some(other) => *name == *other,
    }
}

fn is_method(units: &[Name], name: &Name, number: u32, method: &Method) -> bool
    ensures { result ≡ is_method units.now name.now number method.now }
{
    method.routine.number == number && is_name(name, units.get(method.routine.unit as usize))
}

fn kind_among(units: &[Name], name: &Name, number: u32, methods: &[Method]) -> Option<Kind>
    ensures { result ≡ kind_among units.now name.now number methods.now }
{
    match methods {
        [] => None,
        [method, rest @ ..] => {
            if is_method(units, name, number, method) {
                Some(method.header.kind)
            } else {
                kind_among(units, name, number, rest)
            }
        }
    }
}

// The kind of a method of the types of a table.
#[tactic(auto, using(crate::proofs::KindTurns::kind_begins, crate::proofs::KindTurns::kind_turns, crate::proofs::KindTurns::kind_ends))]
fn kind_from(types: &Types, name: &Name, number: u32) -> Option<Kind>
    ensures { result ≡ kind_from types.now.units name.now number types.now.types }
{
    'types: for id in 0..types.count() {
        let methods = methods_of(types.get(TypeId(id)));
        if let Some(kind) = kind_among(types.units(), name, number, methods) {
            return Some(kind);
        }
    }
    None
}

impl<'a> Scene<'a> {
    // The kind of the method with a number in a unit, as the types tell it.
    fn method_kind(&self, name: &Name, number: u32) -> Kind
        ensures { result ≡ method_kind self.now.unit.now number name.now }
    {
        match kind_from(&self.unit.types, name, number) {
            Some(kind) => kind,
            None => Kind::Procedure,
        }
    }

    /// The kind of a routine; of one of another unit that is no method, whether it is a function is not told.
    pub fn kind_of(&self, routine: RoutineId) -> Result<Kind, AllocError>
        ensures { IfOk result (λ kind. kind_of self.now.unit.now routine ≡ Some kind) }
    {
        if routine.unit == 0 {
            return Ok(self.routine_at(routine.number)?.header.kind);
        }
        match self.unit.names.as_slice().get(routine.unit as usize) {
            Some(name) => Ok(self.method_kind(name, routine.number)),
            None => Err(AllocError),
        }
    }
}
