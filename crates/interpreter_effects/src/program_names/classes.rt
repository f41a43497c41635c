//! Classes: object types by the units that declare them.

ghost use Rattle.std.specs.Prelude.{◌≡◌, ◌<◌, length, position, slice_get, Some, IfOk};
ghost use Rattle.std.specs.Option.{option_map, option_copied};
ghost use Rattle.type_layout.specs.declared.definitions.Origin.{Origin};
ghost use Rattle.type_layout.specs.declared.definitions.Method.{Method};
ghost use Rattle.type_layout.specs.Storage.{width_of};
ghost use Rattle.type_layout.specs.Layouts.{size_of};
ghost use Rattle.object_vmt.specs.Members.{members_of, members_in};
ghost use Rattle.object_vmt.specs.Slots.{method_at};
ghost use Rattle.tp_meaning.specs.Programs.{size_in, class_key, is_name, is_origin, sort_by, class_sort, class_size, method_in};
ghost use Rattle.interpreter_store.specs.cell_store.Views.{view_key};
ghost use Rattle.interpreter_effects.specs.program_names.Keys.{key_at};
ghost use Rattle.interpreter_store.specs.typed_cells.Sorts.{alone, view_sort};

use crate::program_names::units::unit_named;
use interpreter_store::cell_store::Key;
use interpreter_store::typed_cells::Sort;
use object_vmt::classes;
use std::alloc::{AllocError, Global};
use type_layout::{Host, Name, RoutineId, TypeDef, TypeId, Types, size_of, storage_of};
use typed_tree::{Program, Unit};

fn width_of(host: Host) -> u16
    ensures { result ≡ width_of host }
{
    match host {
        Host::ShortInt | Host::Byte | Host::Char | Host::Boolean | Host::Enumeration => 1,
        Host::Integer | Host::Word => 2,
        Host::LongInt => 4,
    }
}

// The bytes of an ordinal in a table of its own. No other type stands alone, and is answered as out of memory.
fn size_alone(one: &TypeDef) -> Result<u16, AllocError>
    ensures { IfOk result (λ bytes. bytes ≡ size_in (record { table = alone one.now; ty = record { 0 = 0 } })) }
{
    match one {
        TypeDef::Ordinal { host, low, high } => Ok(width_of(storage_of(*host, *low, *high))),
        _ => Err(AllocError),
    }
}

#[tactic(auto, using(crate::proofs::program_names::Methods::size_past))]
fn size_at(types: &Types, ty: TypeId) -> u16
    ensures { result ≡ size_of types.now.types ty }
{
    if ty.0 < types.count() {
        size_of(types, ty) as u16
    } else {
        0
    }
}

/// The bytes of a value of a type.
pub fn size_in(sort: &Sort) -> Result<u16, AllocError>
    ensures { IfOk result (λ bytes. bytes ≡ size_in (view_sort sort.now)) }
{
    match sort {
        Sort::Alone(one) => size_alone(one),
        Sort::Of { types, ty } => Ok(size_at(types, *ty)),
    }
}

// A thing of the unit at a place among the units of a table.
fn key_in(types: &Types, unit: u32, number: u32) -> Option<Key>
    ensures { option_map view_key result ≡ option_map (λ name. record { unit = name; number = number }) (slice_get types.now.units unit) }
{
    match types.units().get(unit as usize) {
        None => None,
        Some(name) => Some(Key {
            unit: name.copied(),
            number,
        }),
    }
}

/// The class of a type: the unit that declares it, and its number there.
pub fn class_key(sort: &Sort) -> Option<Key>
    ensures { option_map view_key result ≡ class_key (view_sort sort.now) }
{
    match sort {
        Sort::Of { types, ty } => class_of(types, *ty),
        Sort::Alone(_) => None,
    }
}

#[tactic(auto, using(crate::proofs::program_names::Methods::class_past))]
fn class_of(types: &Types, ty: TypeId) -> Option<Key>
    ensures { option_map view_key result ≡ class_key (record { table = types.now; ty = ty }) }
{
    if ty.0 < types.count() {
        let (unit, number) = types.origin(ty);
        key_in(types, unit, number)
    } else {
        None
    }
}

fn is_name(name: &Name, other: Option<&Name>) -> bool
    ensures { result ≡ is_name name.now (option_copied other.entry) }
{
    match other {
        None => false,
        Some(other) => *name == *other,
    }
}

fn is_origin(types: &Types, class: &Key, ty: TypeId) -> bool
    requires { ty.0 < length types.now.types }
    ensures { (origin : Origin) × (slice_get types.now.origins ty.0 ≡ Some origin) × (result ≡ is_origin types.now (view_key class.now) origin) }
{
    let (unit, number) = types.origin(ty);
    number == class.number && is_name(&class.unit, types.units().get(unit as usize))
}

// The first type that a class is.
#[tactic(auto, using(crate::proofs::program_names::Positions::search_begins, crate::proofs::program_names::Positions::search_turns, crate::proofs::program_names::Positions::search_ends))]
fn type_of_class(types: &Types, class: &Key) -> Option<TypeId>
    ensures { option_map (λ ty. ty.0) result ≡ position (is_origin types.now (view_key class.now)) types.now.origins }
{
    'types: for number in 0..types.count() {
        if is_origin(types, class, TypeId(number)) {
            return Some(TypeId(number));
        }
    }
    None
}

fn sort_by<'a>(class: &Key, unit: &'a Unit) -> Option<Sort<'a>>
    ensures { option_map view_sort result ≡ sort_by (view_key class.now) unit.now }
{
    match type_of_class(&unit.types, class) {
        None => None,
        Some(ty) => Some(Sort::Of {
            types: &unit.types,
            ty,
        }),
    }
}

/// A class in the table of the unit that declares it.
pub fn class_sort<'a>(program: &'a Program, class: &Key) -> Option<Sort<'a>>
    ensures { option_map view_sort result ≡ class_sort program.now (view_key class.now) }
{
    match unit_named(program, &class.unit) {
        None => None,
        Some(unit) => sort_by(class, unit),
    }
}

/// The bytes of an instance of a class.
pub fn class_size(program: &Program, class: &Key) -> Result<Option<u16>, AllocError>
    ensures { IfOk result (λ bytes. bytes ≡ class_size program.now (view_key class.now)) }
{
    match class_sort(program, class) {
        None => Ok(None),
        Some(sort) => Ok(Some(size_in(&sort)?)),
    }
}

fn key_at(types: &Types, routine: RoutineId) -> Option<Key>
    ensures { option_map view_key result ≡ key_at types.now routine }
{
    key_in(types, routine.unit, routine.number)
}

// The routine of a slot of a type. Where two methods of a line break the rules of classes, which they do in no typed program,
// there is no room.
#[tactic(auto, using(crate::proofs::program_names::Methods::no_class, crate::proofs::program_names::Methods::no_slot, crate::proofs::program_names::Methods::method_found))]
fn routine_in(
    alloc: Global,
    types: &Types,
    ty: TypeId,
    slot: u32,
) -> Result<Option<RoutineId>, AllocError>
    ensures { IfOk result (λ found. found ≡ option_map (λ (method : Method). method.routine) (method_at (members_in (members_of types.now.types) ty) slot)) }
{
    let Ok(classes) = classes(alloc, types) else {
        return Err(AllocError);
    };
    if !classes.has(ty) {
        return Ok(None);
    }
    if slot >= classes.slots(ty) {
        return Ok(None);
    }
    Ok(Some(classes.method_of(ty, slot)))
}

/// The routine that answers a slot of a class.
#[tactic(auto, using(crate::proofs::program_names::Methods::method_through))]
pub fn method_in(alloc: Global, slot: u32, sort: &Sort) -> Result<Option<Key>, AllocError>
    ensures { IfOk result (λ found. option_map view_key found ≡ method_in slot (view_sort sort.now)) }
{
    let Sort::Of { types, ty } = sort else {
        return Err(AllocError);
    };
    match routine_in(alloc, types, *ty, slot)? {
        None => Ok(None),
        Some(routine) => Ok(key_at(types, routine)),
    }
}
