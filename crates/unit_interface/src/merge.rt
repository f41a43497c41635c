//! The types and items of an interface, as they come into a scope.

ghost use Rattle.std.specs.Prelude.{◌≡◌, ◌+◌, ◌<◌, true, [], get_or, length, option_copied, slice_get, IfErr, IfOk, OnOk};
ghost use Rattle.scopes.specs.Predeclared.{system};
ghost use Rattle.type_layout.specs.Words.{same_bytes};
ghost use Rattle.type_layout.specs.Table.{IsWellFormed, place_of, with_type};
ghost use Rattle.unit_interface.specs.Merge.{renumbered, is_new, with_merged, merged, name_of, entry_of, with_items, with_declaring, with_all_declaring, with_interface};
ghost use Rattle.unit_interface.specs.Misfits.{follows, is_torn, IsMisfitCause, IsMisfitAt, IsCause, IsMergeCause};
ghost use Rattle.unit_interface.specs.Fitting.{stands, fits_at, fit_first, types_fit};

use crate::Interface;
use crate::keys::ids_in;
use crate::renumber::{header_of, new_id, type_of};
use scopes::{Entry, Scope, Symbols};
use std::alloc::{AllocError, Global};
use type_layout::{Host, Name, RoutineId, TypeDef, TypeError, TypeId, Types};
use typed_tree::{Item, Value};

/// Why the types of an interface don't come into a table.
#[derive(Debug, Drop)]
pub enum MergeError {
    /// A type can't stand on those that the table has for its parts, is too large, or is an ordinal type of an enumeration without
    /// the set behind it.
    Mismatch,
    NoMemory,
}

impl From<AllocError> for MergeError {
    ghost use Rattle.std.specs.Prelude.{◌≡◌};
    ghost use Rattle.unit_interface.specs.declared.merge.MergeError.TheVariants.{NoMemory};

    ghost from_gives = { λ _ error. error ≡ NoMemory };

    fn from(_error: AllocError) -> MergeError {
        MergeError::NoMemory
    }
}

// The place of a unit among the units of a table, the next one where it is new.
fn place_in(types: &Types, unit: &Name) -> usize
    ensures { result ≡ place_of types.now.units unit.now }
{
    types.unit_place(unit).unwrap_or(types.units().len())
}

// The same place in 32 bits.
fn place_of(types: &Types, unit: &Name) -> Result<u32, AllocError>
    ensures { IfOk result (λ place. place ≡ place_of types.now.units unit.now) }
{
    match u32::try_from(place_in(types, unit)) {
        Ok(place) => Ok(place),
        Err(_) => Err(AllocError),
    }
}

/// A type with new ids, as it comes into a table from the unit that declares it.
pub(crate) fn added_type(
    alloc: Global,
    types: &Types,
    ids: &[TypeId],
    origin: &Name,
    one: &TypeDef,
) -> Result<TypeDef, AllocError>
    ensures { IfOk result (λ added. added ≡ renumbered ids.now (place_of types.now.units origin.now) one.now) }
{
    let place = place_of(types, origin)?;
    type_of(alloc, ids, place, one)
}

// The id of a type with this number.
fn id_of(ids: &[TypeId], number: u32) -> TypeId
    ensures { result ≡ get_or ids.now number (record { 0 = number }) }
{
    match ids.get(number as usize) {
        Some(id) => *id,
        None => TypeId(number),
    }
}

// Whether the type with this number has the id of the type that is added next.
fn is_new(ids: &[TypeId], types: &Types, number: u32) -> bool
    ensures { result ≡ is_new ids.now types.now number }
{
    id_of(ids, number).0 >= types.count()
}

// Whether an id follows another.
fn follows(id: TypeId, next: Option<TypeId>) -> bool
    ensures { result ≡ follows id next }
{
    match next {
        Some(next) => u64::from(next.0) == u64::from(id.0) + 1,
        None => false,
    }
}

// Whether the type with this number is an ordinal type of an enumeration, and the set behind it doesn't get the next id.
fn is_torn(ids: &[TypeId], other: &Types, number: u32) -> bool
    requires { number < length other.now.types }
    ensures { result ≡ is_torn ids.now other.now number }
{
    match other.get(TypeId(number)) {
        TypeDef::Ordinal { host, .. } if matches!(host, Host::Enumeration) => {
            let next = ids.get(number as usize + 1).copied();
            !follows(id_of(ids, number), next)
        }
        _ => false,
    }
}

fn add(scope: &mut Scope, origin: Name, number: u32, one: TypeDef) -> Result<(), MergeError>
    ensures ok { OnOk result (scope.new ≡ record scope.old { types = with_type scope.old.types origin number one }) }
    ensures fits { OnOk result (stands scope.old.types origin one ≡ true) }
    ensures cause { IfErr result (IsMisfitCause scope.old.types origin one) }
{
    if !scope.types().takes(&origin, &one) {
        return Err(MergeError::Mismatch);
    }
    match scope.add_type(origin, number, one) {
        Ok(_) => Ok(()),
        Err(TypeError::TooLarge { .. }) => Err(MergeError::Mismatch),
        Err(TypeError::NoMemory) => Err(MergeError::NoMemory),
    }
}

// The type with this number of another table, as it comes into this one.
fn merge_type(
    alloc: Global,
    scope: &mut Scope,
    other: &Types,
    ids: &[TypeId],
    number: u32,
) -> Result<(), MergeError>
    requires known { number < length other.now.types }
    requires well_formed { IsWellFormed other.now }
    ensures ok { OnOk result (scope.new ≡ record scope.old { types = with_merged other.now ids.now scope.old.types number }) }
    ensures fits { OnOk result (fits_at ids.now scope.old.types other.now number ≡ true) }
    ensures cause { IfErr result (IsMisfitAt ids.now scope.old.types other.now number) }
{
    if !is_new(ids, scope.types(), number) {
        return Ok(());
    }
    if is_torn(ids, other, number) {
        return Err(MergeError::Mismatch);
    }
    let (unit, own) = other.origin(TypeId(number));
    let origin = other.units()[unit as usize].copied();
    let one = added_type(
        alloc,
        scope.types(),
        ids,
        &origin,
        other.get(TypeId(number)),
    )?;
    add(scope, origin, own, one)
}

// The types of another table, as they come into this one.
fn merge(alloc: Global, scope: &mut Scope, other: &Types, ids: &[TypeId]) -> Result<(), MergeError>
    ensures ok { OnOk result (scope.new ≡ record scope.old { types = merged other.now ids.now scope.old.types (length other.now.types) }) }
    ensures fits { OnOk result (fit_first ids.now scope.old.types other.now (length other.now.types) ≡ true) }
    ensures cause { IfErr result (IsCause ids.now scope.old.types other.now) }
{
    for number in 0..other.count() {
        merge_type(alloc, scope, other, ids, number)?;
    }
    Ok(())
}

/// A copy of a value.
pub(crate) fn value_of(alloc: Global, value: &Value) -> Result<Value, AllocError>
    ensures { IfOk result (λ copy. copy ≡ value.now) }
{
    Ok(match value {
        Value::Number(number) => Value::Number(*number),
        Value::Chars(bytes) => Value::Chars(bytes.copied(alloc)?),
        Value::Nil => Value::Nil,
        Value::Elements(bytes) => Value::Elements(bytes.copied(alloc)?),
    })
}

fn name_of(item: &Item) -> Name
    ensures { result ≡ name_of item.now }
{
    match item {
        Item::Const { name, .. } => name.copied(),
        Item::Ty { name, .. } => name.copied(),
        Item::Var { name, .. } => name.copied(),
        Item::Code { name, .. } => name.copied(),
    }
}

// What an item of the unit at this place means. The routines of an interface are far.
fn entry_of(alloc: Global, ids: &[TypeId], unit: u32, item: &Item) -> Result<Entry, AllocError>
    ensures { IfOk result (λ entry. entry ≡ entry_of ids.now unit item.now) }
{
    Ok(match item {
        Item::Const { ty, value, .. } => Entry::Const {
            ty: new_id(ids, *ty),
            value: value_of(alloc, value)?,
        },
        Item::Ty { ty, .. } => Entry::Ty {
            ty: new_id(ids, *ty),
        },
        Item::Var { ty, number, .. } => Entry::Var {
            unit,
            level: 0,
            number: *number,
            ty: new_id(ids, *ty),
        },
        Item::Code { header, number, .. } => Entry::Code {
            routine: RoutineId {
                unit,
                number: *number,
            },
            level: 0,
            header: header_of(alloc, ids, header)?,
            far: true,
        },
    })
}

/// The names of the items of the unit at this place.
pub(crate) fn symbols_of(
    alloc: Global,
    ids: &[TypeId],
    unit: u32,
    items: &[Item],
) -> Result<Symbols, AllocError>
    ensures { IfOk result (λ symbols. symbols ≡ with_items ids.now unit [] items.now) }
{
    let mut symbols = Symbols::new(alloc);
    for item in items {
        let entry = entry_of(alloc, ids, unit, item)?;
        let _is_new = symbols.enter(name_of(item), entry)?;
    }
    Ok(symbols)
}

fn is_system(unit: &Name) -> bool
    ensures { result ≡ same_bytes unit.now system }
{
    unit.as_bytes() == b"SYSTEM".as_slice()
}

// Names a unit that declares a type of the scope.
fn add_declaring(scope: &mut Scope, unit: &Name) -> Result<(), AllocError>
    ensures { OnOk result (scope.new ≡ record scope.old { units = with_declaring scope.old.units unit.now }) }
{
    if is_system(unit) {
        return Ok(());
    }
    let _place = scope.unit(unit.copied())?;
    Ok(())
}

// Names the units that declare types of the scope.
fn add_all_declaring(scope: &mut Scope, units: &[Name]) -> Result<(), AllocError>
    ensures { OnOk result (scope.new ≡ record scope.old { units = with_all_declaring scope.old.units units.now }) }
{
    match units {
        [] => Ok(()),
        [unit, rest @ ..] => {
            add_declaring(scope, unit)?;
            add_all_declaring(scope, rest)
        }
    }
}

/// Adds a used unit with the types and names of its interface, and names the units that declare these types.
pub(crate) fn add_interface(
    alloc: Global,
    scope: &mut Scope,
    interface: &Interface,
) -> Result<(), MergeError>
    ensures ok { OnOk result (scope.new ≡ with_interface scope.old interface.now) }
    ensures fits { OnOk result (types_fit scope.old.types interface.now.types ≡ true) }
    ensures cause { IfErr result (IsMergeCause scope.old.types interface.now.types) }
{
    let ids = ids_in(alloc, scope.types(), &interface.types)?;
    let unit = scope.unit(interface.name.copied())?;
    add_all_declaring(scope, interface.types.units())?;
    merge(alloc, scope, &interface.types, ids.as_slice())?;
    let symbols = symbols_of(alloc, ids.as_slice(), unit, interface.items.as_slice())?;
    scope.add_use(symbols)?;
    Ok(())
}
