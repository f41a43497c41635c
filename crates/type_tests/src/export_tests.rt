//! Interfaces of units.

use crate::interface_samples::{Declared, ItemSample, first, items};
use crate::rows::expect;
use std::alloc::{AllocError, Global};
use tree_samples::TypeSample::{Ordinal, PointerTo, Procedural, RecordOf, Str};
use tree_samples::{HeaderSample, UnitSample, unit};
use type_layout::{Header, Host, Kind, TypeDef, TypeId, Types};
use typed_tree::{Item, Unit};
use unit_interface::{Interface, interface_of};

// Integer, a text, two records of which the second has a field of the first, a pointer to the second that the unit T
// declares, another text, and the type of procedures with the last text.
const TYPES: &[Declared] = &[
    ("SYSTEM", 2, Ordinal(Host::Integer, -32_768, 32_767)),
    ("U", 0, Str(9)),
    ("U", 1, RecordOf(&[("CENTS", 0)])),
    ("U", 2, RecordOf(&[("PRICE", 2)])),
    ("T", 5, PointerTo(3)),
    ("U", 3, Str(20)),
    ("U", 4, Procedural((Kind::Procedure, &[(true, 5)], None))),
];

// A text, a pointer to itself, and a pointer to a type that isn't there.
const ROUND: &[Declared] = &[
    ("U", 0, Str(9)),
    ("U", 1, PointerTo(1)),
    ("U", 2, PointerTo(7)),
];

// Texts, and an enumeration with a pointer behind it.
const PAIRED: &[Declared] = &[
    ("U", 0, Str(9)),
    ("U", 1, Ordinal(Host::Enumeration, 0, 2)),
    ("U", 2, PointerTo(0)),
    ("U", 3, Str(20)),
];

// A procedure with the type of procedures.
const TAKING: HeaderSample = (Kind::Procedure, &[(true, 6)], None);

const UNIT: UnitSample = UnitSample {
    names: &["U", "T"],
    types: TYPES,
    globals: &[],
    initial: None,
    overlayable: false,
    overlaid: &[],
    stack: 16_384,
    heap: 0,
};

const CIRCULAR: UnitSample = UnitSample {
    types: ROUND,
    ..UNIT
};

const ENUMERATED: UnitSample = UnitSample {
    types: PAIRED,
    ..UNIT
};

fn shown(alloc: Global, unit: &Unit) -> Result<Interface, AllocError> {
    interface_of(alloc, unit)
}

fn shown_of(
    alloc: Global,
    sample: &UnitSample,
    list: &[ItemSample],
) -> Result<Interface, AllocError> {
    let items = items(alloc, list)?;
    let mut unit = unit(alloc, sample, &[])?;
    unit.items = items;
    shown(alloc, &unit)
}

// The first letter of the unit that declares a type, and the type's number there.
fn origin(types: &Types, id: u32) -> (u8, u32) {
    if id >= types.count() {
        return (b'?', 99);
    }
    let (unit, number) = types.origin(TypeId(id));
    match types.units().get(unit as usize) {
        Some(name) => (first(name), number),
        None => (b'?', number),
    }
}

// The type of a header's first parameter.
fn parameter(header: &Header) -> u32 {
    match header.params.as_slice().first() {
        Some(param) => param.ty.0,
        None => 99,
    }
}

// The type that a type names first.
fn part_of(one: &TypeDef) -> u32 {
    match one {
        TypeDef::RecordOf { fields } => match fields.as_slice().first() {
            Some(field) => field.ty.0,
            None => 99,
        },
        TypeDef::PointerTo { target } => target.0,
        TypeDef::Procedural { header } => parameter(header),
        _ => 99,
    }
}

fn part(types: &Types, id: u32) -> u32 {
    if id < types.count() {
        part_of(types.get(TypeId(id)))
    } else {
        99
    }
}

/// A type by the first letter of the unit that declares it, its number there, and the type that it names first or 99.
type Known = ((u8, u32), u32);

fn are_types(types: &Types, wanted: &[Known]) -> bool {
    if types.count() as usize != wanted.len() {
        return false;
    }
    let mut id = 0u32;
    for (from, names) in wanted {
        if origin(types, id) != *from || part(types, id) != *names {
            return false;
        }
        id = id.saturating_add(1);
    }
    true
}

// The type that an item names first, and the number of the variable or routine.
fn told(item: &Item) -> (u32, u32) {
    match item {
        Item::Var { ty, number, .. } => (ty.0, *number),
        Item::Code { header, number, .. } => (parameter(header), *number),
        _ => (99, 99),
    }
}

fn are_items(items: &[Item], wanted: &[(u32, u32)]) -> bool {
    if items.len() != wanted.len() {
        return false;
    }
    for place in 0..items.len() {
        if told(&items[place]) != wanted[place] {
            return false;
        }
    }
    true
}

/// A unit, its items, the types that these reach, and the items' types and numbers in the interface.
type Row = (
    &'static UnitSample,
    &'static [ItemSample],
    &'static [Known],
    &'static [(u32, u32)],
);

fn holds(alloc: Global, row: &Row) -> Result<bool, AllocError> {
    let (unit, list, types, items) = row;
    let interface = shown_of(alloc, unit, list)?;
    Ok(
        first(&interface.name) == b'U'
            && are_types(&interface.types, types)
            && are_items(interface.items.as_slice(), items),
    )
}

// A type is reached through a field; one of another unit keeps its origin; one is reached through a header; an empty
// interface reaches none; types may go round; an enumeration and what stands behind it go together.
const ROWS: &[Row] = &[
    (
        &UNIT,
        &[ItemSample::Var("V", 3)],
        &[((b'S', 2), 99), ((b'U', 1), 0), ((b'U', 2), 1)],
        &[(2, 3)],
    ),
    (
        &UNIT,
        &[ItemSample::Var("V", 4)],
        &[
            ((b'S', 2), 99),
            ((b'U', 1), 0),
            ((b'U', 2), 1),
            ((b'T', 5), 2),
        ],
        &[(3, 3)],
    ),
    (
        &UNIT,
        &[ItemSample::Code("P", TAKING)],
        &[((b'U', 3), 99), ((b'U', 4), 0)],
        &[(1, 8)],
    ),
    (&UNIT, &[], &[], &[]),
    (
        &CIRCULAR,
        &[ItemSample::Var("V", 1), ItemSample::Var("V", 2)],
        &[((b'U', 1), 0), ((b'U', 2), 7)],
        &[(0, 3), (1, 3)],
    ),
    (
        &ENUMERATED,
        &[ItemSample::Var("V", 1)],
        &[((b'U', 0), 99), ((b'U', 1), 99), ((b'U', 2), 0)],
        &[(1, 3)],
    ),
    (
        &ENUMERATED,
        &[ItemSample::Var("V", 2)],
        &[((b'U', 0), 99), ((b'U', 1), 99), ((b'U', 2), 0)],
        &[(2, 3)],
    ),
];

// The number of the first row that does not hold.
fn first_wrong(alloc: Global) -> Result<Option<usize>, AllocError> {
    for number in 0..ROWS.len() {
        if !holds(alloc, &ROWS[number])? {
            return Ok(Some(number));
        }
    }
    Ok(None)
}

#[test]
fn an_interface_has_the_types_that_its_items_reach(rt: HostRuntime) {
    expect(&rt, first_wrong(rt.alloc()));
}
