//! Sizes and offsets that were worked out by hand.

use self::Answer::{Bytes, Refused, TooLarge};
use crate::rows::{expect, expect_true};
use std::alloc::{AllocError, Global};
use tree_samples::TypeSample::{
    ArrayOf, ObjectOf, Ordinal, PointerTo, Procedural, RecordOf, SetOf, Str,
};
use tree_samples::{TypeSample, definition, named};
use type_layout::{
    Host, Kind, Name, TypeDef, TypeError, TypeId, Types, class_field_of, has_field, offset_of,
    size_of,
};

/// What a table tells of a type.
#[derive(Clone, Copy, PartialEq, Eq)]
enum Answer {
    Bytes(u32),
    TooLarge(u64),
    /// The table does not take it.
    Refused,
}

fn size(types: &Types, id: TypeId) -> Answer {
    if id.0 < types.count() {
        Answer::Bytes(size_of(types, id))
    } else {
        Answer::Refused
    }
}

fn added(types: &mut Types, one: TypeDef) -> Result<TypeId, TypeError> {
    let Ok(origin) = named("SAMPLE") else {
        return Err(TypeError::NoMemory);
    };
    if types.takes(&origin, &one) {
        types.add(origin, 0, one)
    } else {
        Ok(TypeId(u32::MAX))
    }
}

fn told(alloc: Global, types: &mut Types, sample: &TypeSample) -> Result<Answer, AllocError> {
    match added(types, definition(alloc, sample)?) {
        Ok(id) => Ok(size(types, id)),
        Err(TypeError::TooLarge { bytes }) => Ok(Answer::TooLarge(bytes)),
        Err(TypeError::NoMemory) => Err(AllocError),
    }
}

/// A type, which those before it may stand in, and what is told of it.
type Row = (TypeSample, Answer);

// The number of the first row of which something else is told. The types are added to the table.
fn first_wrong_over(
    alloc: Global,
    types: &mut Types,
    rows: &[Row],
) -> Result<Option<usize>, AllocError> {
    for number in 0..rows.len() {
        let (sample, wanted) = &rows[number];
        if told(alloc, types, sample)? != *wanted {
            return Ok(Some(number));
        }
    }
    Ok(None)
}

fn first_wrong(alloc: Global, rows: &[Row]) -> Result<Option<usize>, AllocError> {
    let mut types = Types::new(alloc);
    first_wrong_over(alloc, &mut types, rows)
}

const ORDINALS: &[Row] = &[
    (Ordinal(Host::ShortInt, -128, 127), Bytes(1)),
    (Ordinal(Host::Byte, 0, 255), Bytes(1)),
    (Ordinal(Host::Integer, -32_768, 32_767), Bytes(2)),
    (Ordinal(Host::Word, 0, 65_535), Bytes(2)),
    (Ordinal(Host::LongInt, i32::MIN, i32::MAX), Bytes(4)),
    (Ordinal(Host::Char, 0, 255), Bytes(1)),
    (Ordinal(Host::Boolean, 0, 1), Bytes(1)),
    (Ordinal(Host::Enumeration, 0, 6), Bytes(1)),
    (Ordinal(Host::Integer, 0, 200), Bytes(1)),
    (Ordinal(Host::Integer, -1, 200), Bytes(2)),
    (Ordinal(Host::Integer, -100, 100), Bytes(1)),
    (Ordinal(Host::Integer, 0, 256), Bytes(2)),
    (Ordinal(Host::Integer, -128, 128), Bytes(2)),
    (Ordinal(Host::Word, 0, 40_000), Bytes(2)),
    (Ordinal(Host::LongInt, 0, 65_535), Bytes(2)),
    (Ordinal(Host::LongInt, -1, 40_000), Bytes(4)),
    (Ordinal(Host::LongInt, 0, 65_536), Bytes(4)),
    (Ordinal(Host::LongInt, -32_769, 0), Bytes(4)),
    (Ordinal(Host::Char, 65, 90), Bytes(1)),
    (Ordinal(Host::Enumeration, 2, 3), Bytes(1)),
];

#[test]
fn ordinals_take_the_first_type_that_holds_them(rt: HostRuntime) {
    expect(&rt, first_wrong(rt.alloc(), ORDINALS));
}

const SETS: &[Row] = &[
    (Ordinal(Host::Byte, 0, 255), Bytes(1)),
    (SetOf(0), Bytes(32)),
    (Ordinal(Host::Byte, 7, 8), Bytes(1)),
    (SetOf(2), Bytes(2)),
    (Ordinal(Host::Byte, 0, 7), Bytes(1)),
    (SetOf(4), Bytes(1)),
    (Ordinal(Host::Byte, 8, 15), Bytes(1)),
    (SetOf(6), Bytes(1)),
    (Ordinal(Host::Byte, 0, 8), Bytes(1)),
    (SetOf(8), Bytes(2)),
    (Ordinal(Host::Byte, 250, 255), Bytes(1)),
    (SetOf(10), Bytes(1)),
    (Ordinal(Host::Integer, 100, 200), Bytes(1)),
    (SetOf(12), Bytes(14)),
    (Ordinal(Host::Char, 65, 90), Bytes(1)),
    (SetOf(14), Bytes(4)),
    (Ordinal(Host::Boolean, 0, 1), Bytes(1)),
    (SetOf(16), Bytes(1)),
    (Ordinal(Host::Integer, 0, 256), Bytes(2)),
    (SetOf(18), Refused),
];

#[test]
fn sets_take_the_bytes_from_the_least_to_the_greatest(rt: HostRuntime) {
    expect(&rt, first_wrong(rt.alloc(), SETS));
}

// A unit's place, where it is one of the units of the origins.
fn unit_place(types: &Types, unit: &[u8]) -> Option<usize> {
    types.unit_place(&Name::new(unit)?)
}

// A unit has a place as soon as a type of it is there.
fn are_placed(alloc: Global) -> Result<bool, AllocError> {
    let mut types = Types::new(alloc);
    let before = unit_place(&types, b"SAMPLE");
    let told = told(alloc, &mut types, &Str(8))?;
    let after = unit_place(&types, b"SAMPLE");
    let other = unit_place(&types, b"OTHER");
    Ok(before.is_none() && told == Bytes(9) && after == Some(0) && other.is_none())
}

#[test]
fn a_unit_of_an_origin_has_a_place(rt: HostRuntime) {
    expect_true(&rt, are_placed(rt.alloc()));
}

const STRINGS: &[Row] = &[
    (Str(1), Bytes(2)),
    (Str(8), Bytes(9)),
    (Str(80), Bytes(81)),
    (Str(255), Bytes(256)),
    (Str(0), Refused),
];

#[test]
fn strings_have_a_length_byte(rt: HostRuntime) {
    expect(&rt, first_wrong(rt.alloc(), STRINGS));
}

const ARRAYS: &[Row] = &[
    (Str(8), Bytes(9)),
    (Ordinal(Host::LongInt, 0, 0), Bytes(1)),
    (ArrayOf(1, 0), Bytes(9)),
    (Str(1), Bytes(2)),
    (Ordinal(Host::LongInt, 1, 8), Bytes(1)),
    (ArrayOf(4, 3), Bytes(16)),
    (Str(255), Bytes(256)),
    (Ordinal(Host::LongInt, -5, 5), Bytes(1)),
    (ArrayOf(7, 6), Bytes(2816)),
    (PointerTo(9), Bytes(4)),
    (Ordinal(Host::LongInt, 1, 9), Bytes(1)),
    (ArrayOf(10, 9), Bytes(36)),
    (PointerTo(9), Bytes(4)),
    (Ordinal(Host::LongInt, 0, 16_379), Bytes(2)),
    (ArrayOf(13, 12), Bytes(65_520)),
];

#[test]
fn arrays_take_an_element_for_each_index(rt: HostRuntime) {
    expect(&rt, first_wrong(rt.alloc(), ARRAYS));
}

// A type that is refused has no number.
const LARGE: &[Row] = &[
    (Ordinal(Host::Byte, 0, 255), Bytes(1)),
    (Ordinal(Host::LongInt, 1, 65_520), Bytes(2)),
    (ArrayOf(1, 0), Bytes(65_520)),
    (Ordinal(Host::LongInt, 0, 65_520), Bytes(2)),
    (ArrayOf(3, 0), TooLarge(65_521)),
    (Ordinal(Host::LongInt, i32::MIN, i32::MAX), Bytes(4)),
    (ArrayOf(4, 2), TooLarge(281_406_257_233_920)),
];

#[test]
fn a_size_above_the_limit_is_told(rt: HostRuntime) {
    expect(&rt, first_wrong(rt.alloc(), LARGE));
}

const RECORDS: &[Row] = &[
    (Ordinal(Host::Byte, 0, 255), Bytes(1)),
    (Ordinal(Host::LongInt, i32::MIN, i32::MAX), Bytes(4)),
    (RecordOf(&[]), Bytes(0)),
    (RecordOf(&[("F", 0), ("F", 1), ("F", 0)]), Bytes(6)),
    (RecordOf(&[("F", 3), ("F", 3)]), Bytes(12)),
    (Procedural((Kind::Procedure, &[], None)), Bytes(4)),
];

#[test]
fn fields_follow_one_another(rt: HostRuntime) {
    expect(&rt, first_wrong(rt.alloc(), RECORDS));
}

// A plain object, one that is the first to say its class, a descendant of this, and one with nothing else.
const OBJECTS: &[Row] = &[
    (Ordinal(Host::Byte, 0, 255), Bytes(1)),
    (Ordinal(Host::Word, 0, 65_535), Bytes(2)),
    (ObjectOf(None, false, &[("F", 1)], &[]), Bytes(2)),
    (ObjectOf(Some(2), true, &[("F", 0)], &[]), Bytes(5)),
    (
        ObjectOf(Some(3), true, &[("F", 1), ("F", 0)], &[]),
        Bytes(8),
    ),
    (ObjectOf(None, true, &[], &[]), Bytes(2)),
];

/// A type, and the offset of its class field.
const CLASS_FIELDS: &[(u32, Option<u32>)] = &[(2, None), (3, Some(3)), (4, Some(3)), (5, Some(0))];

/// A field of the descendant, and its offset, if the type has it.
const OFFSETS: &[(u32, Option<u32>)] = &[
    (0, Some(0)),
    (1, Some(2)),
    (2, Some(5)),
    (3, Some(7)),
    (4, None),
];

fn class_field(types: &Types, id: TypeId) -> Option<u32> {
    if id.0 < types.count() {
        class_field_of(types, id)
    } else {
        None
    }
}

// The offset of a field, where the type has it.
fn offset(types: &Types, id: TypeId, field: u32) -> Option<u32> {
    if id.0 < types.count() && has_field(types, id, field) {
        Some(offset_of(types, id, field))
    } else {
        None
    }
}

fn have_class_fields(types: &Types) -> bool {
    for (id, at) in CLASS_FIELDS {
        if class_field(types, TypeId(*id)) != *at {
            return false;
        }
    }
    true
}

fn have_offsets(types: &Types) -> bool {
    for (field, at) in OFFSETS {
        if offset(types, TypeId(4), *field) != *at {
            return false;
        }
    }
    true
}

fn are_laid_out(alloc: Global) -> Result<bool, AllocError> {
    let mut types = Types::new(alloc);
    let wrong = first_wrong_over(alloc, &mut types, OBJECTS)?;
    Ok(wrong.is_none() && have_class_fields(&types) && have_offsets(&types))
}

#[test]
fn a_class_field_follows_the_first_dynamic_type(rt: HostRuntime) {
    expect_true(&rt, are_laid_out(rt.alloc()));
}
