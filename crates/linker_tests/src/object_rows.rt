//! Object units by hand, of sizes at the limits, and references that don't fit.

use crate::running::{linked, push_runtime};
use object_file::object_unit::{
    Code8086, Codes, Datum, ObjectData, ObjectUnit, Ref, RefKind, Refs,
};
use smart_linker::{LinkError, LinkUnit, Linked};
use std::alloc::{AllocError, Global};
use type_layout::{Bytes, Name};

/// Units of one routine each, which starts. Its code has so many bytes, a reference to a datum of the unit, and so many
/// far pointers to itself.
#[derive(Clone, Copy)]
pub struct SizesRow {
    /// How many units have a routine of so many bytes with so many pointers.
    pub units: u8,
    pub code: u32,
    pub pointers: u32,
    /// The same of one more unit.
    pub last_code: u32,
    pub last_pointers: u32,
    /// The size of that unit's datum.
    pub data: u32,
}

/// How a link ends: with this, by the number that it tells.
#[derive(Clone, Copy, PartialEq, Eq, Debug)]
pub enum Verdict {
    Linked,
    NotOverlayable,
    OldFrames,
    Misfit,
    CodeTooLarge(u64),
    TooManyEntries(u64),
    DataTooLarge(u64),
    ImageTooLarge(u64),
    TooManyRelocations(u64),
    NoMemory,
}

/// Far pointers are relocated and counted: the start's to each unit, its word of the data segment, and the heap's segment
/// are further ones. The kernel takes 24 bytes of data, and the runtime 616.
pub const SIZES: [(&str, SizesRow, Verdict); 7] = [
    (
        "data fit",
        SizesRow {
            units: 0,
            code: 0,
            pointers: 0,
            last_code: 8,
            last_pointers: 0,
            data: 64_880,
        },
        Verdict::Linked,
    ),
    (
        "one byte of data more",
        SizesRow {
            units: 0,
            code: 0,
            pointers: 0,
            last_code: 8,
            last_pointers: 0,
            data: 64_881,
        },
        Verdict::DataTooLarge(65_522),
    ),
    (
        "the image fits",
        SizesRow {
            units: 9,
            code: 65_520,
            pointers: 0,
            last_code: 63_088,
            last_pointers: 0,
            data: 2,
        },
        Verdict::Linked,
    ),
    (
        "one byte of code more",
        SizesRow {
            units: 9,
            code: 65_520,
            pointers: 0,
            last_code: 63_089,
            last_pointers: 0,
            data: 2,
        },
        Verdict::ImageTooLarge(40_849),
    ),
    (
        "relocations fit",
        SizesRow {
            units: 4,
            code: 65_520,
            pointers: 16_379,
            last_code: 65_520,
            last_pointers: 12,
            data: 2,
        },
        Verdict::Linked,
    ),
    (
        "one relocation more",
        SizesRow {
            units: 4,
            code: 65_520,
            pointers: 16_379,
            last_code: 65_520,
            last_pointers: 13,
            data: 2,
        },
        Verdict::TooManyRelocations(65_536),
    ),
    (
        "code of a unit",
        SizesRow {
            units: 0,
            code: 0,
            pointers: 0,
            last_code: 65_521,
            last_pointers: 0,
            data: 2,
        },
        Verdict::CodeTooLarge(65_521),
    ),
];

/// A reference of unit A behind the one to its datum.
#[derive(Clone, Copy)]
pub struct RefRow {
    pub kind: RefKind,
    pub offset: u32,
    pub unit: &'static [u8],
    pub number: u32,
}

/// References of unit A, whose routine of 16 bytes is far and refers to its datum in the first two, in a program that has
/// a unit B with a far routine too.
pub const REFERENCES: [(RefRow, Verdict); 13] = [
    (
        RefRow {
            kind: RefKind::FarRoutine,
            offset: 8,
            unit: b"A",
            number: 0,
        },
        Verdict::Linked,
    ),
    (
        RefRow {
            kind: RefKind::FarRoutine,
            offset: 8,
            unit: b"B",
            number: 0,
        },
        Verdict::Linked,
    ),
    (
        RefRow {
            kind: RefKind::FarRoutine,
            offset: 8,
            unit: b"C",
            number: 0,
        },
        Verdict::Misfit,
    ),
    (
        RefRow {
            kind: RefKind::FarRoutine,
            offset: 8,
            unit: b"B",
            number: 1,
        },
        Verdict::Misfit,
    ),
    (
        RefRow {
            kind: RefKind::FarRoutine,
            offset: 8,
            unit: b"OVERLAY",
            number: 0,
        },
        Verdict::Linked,
    ),
    (
        RefRow {
            kind: RefKind::FarRoutine,
            offset: 8,
            unit: b"TEXT",
            number: 0,
        },
        Verdict::Misfit,
    ),
    (
        RefRow {
            kind: RefKind::NearRoutine,
            offset: 8,
            unit: b"A",
            number: 0,
        },
        Verdict::Linked,
    ),
    (
        RefRow {
            kind: RefKind::NearRoutine,
            offset: 8,
            unit: b"B",
            number: 0,
        },
        Verdict::Misfit,
    ),
    (
        RefRow {
            kind: RefKind::DataOffset,
            offset: 14,
            unit: b"A",
            number: 0,
        },
        Verdict::Linked,
    ),
    (
        RefRow {
            kind: RefKind::DataOffset,
            offset: 8,
            unit: b"A",
            number: 1,
        },
        Verdict::Misfit,
    ),
    (
        RefRow {
            kind: RefKind::Vmt,
            offset: 8,
            unit: b"A",
            number: 0,
        },
        Verdict::Misfit,
    ),
    (
        RefRow {
            kind: RefKind::DataOffset,
            offset: 15,
            unit: b"A",
            number: 0,
        },
        Verdict::Misfit,
    ),
    (
        RefRow {
            kind: RefKind::DataOffset,
            offset: 1,
            unit: b"A",
            number: 0,
        },
        Verdict::Misfit,
    ),
];

fn reference(offset: u32, kind: RefKind, unit: &Name, number: u32) -> Ref {
    Ref {
        offset,
        kind,
        unit: unit.copied(),
        number,
    }
}

fn zeros(alloc: Global, count: u32) -> Result<Bytes, AllocError> {
    let mut bytes = Vec::new(alloc);
    bytes.resize(count as usize, 0)?;
    Ok(Bytes::from_vec(bytes))
}

fn only_routine(name: Name, code: Bytes, refs: Refs) -> Code8086 {
    Code8086 {
        name,
        far: true,
        frame: 0,
        code,
        refs,
    }
}

/// A unit of one routine, which starts, and one datum.
fn unit_of(
    alloc: Global,
    name: &Name,
    code: u32,
    refs: Refs,
    data: u32,
) -> Result<LinkUnit, AllocError> {
    let mut routines = Codes::new(alloc);
    routines.push(only_routine(name.copied(), zeros(alloc, code)?, refs))?;
    let mut globals = ObjectData::new(alloc);
    globals.push(Datum {
        size: data,
        first: Bytes::new(alloc),
        refs: Refs::new(alloc),
    })?;
    Ok(LinkUnit {
        name: name.copied(),
        object: ObjectUnit {
            globals,
            vmts: ObjectData::new(alloc),
            routines,
        },
        initial: Some(0),
        overlayable: true,
        overlaid: false,
        marked: true,
    })
}

/// References to the datum and so many to the routine.
fn many_refs(alloc: Global, name: &Name, pointers: u32) -> Result<Refs, AllocError> {
    let mut refs = Refs::new(alloc);
    refs.push(reference(0, RefKind::DataOffset, name, 0))?;
    for number in 0..pointers.min(0xFFFF) {
        refs.push(reference(4 + 4 * number, RefKind::FarRoutine, name, 0))?;
    }
    Ok(refs)
}

fn sized_unit(
    alloc: Global,
    letter: u8,
    code: u32,
    pointers: u32,
    data: u32,
) -> Result<LinkUnit, AllocError> {
    let name = Name::new(&[letter]).ok_or(AllocError)?;
    let refs = many_refs(alloc, &name, pointers)?;
    unit_of(alloc, &name, code, refs, data)
}

/// The units of a row, and the runtime's.
fn sized_units(alloc: Global, row: &SizesRow) -> Result<Vec<LinkUnit>, AllocError> {
    let mut units = Vec::new(alloc);
    for number in 0..row.units.min(20) {
        units.push(sized_unit(alloc, b'A' + number, row.code, row.pointers, 2)?)?;
    }
    units.push(sized_unit(alloc, b'Z', row.last_code, row.last_pointers, row.data)?)?;
    push_runtime(alloc, &mut units)?;
    Ok(units)
}

/// How a link ended.
fn verdict_on(given: &Result<Linked, LinkError>) -> Verdict {
    match given {
        Ok(_) => Verdict::Linked,
        Err(LinkError::NotOverlayable { .. }) => Verdict::NotOverlayable,
        Err(LinkError::OldFrames { .. }) => Verdict::OldFrames,
        Err(LinkError::Misfit { .. }) => Verdict::Misfit,
        Err(LinkError::CodeTooLarge { bytes, .. }) => Verdict::CodeTooLarge(*bytes),
        Err(LinkError::TooManyEntries { count, .. }) => Verdict::TooManyEntries(*count),
        Err(LinkError::DataTooLarge { bytes }) => Verdict::DataTooLarge(*bytes),
        Err(LinkError::ImageTooLarge { paragraphs }) => Verdict::ImageTooLarge(*paragraphs),
        Err(LinkError::TooManyRelocations { count }) => Verdict::TooManyRelocations(*count),
        Err(LinkError::NoMemory) => Verdict::NoMemory,
    }
}

/// How the link of these units ends.
pub fn link_verdict(alloc: Global, units: &[LinkUnit]) -> Verdict {
    verdict_on(&linked(alloc, units, 1024, 0))
}

/// How the link of a row ends.
pub fn sizes_verdict(alloc: Global, row: &SizesRow) -> Result<Verdict, AllocError> {
    let units = sized_units(alloc, row)?;
    Ok(link_verdict(alloc, units.as_slice()))
}

/// How the link ends where unit A has this reference too.
pub fn reference_verdict(alloc: Global, row: &RefRow) -> Result<Verdict, AllocError> {
    let name = Name::new(b"A").ok_or(AllocError)?;
    let named = Name::new(row.unit).ok_or(AllocError)?;
    let mut refs = Refs::new(alloc);
    refs.push(reference(0, RefKind::DataOffset, &name, 0))?;
    refs.push(reference(row.offset, row.kind, &named, row.number))?;
    let mut units = Vec::new(alloc);
    units.push(unit_of(alloc, &name, 16, refs, 2)?)?;
    units.push(sized_unit(alloc, b'B', 8, 0, 2)?)?;
    push_runtime(alloc, &mut units)?;
    Ok(link_verdict(alloc, units.as_slice()))
}
