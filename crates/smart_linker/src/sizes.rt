//! What the parts that are reached take, and where each lies in what holds it.

ghost use Rattle.std.specs.Prelude.{◌≡◌, ◌+◌, IfOk, IfErr};
ghost use Rattle.link_layout.specs.Sums.{total, sums_from};
ghost use Rattle.smart_linker.specs.Measures.{is_marked, size_if, code_sizes, entry_counts, data_sizes, globals_of, vmts_of, unit_sums, unit_end, measured_from, data_end, resident_from, entries_from, words_in, code_words, data_words, unit_words, words_from};
ghost use Rattle.smart_linker.specs.Segments.{segment_word};
ghost use Rattle.smart_linker.specs.Refused.{IsLaterCause};

use crate::error::LinkError;
use crate::parts::Parts;
use crate::reached::UnitMarks;
use crate::unit::{LinkUnit, Setting};
use link_layout::{Numbers, Sizes, Sums, even, prefix_sums};
use object_file::object_unit::{Code8086, Datum, Ref, RefKind};
use std::alloc::{AllocError, Global};
use type_layout::Sequence;

/// The most bytes of a unit's code.
const MOST_CODE: u64 = 65_520;

/// The most entries for which a stub has room.
const MOST_ENTRIES: u64 = 13_100;

/// Where the parts of a unit lie. One that isn't reached takes no room.
#[derive(Drop)]
pub(crate) struct UnitSums {
    /// The offset of each routine in the code of its unit, and the size of that.
    pub(crate) code: Sums,
    /// The number of each routine's entry in the stub of its unit, where it has one, and how many there are.
    pub(crate) entries: Sums,
    /// The offset of each datum in the data segment.
    pub(crate) globals: Numbers,
    /// The offset of each virtual method table in the data segment.
    pub(crate) vmts: Numbers,
}

/// Where the parts of each unit lie, and the size of the data segment.
#[derive(Drop)]
pub(crate) struct Measured {
    pub(crate) units: Sequence<UnitSums>,
    pub(crate) bytes: u64,
}

/// Whether the part of a number is reached.
pub(crate) fn is_marked(marks: &[bool], number: usize) -> bool
    ensures { result ≡ is_marked marks.now number }
{
    match marks.get(number) {
        Some(is_reached) => *is_reached,
        None => false,
    }
}

/// A size, or 0 of what isn't reached.
fn size_if(is_reached: bool, size: u64) -> u64
    ensures { result ≡ size_if is_reached size }
{
    if is_reached { size } else { 0 }
}

fn code_sizes(alloc: Global, codes: &[Code8086], marks: &[bool]) -> Result<Numbers, AllocError>
    ensures { IfOk result (λ sizes. sizes ≡ code_sizes marks.now 0 codes.now) }
{
    let mut sizes = Numbers::new(alloc);
    for (number, code) in codes.iter().enumerate() {
        let size = code.code.len() as u64;
        sizes.push(size_if(is_marked(marks, number), size))?;
    }
    Ok(sizes)
}

fn entry_counts(alloc: Global, codes: &[Code8086], marks: &[bool]) -> Result<Numbers, AllocError>
    ensures { IfOk result (λ counts. counts ≡ entry_counts marks.now 0 codes.now) }
{
    let mut counts = Numbers::new(alloc);
    for (number, code) in codes.iter().enumerate() {
        let has_entry = is_marked(marks, number) && code.far;
        counts.push(size_if(has_entry, 1))?;
    }
    Ok(counts)
}

/// The size of each datum, rounded up to even.
fn data_sizes(alloc: Global, list: &[Datum], marks: &[bool]) -> Result<Numbers, AllocError>
    ensures { IfOk result (λ sizes. sizes ≡ data_sizes marks.now 0 list.now) }
{
    let mut sizes = Numbers::new(alloc);
    for (number, datum) in list.iter().enumerate() {
        let size = even(datum.size);
        sizes.push(size_if(is_marked(marks, number), size))?;
    }
    Ok(sizes)
}

/// Where the data and tables of a unit lie, the first of them at an offset, and the offset behind the last.
fn data_sums(
    alloc: Global,
    unit: &LinkUnit,
    marks: &UnitMarks,
    first: u64,
) -> Result<(Sums, Sums), AllocError>
    ensures globals { IfOk result (λ sums. sums.0.places ≡ sums_from first (globals_of unit.now marks.now)) }
    ensures vmts { IfOk result (λ sums. sums.1.places ≡ sums_from (first + total (globals_of unit.now marks.now)) (vmts_of unit.now marks.now)) }
    ensures end { IfOk result (λ sums. sums.1.end ≡ unit_end unit.now marks.now first) }
{
    let object = &unit.object;
    let globals = data_sizes(alloc, object.globals.as_slice(), marks.globals.as_slice())?;
    let globals = prefix_sums(alloc, first, globals.as_slice())?;
    let vmts = data_sizes(alloc, object.vmts.as_slice(), marks.vmts.as_slice())?;
    let vmts = prefix_sums(alloc, globals.end, vmts.as_slice())?;
    Ok((globals, vmts))
}

/// Refuses code of a unit that has too many bytes, and a stub with too many entries.
fn check_unit(unit: &LinkUnit, code: u64, entries: u64) -> Result<(), LinkError>
    ensures { IfErr result IsLaterCause }
{
    if code > MOST_CODE {
        return Err(LinkError::CodeTooLarge {
            unit: unit.name.copied(),
            bytes: code,
        });
    }
    if unit.overlaid && entries > MOST_ENTRIES {
        return Err(LinkError::TooManyEntries {
            unit: unit.name.copied(),
            count: entries,
        });
    }
    Ok(())
}

/// Where the parts of a unit lie, whose first datum has this offset, and the offset behind its last one.
fn unit_sums(
    alloc: Global,
    unit: &LinkUnit,
    marks: &UnitMarks,
    first: u64,
) -> Result<(UnitSums, u64), LinkError>
    ensures sums { IfOk result (λ given. given.0 ≡ unit_sums unit.now marks.now first) }
    ensures end { IfOk result (λ given. given.1 ≡ unit_end unit.now marks.now first) }
    ensures cause { IfErr result IsLaterCause }
{
    let routines = unit.object.routines.as_slice();
    let code = code_sizes(alloc, routines, marks.routines.as_slice())?;
    let code = prefix_sums(alloc, 0, code.as_slice())?;
    let entries = entry_counts(alloc, routines, marks.routines.as_slice())?;
    let entries = prefix_sums(alloc, 0, entries.as_slice())?;
    check_unit(unit, code.end, entries.end)?;
    let (globals, vmts) = data_sums(alloc, unit, marks, first)?;
    let end = vmts.end;
    let sums = UnitSums {
        code,
        entries,
        globals: globals.places,
        vmts: vmts.places,
    };
    Ok((sums, end))
}

/// Where the parts of each unit lie: data of one unit behind those of the other.
pub(crate) fn measure(
    alloc: Global,
    parts: Parts,
    marks: &[UnitMarks],
) -> Result<Measured, LinkError>
    ensures units { IfOk result (λ measured. measured.units ≡ measured_from parts.entry.units.now parts.entry.kernel.now 0 0 marks.now) }
    ensures bytes { IfOk result (λ measured. measured.bytes ≡ data_end parts.entry.units.now parts.entry.kernel.now 0 0 marks.now) }
    ensures cause { IfErr result IsLaterCause }
{
    let mut units = Sequence::new(alloc);
    let mut bytes = 0;
    for (place, unit) in marks.iter().enumerate() {
        let (sums, end) = unit_sums(alloc, parts.unit(place), unit, bytes)?;
        units.push(sums)?;
        bytes = end;
    }
    Ok(Measured { units, bytes })
}

/// Where in its bytes a reference has the word that is a segment.
pub(crate) fn segment_word(one: &Ref) -> Option<u64>
    ensures { result ≡ segment_word one.now }
{
    match one.kind {
        RefKind::FarRoutine | RefKind::Runtime => Some(u64::from(one.offset) + 2),
        RefKind::DataSegment => Some(u64::from(one.offset)),
        RefKind::NearRoutine | RefKind::DataOffset | RefKind::Vmt => None,
    }
}

/// How many words of references are segments, where 64 bits count them.
fn words_in(refs: &[Ref]) -> Result<u64, AllocError>
    ensures { IfOk result (λ count. count ≡ words_in refs.now) }
{
    let mut count: u64 = 0;
    for one in refs {
        let more = match segment_word(one) {
            Some(_) => 1,
            None => 0,
        };
        count = count.checked_add(more).ok_or(AllocError)?;
    }
    Ok(count)
}

fn code_words(codes: &[Code8086], marks: &[bool]) -> Result<u64, AllocError>
    ensures { IfOk result (λ count. count ≡ code_words marks.now 0 codes.now) }
{
    let mut count: u64 = 0;
    for (number, code) in codes.iter().enumerate() {
        let words = words_in(code.refs.as_slice())?;
        let more = size_if(is_marked(marks, number), words);
        count = count.checked_add(more).ok_or(AllocError)?;
    }
    Ok(count)
}

fn data_words(list: &[Datum], marks: &[bool]) -> Result<u64, AllocError>
    ensures { IfOk result (λ count. count ≡ data_words marks.now 0 list.now) }
{
    let mut count: u64 = 0;
    for (number, datum) in list.iter().enumerate() {
        let words = words_in(datum.refs.as_slice())?;
        let more = size_if(is_marked(marks, number), words);
        count = count.checked_add(more).ok_or(AllocError)?;
    }
    Ok(count)
}

/// How many words of a unit in the image are segments.
fn unit_words(unit: &LinkUnit, marks: &UnitMarks) -> Result<u64, AllocError>
    ensures { IfOk result (λ count. count ≡ unit_words unit.now marks.now) }
{
    let object = &unit.object;
    let code = if unit.overlaid {
        0
    } else {
        code_words(object.routines.as_slice(), marks.routines.as_slice())?
    };
    let globals = data_words(object.globals.as_slice(), marks.globals.as_slice())?;
    let vmts = data_words(object.vmts.as_slice(), marks.vmts.as_slice())?;
    let data_count = globals.checked_add(vmts).ok_or(AllocError)?;
    code.checked_add(data_count).ok_or(AllocError)
}

/// How many words of the image are segments: those of all units, and the heap's.
fn relocations(parts: Parts, marks: &[UnitMarks]) -> Result<u64, AllocError>
    ensures { IfOk result (λ count. count ≡ 1 + words_from parts.entry.units.now parts.entry.kernel.now 0 marks.now) }
{
    let mut count: u64 = 1;
    for (place, unit) in marks.iter().enumerate() {
        let more = unit_words(parts.unit(place), unit)?;
        count = count.checked_add(more).ok_or(AllocError)?;
    }
    Ok(count)
}

/// What the parts of a program take.
pub(crate) fn sizes(
    alloc: Global,
    parts: Parts,
    marks: &[UnitMarks],
    measured: &Measured,
    setting: &Setting,
) -> Result<Sizes, AllocError>
    ensures resident { IfOk result (λ sizes. sizes.resident ≡ resident_from parts.entry.units.now parts.entry.kernel.now 0 measured.now.units) }
    ensures entries { IfOk result (λ sizes. sizes.entries ≡ entries_from parts.entry.units.now parts.entry.kernel.now 0 measured.now.units) }
    ensures bytes { IfOk result (λ sizes. sizes.bytes ≡ measured.now.bytes) }
    ensures stack { IfOk result (λ sizes. sizes.stack ≡ setting.now.stack) }
    ensures heap { IfOk result (λ sizes. sizes.heap ≡ setting.now.heap) }
    ensures relocations { IfOk result (λ sizes. sizes.relocations ≡ 1 + words_from parts.entry.units.now parts.entry.kernel.now 0 marks.now) }
{
    let mut resident = Numbers::new(alloc);
    let mut entries = Numbers::new(alloc);
    for (place, unit) in measured.units.as_slice().iter().enumerate() {
        if parts.unit(place).overlaid {
            entries.push(unit.entries.end)?;
        } else {
            resident.push(unit.code.end)?;
        }
    }
    Ok(Sizes {
        resident,
        entries,
        bytes: measured.bytes,
        stack: setting.stack,
        heap: setting.heap,
        relocations: relocations(parts, marks)?,
    })
}
