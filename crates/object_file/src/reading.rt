//! Reading an object unit.

ghost use Rattle.std.specs.Prelude.{◌≡◌, ◌+◌, ◌<◌, ◌++◌, nat_lt, nat_le, ℕ, List, Ok, IfOk};
ghost use Rattle.object_file.specs.object_unit.Widths.{width_of};
ghost use Rattle.object_file.specs.declared.object_unit.object.ObjectUnit.{ObjectUnit};
ghost use Rattle.object_file.specs.file_parts.Parts.{Gives, any, ruled, in_turn, each, byte_at, long_at, bytes_where};
ghost use Rattle.object_file.specs.Text.{ref_end, room_behind, object_text, IsObjectFor};
ghost use Rattle.object_file.specs.Reading.{kind_of, kind_at, ref_at, refs_at, is_first_count, datum_at, is_code_count, code_at, data_at, codes_at, object_at};

use crate::file_parts::{PartError, byte_of, damaged, long_of, name_of, some_bytes, truth_of};
use crate::object_unit::{Code8086, Codes, Datum, ObjectData, ObjectUnit, Ref, RefKind, Refs};
use std::alloc::Global;
use type_layout::Bytes;

/// The bytes of a unit's code.
const CODE_LIMIT: usize = 65520;

fn kind_number(bytes: &[u8]) -> Result<(u8, &[u8]), PartError>
    ensures few { IfOk result (λ x. x.0 < 6) }
    ensures read { Gives (λ x. (x.0, x.1.now)) result (ruled (λ number. nat_lt number 6) byte_at bytes.now) }
{
    let (number, rest) = byte_of(bytes)?;
    if number >= 6 {
        return damaged(bytes.len());
    }
    Ok((number, rest))
}

fn kind_with(number: u8) -> RefKind
    requires { number < 6 }
    ensures { result ≡ kind_of number }
{
    match number {
        0 => RefKind::FarRoutine,
        1 => RefKind::NearRoutine,
        2 => RefKind::DataOffset,
        3 => RefKind::DataSegment,
        4 => RefKind::Vmt,
        _ => RefKind::Runtime,
    }
}

#[tactic(auto, unfolding(crate::specs::Reading::kind_at))]
fn kind_of(bytes: &[u8]) -> Result<(RefKind, &[u8]), PartError>
    ensures { Gives (λ x. (x.0, x.1.now)) result (kind_at bytes.now) }
{
    let (number, rest) = kind_number(bytes)?;
    Ok((kind_with(number), rest))
}

/// The offset of a reference, which begins no earlier than the one before it ends.
fn ref_offset(least: usize, bytes: &[u8]) -> Result<(u32, &[u8]), PartError>
    ensures { Gives (λ x. (x.0, x.1.now)) result (ruled (λ offset. nat_le least offset) long_at bytes.now) }
{
    let (offset, rest) = long_of(bytes)?;
    if (offset as usize) < least {
        return damaged(bytes.len());
    }
    Ok((offset, rest))
}

/// The kind of a reference, which ends inside the bytes.
fn ref_kind(size: usize, offset: u32, bytes: &[u8]) -> Result<(RefKind, &[u8]), PartError>
    ensures { Gives (λ x. (x.0, x.1.now)) result (ruled (λ kind. nat_le (offset + width_of kind) size) kind_at bytes.now) }
{
    let (kind, rest) = kind_of(bytes)?;
    if offset as usize + kind.width() as usize > size {
        return damaged(bytes.len());
    }
    Ok((kind, rest))
}

#[tactic(auto, unfolding(crate::specs::Reading::ref_at))]
fn ref_of(size: usize, least: usize, bytes: &[u8]) -> Result<(Ref, &[u8]), PartError>
    ensures { Gives (λ x. (x.0, x.1.now)) result (ref_at size least bytes.now) }
{
    let (offset, rest) = ref_offset(least, bytes)?;
    let (kind, rest) = ref_kind(size, offset, rest)?;
    let (unit, rest) = name_of(rest)?;
    let (number, rest) = long_of(rest)?;
    let one = Ref {
        offset,
        kind,
        unit,
        number,
    };
    Ok((one, rest))
}

/// Where a reference ends.
fn ref_end(one: &Ref) -> usize
    ensures { result ≡ ref_end one.now }
{
    one.offset as usize + one.kind.width() as usize
}

fn refs_in_turn(
    alloc: Global,
    count: u32,
    size: usize,
    bytes: &[u8],
) -> Result<(Refs, &[u8]), PartError>
    ensures { Gives (λ x. (x.0, x.1.now)) result (in_turn (ref_at size) (λ _ one. ref_end one) count 0 bytes.now) }
{
    let mut refs = Refs::new(alloc);
    let mut least = 0;
    let mut rest = bytes;
    for _ in 0..count {
        let (one, after) = ref_of(size, least, rest)?;
        least = ref_end(&one);
        refs.push(one)?;
        rest = after;
    }
    Ok((refs, rest))
}

#[tactic(auto, unfolding(crate::specs::Reading::refs_at))]
fn refs_of(alloc: Global, size: usize, bytes: &[u8]) -> Result<(Refs, &[u8]), PartError>
    ensures { Gives (λ x. (x.0, x.1.now)) result (refs_at size bytes.now) }
{
    let (count, rest) = long_of(bytes)?;
    refs_in_turn(alloc, count, size, rest)
}

/// How many bytes a datum of this size begins with.
fn first_count(size: u32, bytes: &[u8]) -> Result<(u32, &[u8]), PartError>
    ensures { Gives (λ x. (x.0, x.1.now)) result (ruled (is_first_count size) long_at bytes.now) }
{
    let (count, rest) = long_of(bytes)?;
    if count != 0 && count != size {
        return damaged(bytes.len());
    }
    Ok((count, rest))
}

#[tactic(auto, unfolding(crate::specs::file_parts::Parts::bytes_where))]
fn first_of(alloc: Global, size: u32, bytes: &[u8]) -> Result<(Bytes, &[u8]), PartError>
    ensures { Gives (λ x. (x.0, x.1.now)) result (bytes_where (is_first_count size) bytes.now) }
{
    let (count, rest) = first_count(size, bytes)?;
    some_bytes(alloc, count, rest)
}

#[tactic(auto, unfolding(crate::specs::Reading::datum_at))]
fn datum_of(alloc: Global, bytes: &[u8]) -> Result<(Datum, &[u8]), PartError>
    ensures { Gives (λ x. (x.0, x.1.now)) result (datum_at bytes.now) }
{
    let (size, rest) = long_of(bytes)?;
    let (first, rest) = first_of(alloc, size, rest)?;
    let (refs, rest) = refs_of(alloc, first.len(), rest)?;
    Ok((Datum { size, first, refs }, rest))
}

/// How many bytes of code a routine has, where so much room is left.
fn code_count(room: usize, bytes: &[u8]) -> Result<(u32, &[u8]), PartError>
    ensures { Gives (λ x. (x.0, x.1.now)) result (ruled (is_code_count room) long_at bytes.now) }
{
    let (count, rest) = long_of(bytes)?;
    if count < 6 || count as usize > room {
        return damaged(bytes.len());
    }
    Ok((count, rest))
}

#[tactic(auto, unfolding(crate::specs::file_parts::Parts::bytes_where))]
fn code_bytes(alloc: Global, room: usize, bytes: &[u8]) -> Result<(Bytes, &[u8]), PartError>
    ensures { Gives (λ x. (x.0, x.1.now)) result (bytes_where (is_code_count room) bytes.now) }
{
    let (count, rest) = code_count(room, bytes)?;
    some_bytes(alloc, count, rest)
}

#[tactic(auto, unfolding(crate::specs::Reading::code_at))]
fn code_of(alloc: Global, room: usize, bytes: &[u8]) -> Result<(Code8086, &[u8]), PartError>
    ensures { Gives (λ x. (x.0, x.1.now)) result (code_at room bytes.now) }
{
    let (name, rest) = name_of(bytes)?;
    let (far, rest) = truth_of(rest)?;
    let (frame, rest) = long_of(rest)?;
    let (code, rest) = code_bytes(alloc, room, rest)?;
    let (refs, rest) = refs_of(alloc, code.len(), rest)?;
    let routine = Code8086 {
        name,
        far,
        frame,
        code,
        refs,
    };
    Ok((routine, rest))
}

fn data_in_turn(alloc: Global, count: u32, bytes: &[u8]) -> Result<(ObjectData, &[u8]), PartError>
    ensures { Gives (λ x. (x.0, x.1.now)) result (each datum_at count bytes.now) }
{
    let mut list = ObjectData::new(alloc);
    let mut rest = bytes;
    for _ in 0..count {
        let (datum, after) = datum_of(alloc, rest)?;
        list.push(datum)?;
        rest = after;
    }
    Ok((list, rest))
}

/// The count of a list, which is at least this.
fn count_from(least: usize, bytes: &[u8]) -> Result<(u32, &[u8]), PartError>
    ensures { Gives (λ x. (x.0, x.1.now)) result (ruled (λ count. nat_le least count) long_at bytes.now) }
{
    let (count, rest) = long_of(bytes)?;
    if (count as usize) < least {
        return damaged(bytes.len());
    }
    Ok((count, rest))
}

#[tactic(auto, unfolding(crate::specs::Reading::data_at))]
fn data_of(alloc: Global, least: usize, bytes: &[u8]) -> Result<(ObjectData, &[u8]), PartError>
    ensures { Gives (λ x. (x.0, x.1.now)) result (data_at least bytes.now) }
{
    let (count, rest) = count_from(least, bytes)?;
    data_in_turn(alloc, count, rest)
}

/// The room that a routine leaves.
fn room_behind(room: usize, routine: &Code8086) -> usize
    ensures { result ≡ room_behind room routine.now }
{
    room.saturating_sub(routine.code.len())
}

fn codes_in_turn(alloc: Global, count: u32, bytes: &[u8]) -> Result<(Codes, &[u8]), PartError>
    ensures { Gives (λ x. (x.0, x.1.now)) result (in_turn code_at room_behind count 65520 bytes.now) }
{
    let mut routines = Codes::new(alloc);
    let mut room = CODE_LIMIT;
    let mut rest = bytes;
    for _ in 0..count {
        let (routine, after) = code_of(alloc, room, rest)?;
        room = room_behind(room, &routine);
        routines.push(routine)?;
        rest = after;
    }
    Ok((routines, rest))
}

#[tactic(auto, unfolding(crate::specs::Reading::codes_at))]
fn codes_of(alloc: Global, least: usize, bytes: &[u8]) -> Result<(Codes, &[u8]), PartError>
    ensures { Gives (λ x. (x.0, x.1.now)) result (codes_at least bytes.now) }
{
    let (count, rest) = count_from(least, bytes)?;
    codes_in_turn(alloc, count, rest)
}

#[tactic(auto, unfolding(crate::specs::Reading::object_at))]
fn object(
    alloc: Global,
    globals: usize,
    routines: usize,
    bytes: &[u8],
) -> Result<(ObjectUnit, &[u8]), PartError>
    ensures { Gives (λ x. (x.0, x.1.now)) result (object_at globals routines bytes.now) }
{
    let (globals, rest) = data_of(alloc, globals, bytes)?;
    let (vmts, rest) = data_of(alloc, 0, rest)?;
    let (routines, rest) = codes_of(alloc, routines, rest)?;
    let object = ObjectUnit {
        globals,
        vmts,
        routines,
    };
    Ok((object, rest))
}

/// The object unit that the bytes begin with, which has at least so many globals and routines, and the bytes behind it.
/// `Damaged` comes exactly where they begin with none, at the first part that breaks a rule given the parts before it.
pub fn object_of(
    alloc: Global,
    globals: usize,
    routines: usize,
    bytes: &[u8],
) -> Result<(ObjectUnit, &[u8]), PartError>
    // What is read is spelled so.
    ensures found { IfOk result (λ x. IsObjectFor globals routines x.0 × (bytes.now ≡ object_text x.0 ++ x.1.now)) }
    // What is spelled so is read, unless memory runs out.
    ensures only { (object : ObjectUnit) (rest : List ℕ) → IsObjectFor globals routines object → bytes.now ≡ object_text object ++ rest
        → Gives {B = ObjectUnit × List ℕ} (λ x. (x.0, x.1.now)) result (Ok (object, rest)) }
    // What the parts in their order give: the value, or the place of damage.
    ensures exact { Gives (λ x. (x.0, x.1.now)) result (object_at globals routines bytes.now) }
{
    object(alloc, globals, routines, bytes)
}
