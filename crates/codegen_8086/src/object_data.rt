//! Data, far pointers that are stored, and virtual method tables.

ghost use Rattle.std.specs.Prelude.{◌≡◌, ◌+◌, ◌*◌, ◌-◌, ◌++◌, ◌<◌, length, map, IfOk};
ghost use Rattle.codegen_8086.specs.object_code.Objects.{far_ref, filled_up, global_of, pointer_of, two_bytes, slot_refs, vmt_of};

use crate::references::name_in;
use flat_code::{FlatDatum, FlatUnit, FlatVmt};
use object_file::object_unit::{Datum, ObjectData, Ref, RefKind, Refs};
use std::alloc::{AllocError, Global};
use type_layout::{Bytes, Name, RoutineId};

fn far_ref(names: &[Name], offset: u32, routine: RoutineId) -> Result<Ref, AllocError>
    requires { 0 < length names.now }
    ensures { IfOk result (λ one. one ≡ far_ref names.now offset routine) }
{
    Ok(Ref {
        offset,
        kind: RefKind::FarRoutine,
        unit: name_in(names, routine.unit).clone()?,
        number: routine.number,
    })
}

fn filled_up(alloc: Global, size: u32, first: &[u8]) -> Result<Bytes, AllocError>
    ensures { IfOk result (λ bytes. bytes ≡ filled_up size first.now) }
{
    let mut bytes = Vec::from_slice(alloc, first)?;
    if !first.is_empty() && first.len() < size as usize {
        bytes.resize(size as usize, 0)?;
    }
    Ok(Bytes::from_vec(bytes))
}

fn global_of(alloc: Global, datum: &FlatDatum) -> Result<Datum, AllocError>
    ensures { IfOk result (λ made. made ≡ global_of datum.now) }
{
    Ok(Datum {
        size: datum.size,
        first: filled_up(alloc, datum.size, datum.first.as_slice())?,
        refs: Refs::new(alloc),
    })
}

fn pointer_of(alloc: Global, names: &[Name], routine: RoutineId) -> Result<Datum, AllocError>
    requires { 0 < length names.now }
    ensures { IfOk result (λ made. made ≡ pointer_of names.now routine) }
{
    let mut refs = Refs::new(alloc);
    refs.push(far_ref(names, 0, routine)?)?;
    Ok(Datum {
        size: 4,
        first: Bytes::from_slice(alloc, &[0, 0, 0, 0])?,
        refs,
    })
}

/// The data of a unit, and behind them one for each far pointer that is stored.
pub(crate) fn globals_of(
    alloc: Global,
    unit: &FlatUnit,
    stored: &[RoutineId],
) -> Result<ObjectData, AllocError>
    requires { 0 < length unit.now.names }
    ensures { IfOk result (λ made. made ≡ map global_of unit.now.globals ++ map (pointer_of unit.now.names) stored.now) }
{
    let mut made = ObjectData::new(alloc);
    for datum in unit.globals.as_slice() {
        made.push(global_of(alloc, datum)?)?;
    }
    for routine in stored {
        made.push(pointer_of(alloc, unit.names.as_slice(), *routine)?)?;
    }
    Ok(made)
}

fn slot_refs(alloc: Global, names: &[Name], slots: &[RoutineId]) -> Result<Refs, AllocError>
    requires { 0 < length names.now }
    ensures { IfOk result (λ refs. refs ≡ slot_refs names.now 4 slots.now) }
{
    let mut refs = Refs::new(alloc);
    let mut offset: u32 = 4;
    for routine in slots {
        refs.push(far_ref(names, offset, *routine)?)?;
        offset = offset.checked_add(4).ok_or(AllocError)?;
    }
    Ok(refs)
}

fn two_bytes(number: u16) -> [u8; 2]
    ensures { result ≡ two_bytes number }
{
    [(number % 256) as u8, (number / 256) as u8]
}

fn vmt_of(alloc: Global, names: &[Name], vmt: &FlatVmt) -> Result<Datum, AllocError>
    requires { 0 < length names.now }
    ensures { IfOk result (λ made. made ≡ vmt_of names.now vmt.now) }
{
    let slots = vmt.slots.as_slice();
    let bytes = slots
        .len()
        .checked_mul(4)
        .ok_or(AllocError)?
        .checked_add(4)
        .ok_or(AllocError)?;
    if bytes >= 0x1_0000_0000 {
        return Err(AllocError);
    }
    let mut first = Vec::from_slice(alloc, &two_bytes(vmt.size))?;
    first.extend_from_slice(&two_bytes(vmt.size.wrapping_neg()))?;
    first.resize(bytes, 0)?;
    Ok(Datum {
        size: bytes as u32,
        first: Bytes::from_vec(first),
        refs: slot_refs(alloc, names, slots)?,
    })
}

/// The virtual method tables of a unit.
pub(crate) fn vmts_of(alloc: Global, unit: &FlatUnit) -> Result<ObjectData, AllocError>
    requires { 0 < length unit.now.names }
    ensures { IfOk result (λ made. made ≡ map (vmt_of unit.now.names) unit.now.vmts) }
{
    let mut made = ObjectData::new(alloc);
    for vmt in unit.vmts.as_slice() {
        made.push(vmt_of(alloc, unit.names.as_slice(), vmt)?)?;
    }
    Ok(made)
}
