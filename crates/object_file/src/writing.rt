//! Writing an object unit.

ghost use Rattle.std.specs.Prelude.{◌≡◌, ◌++◌, OnOk};
ghost use Rattle.std.specs.List.{flat_map};
ghost use Rattle.object_file.specs.file_parts.Spelling.{list_text};
ghost use Rattle.object_file.specs.Text.{kind_number, ref_text, datum_text, code_text, object_text};

use crate::file_parts::{push_bytes, push_count, push_long, push_name, push_truth};
use crate::object_unit::{Code8086, Datum, ObjectUnit, Ref, RefKind};
use std::alloc::AllocError;
use type_layout::Bytes;

fn kind_number(kind: RefKind) -> u8
    ensures { result ≡ kind_number kind }
{
    match kind {
        RefKind::FarRoutine => 0,
        RefKind::NearRoutine => 1,
        RefKind::DataOffset => 2,
        RefKind::DataSegment => 3,
        RefKind::Vmt => 4,
        RefKind::Runtime => 5,
    }
}

#[tactic(auto, unfolding(crate::specs::Text::ref_text))]
fn push_ref(bytes: &mut Bytes, one: &Ref) -> Result<(), AllocError>
    ensures { OnOk result (bytes.new ≡ bytes.old ++ ref_text one.now) }
{
    push_long(bytes, one.offset)?;
    bytes.push(kind_number(one.kind))?;
    push_name(bytes, &one.unit)?;
    push_long(bytes, one.number)
}

fn push_each_ref(bytes: &mut Bytes, refs: &[Ref]) -> Result<(), AllocError>
    ensures { OnOk result (bytes.new ≡ bytes.old ++ flat_map ref_text refs.now) }
{
    for one in refs {
        push_ref(bytes, one)?;
    }
    Ok(())
}

fn push_refs(bytes: &mut Bytes, refs: &[Ref]) -> Result<(), AllocError>
    ensures { OnOk result (bytes.new ≡ bytes.old ++ list_text ref_text refs.now) }
{
    push_count(bytes, refs.len())?;
    push_each_ref(bytes, refs)
}

#[tactic(auto, unfolding(crate::specs::Text::datum_text))]
fn push_datum(bytes: &mut Bytes, datum: &Datum) -> Result<(), AllocError>
    ensures { OnOk result (bytes.new ≡ bytes.old ++ datum_text datum.now) }
{
    push_long(bytes, datum.size)?;
    push_bytes(bytes, datum.first.as_slice())?;
    push_refs(bytes, datum.refs.as_slice())
}

fn push_each_datum(bytes: &mut Bytes, list: &[Datum]) -> Result<(), AllocError>
    ensures { OnOk result (bytes.new ≡ bytes.old ++ flat_map datum_text list.now) }
{
    for datum in list {
        push_datum(bytes, datum)?;
    }
    Ok(())
}

fn push_data(bytes: &mut Bytes, list: &[Datum]) -> Result<(), AllocError>
    ensures { OnOk result (bytes.new ≡ bytes.old ++ list_text datum_text list.now) }
{
    push_count(bytes, list.len())?;
    push_each_datum(bytes, list)
}

#[tactic(auto, unfolding(crate::specs::Text::code_text))]
fn push_code(bytes: &mut Bytes, routine: &Code8086) -> Result<(), AllocError>
    ensures { OnOk result (bytes.new ≡ bytes.old ++ code_text routine.now) }
{
    push_name(bytes, &routine.name)?;
    push_truth(bytes, routine.far)?;
    push_long(bytes, routine.frame)?;
    push_bytes(bytes, routine.code.as_slice())?;
    push_refs(bytes, routine.refs.as_slice())
}

fn push_each_code(bytes: &mut Bytes, routines: &[Code8086]) -> Result<(), AllocError>
    ensures { OnOk result (bytes.new ≡ bytes.old ++ flat_map code_text routines.now) }
{
    for routine in routines {
        push_code(bytes, routine)?;
    }
    Ok(())
}

fn push_codes(bytes: &mut Bytes, routines: &[Code8086]) -> Result<(), AllocError>
    ensures { OnOk result (bytes.new ≡ bytes.old ++ list_text code_text routines.now) }
{
    push_count(bytes, routines.len())?;
    push_each_code(bytes, routines)
}

/// Appends an object unit.
#[tactic(auto, unfolding(crate::specs::Text::object_text))]
pub fn push_object(bytes: &mut Bytes, object: &ObjectUnit) -> Result<(), AllocError>
    ensures { OnOk result (bytes.new ≡ bytes.old ++ object_text object.now) }
{
    push_data(bytes, object.globals.as_slice())?;
    push_data(bytes, object.vmts.as_slice())?;
    push_codes(bytes, object.routines.as_slice())
}
