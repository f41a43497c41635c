//! Writing a unit file.

ghost use Rattle.std.specs.Prelude.{◌≡◌, ◌++◌, All, OnOk, IfOk};
ghost use Rattle.std.specs.List.{flat_map};
ghost use Rattle.object_file.specs.file_parts.Spelling.{name_text, option_text, list_text, IsLongOption};
ghost use Rattle.object_file.specs.Text.{object_text};
ghost use Rattle.unit_file.specs.interface_file.Text.{interface_text, IsInterface};
ghost use Rattle.unit_file.specs.Format.{front, tail_text, spelling, IsUnit};

use crate::interface_file::push_interface;
use crate::unit::UnitRecord;
use object_file::file_parts::{
    push_count, push_long, push_name, push_option, push_truth, push_word,
};
use object_file::object_unit::ObjectUnit;
use object_file::push_object;
use std::alloc::{AllocError, Global};
use type_layout::{Bytes, Name};
use unit_interface::Interface;

/// The four letters and the version.
fn front_of(alloc: Global, version: u16) -> Result<Bytes, AllocError>
    ensures { IfOk result (λ bytes. bytes ≡ front version) }
{
    let mut bytes = Bytes::from_slice(alloc, b"TPW1")?;
    push_word(&mut bytes, version)?;
    Ok(bytes)
}

fn push_each_name(bytes: &mut Bytes, names: &[Name]) -> Result<(), AllocError>
    ensures { OnOk result (bytes.new ≡ bytes.old ++ flat_map name_text names.now) }
{
    for name in names {
        push_name(bytes, name)?;
    }
    Ok(())
}

fn push_names(bytes: &mut Bytes, names: &[Name]) -> Result<(), AllocError>
    ensures { OnOk result (bytes.new ≡ bytes.old ++ list_text name_text names.now) }
{
    push_count(bytes, names.len())?;
    push_each_name(bytes, names)
}

fn push_each_import(bytes: &mut Bytes, imports: &[Interface]) -> Result<(), AllocError>
    requires { All IsInterface imports.now }
    ensures { OnOk result (bytes.new ≡ bytes.old ++ flat_map interface_text imports.now) }
{
    for import in imports {
        push_interface(bytes, import)?;
    }
    Ok(())
}

fn push_imports(bytes: &mut Bytes, imports: &[Interface]) -> Result<(), AllocError>
    requires { All IsInterface imports.now }
    ensures { OnOk result (bytes.new ≡ bytes.old ++ list_text interface_text imports.now) }
{
    push_count(bytes, imports.len())?;
    push_each_import(bytes, imports)
}

/// Appends an object unit and the start.
fn push_code(bytes: &mut Bytes, object: &ObjectUnit, start: Option<u32>) -> Result<(), AllocError>
    requires { IsLongOption start }
    ensures { OnOk result (bytes.new ≡ bytes.old ++ (object_text object.now ++ option_text start)) }
{
    push_object(bytes, object)?;
    push_option(bytes, start)
}

/// Appends what stands behind the interface.
#[tactic(auto, unfolding(crate::specs::Format::tail_text))]
fn push_tail(bytes: &mut Bytes, unit: &UnitRecord) -> Result<(), AllocError>
    requires { IsUnit unit.now }
    ensures { OnOk result (bytes.new ≡ bytes.old ++ tail_text unit.now) }
{
    push_names(bytes, unit.overlaid.as_slice())?;
    push_long(bytes, unit.stack)?;
    push_long(bytes, unit.heap)?;
    push_imports(bytes, unit.imports.as_slice())?;
    push_code(bytes, &unit.object, unit.start)
}

/// The bytes of a unit file.
#[tactic(auto, unfolding(crate::specs::Format::spelling))]
pub fn write_unit(alloc: Global, unit: &UnitRecord) -> Result<Bytes, AllocError>
    requires { IsUnit unit.now }
    ensures { IfOk result (λ bytes. bytes ≡ spelling unit.now) }
{
    let mut bytes = front_of(alloc, unit.version)?;
    push_truth(&mut bytes, unit.program)?;
    push_truth(&mut bytes, unit.overlayable)?;
    push_interface(&mut bytes, &unit.interface)?;
    push_tail(&mut bytes, unit)?;
    Ok(bytes)
}
