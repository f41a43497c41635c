//! Writing types and headers.

ghost use Rattle.std.specs.Prelude.{◌≡◌, ◌++◌, All, OnOk, option_map};
ghost use Rattle.std.specs.List.{flat_map};
ghost use Rattle.object_file.specs.file_parts.Spelling.{list_text, IsLongOption};
ghost use Rattle.unit_file.specs.type_file.Text.{host_number, kind_number, id_number, id_text, id_option_text, field_text, param_text, header_text, method_text, type_tag, type_parts, entry_with, entry_text, entries_of, types_text, AreTypes, HasResult, HasOptions};

use object_file::file_parts::{
    push_count, push_long, push_name, push_option, push_signed, push_truth,
};
use std::alloc::AllocError;
use type_layout::{Bytes, Field, Header, Host, Kind, Method, Name, Param, TypeDef, TypeId, Types};

fn host_number(host: Host) -> u8
    ensures { result ≡ host_number host }
{
    match host {
        Host::ShortInt => 0,
        Host::Byte => 1,
        Host::Integer => 2,
        Host::Word => 3,
        Host::LongInt => 4,
        Host::Char => 5,
        Host::Boolean => 6,
        Host::Enumeration => 7,
    }
}

fn kind_number(kind: Kind) -> u8
    ensures { result ≡ kind_number kind }
{
    match kind {
        Kind::Procedure => 0,
        Kind::Function => 1,
        Kind::Constructor => 2,
        Kind::Destructor => 3,
    }
}

/// Appends the number of a type.
pub fn push_id(bytes: &mut Bytes, id: TypeId) -> Result<(), AllocError>
    ensures { OnOk result (bytes.new ≡ bytes.old ++ id_text id) }
{
    push_long(bytes, id.0)
}

fn push_id_option(bytes: &mut Bytes, id: Option<TypeId>) -> Result<(), AllocError>
    requires { IsLongOption (option_map id_number id) }
    ensures { OnOk result (bytes.new ≡ bytes.old ++ id_option_text id) }
{
    match id {
        None => push_option(bytes, None),
        Some(id) => push_option(bytes, Some(id.0)),
    }
}

#[tactic(auto, unfolding(crate::specs::type_file::Text::field_text))]
fn push_field(bytes: &mut Bytes, field: &Field) -> Result<(), AllocError>
    ensures { OnOk result (bytes.new ≡ bytes.old ++ field_text field.now) }
{
    push_name(bytes, &field.name)?;
    push_id(bytes, field.ty)
}

fn push_each_field(bytes: &mut Bytes, fields: &[Field]) -> Result<(), AllocError>
    ensures { OnOk result (bytes.new ≡ bytes.old ++ flat_map field_text fields.now) }
{
    for field in fields {
        push_field(bytes, field)?;
    }
    Ok(())
}

fn push_fields(bytes: &mut Bytes, fields: &[Field]) -> Result<(), AllocError>
    ensures { OnOk result (bytes.new ≡ bytes.old ++ list_text field_text fields.now) }
{
    push_count(bytes, fields.len())?;
    push_each_field(bytes, fields)
}

#[tactic(auto, unfolding(crate::specs::type_file::Text::param_text))]
fn push_param(bytes: &mut Bytes, param: &Param) -> Result<(), AllocError>
    ensures { OnOk result (bytes.new ≡ bytes.old ++ param_text param.now) }
{
    push_name(bytes, &param.name)?;
    push_truth(bytes, param.by_ref)?;
    push_id(bytes, param.ty)
}

fn push_each_param(bytes: &mut Bytes, params: &[Param]) -> Result<(), AllocError>
    ensures { OnOk result (bytes.new ≡ bytes.old ++ flat_map param_text params.now) }
{
    for param in params {
        push_param(bytes, param)?;
    }
    Ok(())
}

fn push_params(bytes: &mut Bytes, params: &[Param]) -> Result<(), AllocError>
    ensures { OnOk result (bytes.new ≡ bytes.old ++ list_text param_text params.now) }
{
    push_count(bytes, params.len())?;
    push_each_param(bytes, params)
}

/// Appends a header.
#[tactic(auto, unfolding(crate::specs::type_file::Text::header_text))]
pub fn push_header(bytes: &mut Bytes, header: &Header) -> Result<(), AllocError>
    requires { HasResult header.now }
    ensures { OnOk result (bytes.new ≡ bytes.old ++ header_text header.now) }
{
    bytes.push(kind_number(header.kind))?;
    push_params(bytes, header.params.as_slice())?;
    push_id_option(bytes, header.result)
}

#[tactic(auto, unfolding(crate::specs::type_file::Text::method_text))]
fn push_method(bytes: &mut Bytes, method: &Method) -> Result<(), AllocError>
    requires { HasResult method.now.header }
    ensures { OnOk result (bytes.new ≡ bytes.old ++ method_text method.now) }
{
    push_name(bytes, &method.name)?;
    push_header(bytes, &method.header)?;
    push_truth(bytes, method.is_virtual)?;
    push_long(bytes, method.routine.unit)?;
    push_long(bytes, method.routine.number)
}

fn push_each_method(bytes: &mut Bytes, methods: &[Method]) -> Result<(), AllocError>
    requires { All (λ method. HasResult method.header) methods.now }
    ensures { OnOk result (bytes.new ≡ bytes.old ++ flat_map method_text methods.now) }
{
    for method in methods {
        push_method(bytes, method)?;
    }
    Ok(())
}

fn push_methods(bytes: &mut Bytes, methods: &[Method]) -> Result<(), AllocError>
    requires { All (λ method. HasResult method.header) methods.now }
    ensures { OnOk result (bytes.new ≡ bytes.old ++ list_text method_text methods.now) }
{
    push_count(bytes, methods.len())?;
    push_each_method(bytes, methods)
}

fn push_ordinal(bytes: &mut Bytes, host: Host, low: i32, high: i32) -> Result<(), AllocError>
    ensures { OnOk result (bytes.new ≡ bytes.old ++ type_parts (TypeDef.Ordinal host low high)) }
{
    bytes.push(host_number(host))?;
    push_signed(bytes, low)?;
    push_signed(bytes, high)
}

fn push_object(
    bytes: &mut Bytes,
    parent: Option<TypeId>,
    dynamic: bool,
    fields: &[Field],
    methods: &[Method],
) -> Result<(), AllocError>
    requires parent { IsLongOption (option_map id_number parent) }
    requires methods { All (λ method. HasResult method.header) methods.now }
    ensures { OnOk result (bytes.new ≡ bytes.old ++ type_parts (TypeDef.ObjectOf parent dynamic fields.now methods.now)) }
{
    push_id_option(bytes, parent)?;
    push_truth(bytes, dynamic)?;
    push_fields(bytes, fields)?;
    push_methods(bytes, methods)
}

fn push_parts(bytes: &mut Bytes, one: &TypeDef) -> Result<(), AllocError>
    requires { HasOptions one.now }
    ensures { OnOk result (bytes.new ≡ bytes.old ++ type_parts one.now) }
{
    match one {
        TypeDef::Ordinal { host, low, high } => push_ordinal(bytes, *host, *low, *high),
        TypeDef::Str { max } => bytes.push(*max),
        TypeDef::SetOf { base } => push_id(bytes, *base),
        TypeDef::ArrayOf { index, element } => {
            push_id(bytes, *index)?;
            push_id(bytes, *element)
        }
        TypeDef::RecordOf { fields } => push_fields(bytes, fields.as_slice()),
        TypeDef::PointerTo { target } => push_id(bytes, *target),
        TypeDef::ObjectOf {
            parent,
            dynamic,
            fields,
            methods,
        } => push_object(
            bytes,
            *parent,
            *dynamic,
            fields.as_slice(),
            methods.as_slice(),
        ),
        TypeDef::Procedural { header } => push_header(bytes, header),
    }
}

fn type_tag(one: &TypeDef) -> u8
    ensures { result ≡ type_tag one.now }
{
    match one {
        TypeDef::Ordinal { .. } => 0,
        TypeDef::Str { .. } => 1,
        TypeDef::SetOf { .. } => 2,
        TypeDef::ArrayOf { .. } => 3,
        TypeDef::RecordOf { .. } => 4,
        TypeDef::PointerTo { .. } => 5,
        TypeDef::ObjectOf { .. } => 6,
        TypeDef::Procedural { .. } => 7,
    }
}

/// Appends a type with the unit that declares it, and its number there.
#[tactic(auto, unfolding(crate::specs::type_file::Text::entry_text))]
fn push_entry(
    bytes: &mut Bytes,
    origin: &Name,
    number: u32,
    one: &TypeDef,
) -> Result<(), AllocError>
    requires { HasOptions one.now }
    ensures { OnOk result (bytes.new ≡ bytes.old ++ entry_text (entry_with origin.now number one.now)) }
{
    push_name(bytes, origin)?;
    push_long(bytes, number)?;
    bytes.push(type_tag(one))?;
    push_parts(bytes, one)
}

fn push_each_type(bytes: &mut Bytes, types: &Types) -> Result<(), AllocError>
    requires { AreTypes types.now }
    ensures { OnOk result (bytes.new ≡ bytes.old ++ flat_map entry_text (entries_of types.now)) }
{
    let count = types.count();
    let units = types.units();
    for k in 0..count {
        let (unit, number) = types.origin(TypeId(k));
        let one = types.get(TypeId(k));
        push_entry(bytes, &units[unit as usize], number, one)?;
    }
    Ok(())
}

/// Appends the types of an interface.
#[tactic(auto, unfolding(crate::specs::type_file::Text::types_text))]
pub fn push_types(bytes: &mut Bytes, types: &Types) -> Result<(), AllocError>
    requires { AreTypes types.now }
    ensures { OnOk result (bytes.new ≡ bytes.old ++ types_text types.now) }
{
    push_long(bytes, types.count())?;
    push_each_type(bytes, types)
}
