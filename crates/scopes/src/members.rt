//! Members of records and objects, by their names.

ghost use Rattle.std.specs.Prelude.{◌≡◌, Some, length, min, position, slice_get, option_copied};
ghost use Rattle.type_layout.specs.Words.{same_bytes};
ghost use Rattle.scopes.specs.Lines.{IsLineSearch};
ghost use Rattle.scopes.specs.Members.{narrow, definition, parent_of, own_fields, field_of, method_of, own_member, fields_within, member_within, member_of};

use type_layout::{Field, Method, Name, TypeDef, TypeId, Types};

/// A field or a method. `class` is the type that declares it. The number of a field counts those of the ancestors
/// first, that of a method counts those of `class` alone; it stays at the greatest u32 where it passes that.
#[derive(Clone, Copy, Debug, PartialEq, Eq)]
pub struct Member {
    pub class: TypeId,
    pub number: u32,
    pub method: bool,
}

fn narrow(number: usize) -> u32
    ensures { result ≡ narrow number }
{
    u32::try_from(number).unwrap_or(u32::MAX)
}

fn definition(types: &Types, ty: TypeId) -> Option<&TypeDef>
    ensures { option_copied result ≡ definition types.now.types ty }
{
    if ty.0 < types.count() {
        Some(types.get(ty))
    } else {
        None
    }
}

fn parent_of(one: Option<&TypeDef>) -> Option<TypeId>
    ensures { result ≡ parent_of (option_copied one.entry) }
{
    match one {
        Some(TypeDef::ObjectOf { parent, .. }) => *parent,
        _ => None,
    }
}

fn own_fields(one: Option<&TypeDef>) -> u32
    ensures { result ≡ narrow (own_fields (option_copied one.entry)) }
{
    match one {
        Some(TypeDef::RecordOf { fields }) => narrow(fields.len()),
        Some(TypeDef::ObjectOf { fields, .. }) => narrow(fields.len()),
        _ => 0,
    }
}

fn field_place(fields: &[Field], name: &Name) -> Option<usize>
    ensures { result ≡ position (λ field. same_bytes name.now field.name) fields.now }
{
    fields.iter().position(|field| *name == field.name)
}

fn method_place(methods: &[Method], name: &Name) -> Option<usize>
    ensures { result ≡ position (λ method. same_bytes name.now method.name) methods.now }
{
    methods.iter().position(|method| *name == method.name)
}

fn field_of(before: u32, class: TypeId, fields: &[Field], name: &Name) -> Option<Member>
    ensures { result ≡ field_of before class fields.now name.now }
{
    let place = field_place(fields, name)?;
    Some(Member {
        class,
        number: before.saturating_add(narrow(place)),
        method: false,
    })
}

fn method_of(class: TypeId, methods: &[Method], name: &Name) -> Option<Member>
    ensures { result ≡ method_of class methods.now name.now }
{
    let place = method_place(methods, name)?;
    Some(Member {
        class,
        number: narrow(place),
        method: true,
    })
}

// What a type declares itself, where so many fields of its ancestors come first.
fn own_member(before: u32, class: TypeId, one: Option<&TypeDef>, name: &Name) -> Option<Member>
    ensures { result ≡ own_member before class (option_copied one.entry) name.now }
{
    match one {
        Some(TypeDef::RecordOf { fields }) => field_of(0, class, fields.as_slice(), name),
        Some(
            TypeDef::ObjectOf {
                fields,
                methods,
                ..
            },
        ) => match field_of(before, class, fields.as_slice(), name) {
            Some(member) => Some(member),
            None => method_of(class, methods.as_slice(), name),
        },
        _ => None,
    }
}

// The fields of a line, of which at most so many types are looked at.
fn fields_within(types: &Types, ty: Option<TypeId>, room: u32) -> u32
    ensures { result ≡ narrow (fields_within room types.now.types ty) }
{
    if room == 0 {
        return 0;
    }
    match ty {
        None => 0,
        Some(ty) => {
            let one = definition(types, ty);
            own_fields(one).saturating_add(fields_within(types, parent_of(one), room - 1))
        }
    }
}

// What the nearest type of a line declares under a name, where at most so many types are looked at.
fn member_within(types: &Types, ty: Option<TypeId>, name: &Name, room: u32) -> Option<Member>
    ensures { result ≡ member_within room types.now.types ty name.now }
{
    if room == 0 {
        return None;
    }
    match ty {
        None => None,
        Some(ty) => {
            let one = definition(types, ty);
            let parent = parent_of(one);
            let before = fields_within(types, parent, room - 1);
            match own_member(before, ty, one, name) {
                Some(member) => Some(member),
                None => member_within(types, parent, name, room - 1),
            }
        }
    }
}

/// The member of a record, or of the line of an object, that has this name. In a line it is the nearest type's.
pub fn member_of(types: &Types, ty: Option<TypeId>, name: &Name) -> Option<Member>
    ensures value { result ≡ member_of types.now.types ty name.now }
    ensures line { IsLineSearch types.now.types }
{
    member_within(types, ty, name, types.count())
}
