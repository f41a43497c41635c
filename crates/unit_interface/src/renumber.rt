//! What is declared, with new ids of types.

ghost use Rattle.std.specs.Prelude.{◌≡◌, IfOk, map, option_map};
ghost use Rattle.unit_interface.specs.Merge.{new_id, renumbered_param, renumbered_header, renumbered_field, renumbered_method, renumbered};

use std::alloc::{AllocError, Global};
use type_layout::{
    Field, Fields, Header, Method, Methods, Param, Params, RoutineId, TypeDef, TypeId,
};

/// The new id of a type; one that has none stays.
pub(crate) fn new_id(ids: &[TypeId], ty: TypeId) -> TypeId
    ensures { result ≡ new_id ids.now ty }
{
    match ids.get(ty.0 as usize) {
        Some(id) => *id,
        None => ty,
    }
}

fn new_option(ids: &[TypeId], ty: Option<TypeId>) -> Option<TypeId>
    ensures { result ≡ option_map (new_id ids.now) ty }
{
    match ty {
        Some(ty) => Some(new_id(ids, ty)),
        None => None,
    }
}

fn params_of(alloc: Global, ids: &[TypeId], params: &[Param]) -> Result<Params, AllocError>
    ensures { IfOk result (λ copy. copy ≡ map (renumbered_param ids.now) params.now) }
{
    let mut copy = Params::new(alloc);
    for param in params {
        copy.push(Param {
            name: param.name.copied(),
            by_ref: param.by_ref,
            ty: new_id(ids, param.ty),
        })?;
    }
    Ok(copy)
}

/// A header with new ids.
pub(crate) fn header_of(
    alloc: Global,
    ids: &[TypeId],
    header: &Header,
) -> Result<Header, AllocError>
    ensures { IfOk result (λ copy. copy ≡ renumbered_header ids.now header.now) }
{
    let params = params_of(alloc, ids, header.params.as_slice())?;
    Ok(Header {
        kind: header.kind,
        params,
        result: new_option(ids, header.result),
    })
}

fn fields_of(alloc: Global, ids: &[TypeId], fields: &[Field]) -> Result<Fields, AllocError>
    ensures { IfOk result (λ copy. copy ≡ map (renumbered_field ids.now) fields.now) }
{
    let mut copy = Fields::new(alloc);
    for field in fields {
        copy.push(Field {
            name: field.name.copied(),
            ty: new_id(ids, field.ty),
        })?;
    }
    Ok(copy)
}

fn method_of(
    alloc: Global,
    ids: &[TypeId],
    unit: u32,
    method: &Method,
) -> Result<Method, AllocError>
    ensures { IfOk result (λ copy. copy ≡ renumbered_method ids.now unit method.now) }
{
    let header = header_of(alloc, ids, &method.header)?;
    Ok(Method {
        name: method.name.copied(),
        header,
        is_virtual: method.is_virtual,
        routine: RoutineId {
            unit,
            number: method.routine.number,
        },
    })
}

fn methods_of(
    alloc: Global,
    ids: &[TypeId],
    unit: u32,
    methods: &[Method],
) -> Result<Methods, AllocError>
    ensures { IfOk result (λ copy. copy ≡ map (renumbered_method ids.now unit) methods.now) }
{
    let mut copy = Methods::new(alloc);
    for method in methods {
        copy.push(method_of(alloc, ids, unit, method)?)?;
    }
    Ok(copy)
}

/// A type with new ids, whose methods are of the unit at this place.
pub(crate) fn type_of(
    alloc: Global,
    ids: &[TypeId],
    unit: u32,
    one: &TypeDef,
) -> Result<TypeDef, AllocError>
    ensures { IfOk result (λ copy. copy ≡ renumbered ids.now unit one.now) }
{
    Ok(match one {
        TypeDef::Ordinal { host, low, high } => TypeDef::Ordinal {
            host: *host,
            low: *low,
            high: *high,
        },
        TypeDef::Str { max } => TypeDef::Str { max: *max },
        TypeDef::SetOf { base } => TypeDef::SetOf {
            base: new_id(ids, *base),
        },
        TypeDef::ArrayOf { index, element } => TypeDef::ArrayOf {
            index: new_id(ids, *index),
            element: new_id(ids, *element),
        },
        TypeDef::RecordOf { fields } => TypeDef::RecordOf {
            fields: fields_of(alloc, ids, fields.as_slice())?,
        },
        TypeDef::PointerTo { target } => TypeDef::PointerTo {
            target: new_id(ids, *target),
        },
        TypeDef::ObjectOf {
            parent,
            dynamic,
            fields,
            methods,
        } => {
            let fields = fields_of(alloc, ids, fields.as_slice())?;
            let methods = methods_of(alloc, ids, unit, methods.as_slice())?;
            TypeDef::ObjectOf {
                parent: new_option(ids, *parent),
                dynamic: *dynamic,
                fields,
                methods,
            }
        }
        TypeDef::Procedural { header } => TypeDef::Procedural {
            header: header_of(alloc, ids, header)?,
        },
    })
}
