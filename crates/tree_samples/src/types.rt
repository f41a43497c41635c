//! Types from constants.

use crate::names::named;
use std::alloc::{AllocError, Global};
use type_layout::{
    Field, Fields, Header, Host, Kind, Method, Methods, Param, Params, RoutineId, TypeDef, TypeId,
    Types,
};

/// A type by what it is made of; other types are told by their ids.
pub enum TypeSample {
    Ordinal(Host, i32, i32),
    Str(u8),
    SetOf(u32),
    ArrayOf(u32, u32),
    PointerTo(u32),
    /// By the fields' names and types.
    RecordOf(&'static [(&'static str, u32)]),
    /// With the id of the ancestor, if there is one, and whether instances say their class.
    ObjectOf(Option<u32>, bool, &'static [(&'static str, u32)], &'static [MethodSample]),
    Procedural(HeaderSample),
}

/// What kind of routine, its parameters' types with whether they are `var`, and the type of the result.
pub type HeaderSample = (Kind, &'static [(bool, u32)], Option<u32>);

/// A method's name and header, whether it is virtual, and its routine.
pub type MethodSample = (&'static str, HeaderSample, bool, RoutineId);

fn field(name: &str, ty: u32) -> Result<Field, AllocError> {
    Ok(Field {
        name: named(name)?,
        ty: TypeId(ty),
    })
}

fn fields(alloc: Global, rows: &[(&str, u32)]) -> Result<Fields, AllocError> {
    let mut fields = Fields::new(alloc);
    for (name, ty) in rows {
        fields.push(field(name, *ty)?)?;
    }
    Ok(fields)
}

fn param(by_ref: bool, ty: u32) -> Result<Param, AllocError> {
    Ok(Param {
        name: named("P")?,
        by_ref,
        ty: TypeId(ty),
    })
}

fn params(alloc: Global, rows: &[(bool, u32)]) -> Result<Params, AllocError> {
    let mut params = Params::new(alloc);
    for (by_ref, ty) in rows {
        params.push(param(*by_ref, *ty)?)?;
    }
    Ok(params)
}

/// A header whose parameters all have the name P.
pub fn header(alloc: Global, sample: &HeaderSample) -> Result<Header, AllocError> {
    let (kind, rows, gives) = sample;
    Ok(Header {
        kind: *kind,
        params: params(alloc, rows)?,
        result: gives.map(TypeId),
    })
}

fn method(alloc: Global, sample: &MethodSample) -> Result<Method, AllocError> {
    let (name, shape, is_virtual, routine) = sample;
    let name = named(name)?;
    Ok(Method {
        name,
        header: header(alloc, shape)?,
        is_virtual: *is_virtual,
        routine: *routine,
    })
}

fn methods(alloc: Global, rows: &[MethodSample]) -> Result<Methods, AllocError> {
    let mut methods = Methods::new(alloc);
    for row in rows {
        methods.push(method(alloc, row)?)?;
    }
    Ok(methods)
}

fn object(
    alloc: Global,
    parent: Option<u32>,
    dynamic: bool,
    rows: &[(&str, u32)],
    own: &[MethodSample],
) -> Result<TypeDef, AllocError> {
    let fields = fields(alloc, rows)?;
    Ok(TypeDef::ObjectOf {
        parent: parent.map(TypeId),
        dynamic,
        fields,
        methods: methods(alloc, own)?,
    })
}

/// The type of a sample.
pub fn definition(alloc: Global, sample: &TypeSample) -> Result<TypeDef, AllocError> {
    match sample {
        TypeSample::Ordinal(host, low, high) => Ok(TypeDef::Ordinal {
            host: *host,
            low: *low,
            high: *high,
        }),
        TypeSample::Str(max) => Ok(TypeDef::Str { max: *max }),
        TypeSample::SetOf(base) => Ok(TypeDef::SetOf {
            base: TypeId(*base),
        }),
        TypeSample::ArrayOf(index, element) => Ok(TypeDef::ArrayOf {
            index: TypeId(*index),
            element: TypeId(*element),
        }),
        TypeSample::PointerTo(target) => Ok(TypeDef::PointerTo {
            target: TypeId(*target),
        }),
        TypeSample::RecordOf(rows) => Ok(TypeDef::RecordOf {
            fields: fields(alloc, rows)?,
        }),
        TypeSample::ObjectOf(parent, dynamic, rows, own) => {
            object(alloc, *parent, *dynamic, rows, own)
        }
        TypeSample::Procedural(shape) => Ok(TypeDef::Procedural {
            header: header(alloc, shape)?,
        }),
    }
}

// Adds a type that the table takes.
fn add(types: &mut Types, unit: &str, number: u32, one: TypeDef) -> Result<(), AllocError> {
    let origin = named(unit)?;
    if !types.takes(&origin, &one) {
        return Err(AllocError);
    }
    match types.add(origin, number, one) {
        Ok(_) => Ok(()),
        Err(_) => Err(AllocError),
    }
}

/// The table of types, each with the unit that declares it and its number there.
pub fn table(alloc: Global, rows: &[(&str, u32, TypeSample)]) -> Result<Types, AllocError> {
    let mut types = Types::new(alloc);
    for (unit, number, sample) in rows {
        add(&mut types, unit, *number, definition(alloc, sample)?)?;
    }
    Ok(types)
}
