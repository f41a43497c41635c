//! Types and names from rows of tables. A row that the scope does not take is a mistake of the test, and told as an error.

use scopes::{Entry, Scope};
use std::alloc::{AllocError, Global};
use type_layout::{
    Bytes, Field, Fields, Header, Host, Kind, Methods, Name, Param, Params, RoutineId, TypeDef,
    TypeId,
};
use typed_tree::Value;

/// A type by what it is made of; other types are told by their ids.
#[derive(Clone, Copy, Debug)]
pub enum Shape {
    Ordinal(Host, i32, i32),
    Str(u8),
    SetOf(u32),
    ArrayOf(u32, u32),
    PointerTo(u32),
    RecordOf(&'static [(&'static str, u32)]),
    /// With the id of the ancestor, if there is one, and whether instances say their class.
    ObjectOf(Option<u32>, bool, &'static [(&'static str, u32)]),
    /// A procedure without parameters.
    Procedural,
}

/// What a name is declared as.
#[derive(Clone, Copy, Debug)]
pub enum Known {
    Type(u32),
    /// By its level and the id of its type.
    Variable(u32, u32),
    /// A constant of a type.
    Number(u32, i32),
    Elements(u32, &'static [u8]),
    Chars(&'static str),
    /// By its one parameter, with whether it is `var`, if there is one, and its result, if it is a function.
    Routine(Option<(bool, u32)>, Option<u32>),
}

fn named(text: &str) -> Result<Name, AllocError> {
    match Name::new(text.as_bytes()) {
        Some(name) => Ok(name),
        None => Err(AllocError),
    }
}

// ---- types

fn field(name: &str, ty: u32) -> Result<Field, AllocError> {
    Ok(Field {
        name: named(name)?,
        ty: TypeId(ty),
    })
}

fn fields(alloc: Global, rows: &[(&str, u32)]) -> Result<Fields, AllocError> {
    let mut fields = Fields::new(alloc);
    for (name, ty) in rows {
        fields.push(field(name, *ty)?)?;
    }
    Ok(fields)
}

fn procedure(alloc: Global) -> Header {
    Header {
        kind: Kind::Procedure,
        params: Params::new(alloc),
        result: None,
    }
}

fn definition(alloc: Global, shape: Shape) -> Result<TypeDef, AllocError> {
    Ok(match shape {
        Shape::Ordinal(host, low, high) => TypeDef::Ordinal { host, low, high },
        Shape::Str(max) => TypeDef::Str { max },
        Shape::SetOf(base) => TypeDef::SetOf { base: TypeId(base) },
        Shape::ArrayOf(index, element) => TypeDef::ArrayOf {
            index: TypeId(index),
            element: TypeId(element),
        },
        Shape::PointerTo(target) => TypeDef::PointerTo {
            target: TypeId(target),
        },
        Shape::RecordOf(rows) => TypeDef::RecordOf {
            fields: fields(alloc, rows)?,
        },
        Shape::ObjectOf(parent, dynamic, rows) => TypeDef::ObjectOf {
            parent: parent.map(TypeId),
            dynamic,
            fields: fields(alloc, rows)?,
            methods: Methods::new(alloc),
        },
        Shape::Procedural => TypeDef::Procedural {
            header: procedure(alloc),
        },
    })
}

fn add_type(scope: &mut Scope, one: TypeDef) -> Result<(), AllocError> {
    let origin = named("P")?;
    if !scope.types().takes(&origin, &one) {
        return Err(AllocError);
    }
    match scope.add_type(origin, 0, one) {
        Ok(_) => Ok(()),
        Err(_) => Err(AllocError),
    }
}

/// Adds types behind those that are there.
pub fn add_types(alloc: Global, scope: &mut Scope, shapes: &[Shape]) -> Result<(), AllocError> {
    for shape in shapes {
        add_type(scope, definition(alloc, *shape)?)?;
    }
    Ok(())
}

// ---- names

fn parameters(alloc: Global, one: Option<(bool, u32)>) -> Result<Params, AllocError> {
    let mut params = Params::new(alloc);
    if let Some((by_ref, ty)) = one {
        params.push(Param {
            name: named("X")?,
            by_ref,
            ty: TypeId(ty),
        })?;
    }
    Ok(params)
}

fn kind_of(gives: Option<u32>) -> Kind {
    match gives {
        Some(_) => Kind::Function,
        None => Kind::Procedure,
    }
}

fn routine(
    alloc: Global,
    param: Option<(bool, u32)>,
    gives: Option<u32>,
) -> Result<Entry, AllocError> {
    let header = Header {
        kind: kind_of(gives),
        params: parameters(alloc, param)?,
        result: gives.map(TypeId),
    };
    Ok(Entry::Code {
        routine: RoutineId { unit: 0, number: 0 },
        level: 0,
        header,
        far: true,
    })
}

fn entry(alloc: Global, known: Known) -> Result<Entry, AllocError> {
    Ok(match known {
        Known::Type(ty) => Entry::Ty { ty: TypeId(ty) },
        Known::Variable(level, ty) => Entry::Var {
            unit: 0,
            level,
            number: 0,
            ty: TypeId(ty),
        },
        Known::Number(ty, number) => Entry::Const {
            ty: TypeId(ty),
            value: Value::Number(number),
        },
        Known::Elements(ty, elements) => Entry::Const {
            ty: TypeId(ty),
            value: Value::Elements(Bytes::from_slice(alloc, elements)?),
        },
        Known::Chars(text) => Entry::Const {
            ty: scopes::STRING,
            value: Value::Chars(Bytes::from_slice(alloc, text.as_bytes())?),
        },
        Known::Routine(param, gives) => routine(alloc, param, gives)?,
    })
}

fn enter(scope: &mut Scope, name: &str, entry: Entry) -> Result<(), AllocError> {
    if !scope.is_open() {
        return Err(AllocError);
    }
    match scope.enter(named(name)?, entry) {
        Ok(true) => Ok(()),
        _ => Err(AllocError),
    }
}

/// Declares names in the innermost block.
pub fn declare(alloc: Global, scope: &mut Scope, rows: &[(&str, Known)]) -> Result<(), AllocError> {
    for (name, known) in rows {
        enter(scope, name, entry(alloc, *known)?)?;
    }
    Ok(())
}
