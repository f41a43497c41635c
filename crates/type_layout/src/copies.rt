//! Copies of what is declared.

ghost use Rattle.std.specs.Prelude.{◌≡◌, IfOk};

use crate::{Field, Fields, Header, Method, Methods, Param, Params, TypeDef};
use std::alloc::{AllocError, Global};

impl Field {
    /// A copy, which takes no memory.
    pub fn copied(&self) -> Field
        ensures { result ≡ self.now }
    {
        Field {
            name: self.name.copied(),
            ty: self.ty,
        }
    }
}

impl Param {
    /// A copy, which takes no memory.
    pub fn copied(&self) -> Param
        ensures { result ≡ self.now }
    {
        Param {
            name: self.name.copied(),
            by_ref: self.by_ref,
            ty: self.ty,
        }
    }
}

fn copied_fields(alloc: Global, fields: &[Field]) -> Result<Fields, AllocError>
    ensures { IfOk result (λ copy. copy ≡ fields.now) }
{
    let mut copy = Fields::new(alloc);
    for field in fields {
        copy.push(field.copied())?;
    }
    Ok(copy)
}

fn copied_params(alloc: Global, params: &[Param]) -> Result<Params, AllocError>
    ensures { IfOk result (λ copy. copy ≡ params.now) }
{
    let mut copy = Params::new(alloc);
    for param in params {
        copy.push(param.copied())?;
    }
    Ok(copy)
}

fn copied_methods(alloc: Global, methods: &[Method]) -> Result<Methods, AllocError>
    ensures { IfOk result (λ copy. copy ≡ methods.now) }
{
    let mut copy = Methods::new(alloc);
    for method in methods {
        copy.push(method.copied(alloc)?)?;
    }
    Ok(copy)
}

impl Header {
    /// A copy.
    pub fn copied(&self, alloc: Global) -> Result<Header, AllocError>
        ensures { IfOk result (λ copy. copy ≡ self.now) }
    {
        let params = copied_params(alloc, self.params.as_slice())?;
        Ok(Header {
            kind: self.kind,
            params,
            result: self.result,
        })
    }
}

impl Method {
    /// A copy.
    pub fn copied(&self, alloc: Global) -> Result<Method, AllocError>
        ensures { IfOk result (λ copy. copy ≡ self.now) }
    {
        let header = self.header.copied(alloc)?;
        Ok(Method {
            name: self.name.copied(),
            header,
            is_virtual: self.is_virtual,
            routine: self.routine,
        })
    }
}

impl TypeDef {
    /// A copy.
    pub fn copied(&self, alloc: Global) -> Result<TypeDef, AllocError>
        ensures { IfOk result (λ copy. copy ≡ self.now) }
    {
        Ok(match self {
            TypeDef::Ordinal { host, low, high } => TypeDef::Ordinal {
                host: *host,
                low: *low,
                high: *high,
            },
            TypeDef::Str { max } => TypeDef::Str { max: *max },
            TypeDef::SetOf { base } => TypeDef::SetOf { base: *base },
            TypeDef::ArrayOf { index, element } => TypeDef::ArrayOf {
                index: *index,
                element: *element,
            },
            TypeDef::RecordOf { fields } => TypeDef::RecordOf {
                fields: copied_fields(alloc, fields.as_slice())?,
            },
            TypeDef::PointerTo { target } => TypeDef::PointerTo { target: *target },
            TypeDef::ObjectOf {
                parent,
                dynamic,
                fields,
                methods,
            } => {
                let fields = copied_fields(alloc, fields.as_slice())?;
                let methods = copied_methods(alloc, methods.as_slice())?;
                TypeDef::ObjectOf {
                    parent: *parent,
                    dynamic: *dynamic,
                    fields,
                    methods,
                }
            }
            TypeDef::Procedural { header } => TypeDef::Procedural {
                header: header.copied(alloc)?,
            },
        })
    }
}
