//! The types of the language as they are declared.

use crate::{Name, Sequence};

/// The number of a type in a table.
#[derive(Clone, Copy, Debug, PartialEq, Eq, PartialOrd, Ord, Hash)]
pub struct TypeId(pub u32);

/// Where a type was declared: a place among the units of the table, and a number in that unit.
#[derive(Clone, Copy, Debug, PartialEq, Eq)]
pub struct Origin {
    pub unit: u32,
    pub number: u32,
}

/// A routine: a place among the units of the table, and the number of the routine in that unit.
#[derive(Clone, Copy, Debug, PartialEq, Eq, Hash)]
pub struct RoutineId {
    pub unit: u32,
    pub number: u32,
}

/// What an ordinal type is made from. Each but `Enumeration` is predefined.
#[derive(Clone, Copy, Debug, PartialEq, Eq, Hash)]
pub enum Host {
    ShortInt,
    Byte,
    Integer,
    Word,
    LongInt,
    Char,
    Boolean,
    Enumeration,
}

/// A field of a record or an object.
#[derive(Debug, Drop)]
pub struct Field {
    pub name: Name,
    pub ty: TypeId,
}

/// A parameter; one with `by_ref` is a `var` parameter.
#[derive(Debug, Drop)]
pub struct Param {
    pub name: Name,
    pub by_ref: bool,
    pub ty: TypeId,
}

/// What kind of routine a header begins.
#[derive(Clone, Copy, Debug, PartialEq, Eq, Hash)]
pub enum Kind {
    Procedure,
    Function,
    Constructor,
    Destructor,
}

/// Fields, in order.
pub type Fields = Sequence<Field>;

/// Parameters, in order.
pub type Params = Sequence<Param>;

/// Methods, in order.
pub type Methods = Sequence<Method>;

/// The header of a routine without its name.
#[derive(Debug, Drop)]
pub struct Header {
    pub kind: Kind,
    pub params: Params,
    pub result: Option<TypeId>,
}

/// A method that an object type declares itself.
#[derive(Debug, Drop)]
pub struct Method {
    pub name: Name,
    pub header: Header,
    pub is_virtual: bool,
    pub routine: RoutineId,
}

/// A type.
#[derive(Debug, Drop)]
pub enum TypeDef {
    /// The values from `low` to `high` of a host.
    Ordinal {
        host: Host,
        low: i32,
        high: i32,
    },
    /// Texts of at most `max` bytes.
    Str {
        max: u8,
    },
    SetOf {
        base: TypeId,
    },
    ArrayOf {
        index: TypeId,
        element: TypeId,
    },
    RecordOf {
        fields: Fields,
    },
    PointerTo {
        target: TypeId,
    },
    /// The fields and methods are those that this type declares itself; `dynamic` says whether one of
    /// these methods is virtual, a constructor or a destructor.
    ObjectOf {
        parent: Option<TypeId>,
        dynamic: bool,
        fields: Fields,
        methods: Methods,
    },
    Procedural {
        header: Header,
    },
}
