//! What a name can mean, and what a search for it finds.

ghost use Rattle.std.specs.Prelude.{◌≡◌, IfOk};

use std::alloc::{AllocError, Global};
use type_layout::{Header, RoutineId, TypeId};
use typed_tree::Value;

/// What a name means. The `unit` of a variable or a routine is a place among the units of the scope. `level` is the
/// nesting depth of the declaration, 0 for a global. A routine that is `far` is called by far calls. The number of `Std`
/// is that of a standard routine, one of `typed_tree::standard`.
#[derive(Debug, Drop)]
pub enum Entry {
    Const {
        ty: TypeId,
        value: Value,
    },
    Ty {
        ty: TypeId,
    },
    Var {
        unit: u32,
        level: u32,
        number: u32,
        ty: TypeId,
    },
    Code {
        routine: RoutineId,
        level: u32,
        header: Header,
        far: bool,
    },
    Std {
        number: u32,
    },
}

/// What opens a block: a part of a unit or program, a routine with its number in the unit and the object type whose
/// method it is, or a `with` over a record or an object.
#[derive(Clone, Copy, Debug, PartialEq, Eq)]
pub enum BlockKind {
    Part,
    Routine { number: u32, owner: Option<TypeId> },
    With { ty: TypeId },
}

/// What a search finds, and in which block: 0 is that of the predeclared names, then come the used units in order of
/// the clauses, then the open blocks from the outermost. The number of a field counts those of the ancestors first,
/// that of a method counts those of `class` alone.
#[derive(Debug, Drop)]
pub enum Found<'a> {
    Named {
        block: u32,
        entry: &'a Entry,
    },
    Member {
        block: u32,
        class: TypeId,
        number: u32,
        method: bool,
    },
}

fn copied_value(alloc: Global, value: &Value) -> Result<Value, AllocError>
    ensures { IfOk result (λ copy. copy ≡ value.now) }
{
    Ok(match value {
        Value::Number(number) => Value::Number(*number),
        Value::Chars(bytes) => Value::Chars(bytes.copied(alloc)?),
        Value::Nil => Value::Nil,
        Value::Elements(bytes) => Value::Elements(bytes.copied(alloc)?),
    })
}

impl Entry {
    /// A copy.
    pub fn copied(&self, alloc: Global) -> Result<Entry, AllocError>
        ensures { IfOk result (λ copy. copy ≡ self.now) }
    {
        Ok(match self {
            Entry::Const { ty, value } => Entry::Const {
                ty: *ty,
                value: copied_value(alloc, value)?,
            },
            Entry::Ty { ty } => Entry::Ty { ty: *ty },
            Entry::Var {
                unit,
                level,
                number,
                ty,
            } => Entry::Var {
                unit: *unit,
                level: *level,
                number: *number,
                ty: *ty,
            },
            Entry::Code {
                routine,
                level,
                header,
                far,
            } => Entry::Code {
                routine: *routine,
                level: *level,
                header: header.copied(alloc)?,
                far: *far,
            },
            Entry::Std { number } => Entry::Std { number: *number },
        })
    }
}
