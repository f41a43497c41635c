//! The classes of a table of types.

ghost use Rattle.std.specs.Prelude.{◌≡◌, ◌++◌, ◌∷◌, [], Some, None, IfOk, OnOk, IfErr, length};
ghost use Rattle.object_vmt.specs.Members.{inherited, members_by, members_of};
ghost use Rattle.type_layout.specs.Table.{IsWellFormed};
ghost use Rattle.object_vmt.specs.Faults.{type_fault, first_fault, IsAnswerTo};
ghost use Rattle.object_vmt.specs.Dispatch.{IsLawful, IsCause, IsDispatch, AnswersAlike};

use crate::{Class, ClassError, Classes};
use std::alloc::{AllocError, Global};
use type_layout::{TypeDef, TypeId, Types};

// What an object type inherits.
fn inherited(alloc: Global, classes: &[Class], parent: Option<TypeId>) -> Result<Class, AllocError>
    ensures { IfOk result (λ class. class ≡ inherited classes.now parent) }
{
    match parent {
        None => Ok(Class::new(alloc)),
        Some(id) => match classes.get(id.0 as usize) {
            Some(class) => class.copied(alloc),
            None => Ok(Class::new(alloc)),
        },
    }
}

// The class of a type over those of the types before it.
fn class_over(alloc: Global, classes: &[Class], one: &TypeDef) -> Result<Class, ClassError>
    ensures ok { IfOk result (λ class. class ≡ members_by classes.now one.now) }
    ensures lawful { OnOk result (type_fault classes.now one.now ≡ None) }
    ensures err { IfErr result (IsAnswerTo (type_fault classes.now one.now)) }
{
    match one {
        TypeDef::ObjectOf {
            parent,
            fields,
            methods,
            ..
        } => {
            let above = inherited(alloc, classes, *parent)?;
            let class = above.with_fields(fields.as_slice())?;
            class.with_methods(alloc, methods.as_slice())
        }
        _ => Ok(Class::new(alloc)),
    }
}

// The classes of a table of types, or the first fault.
fn built(alloc: Global, types: &Types) -> Result<Classes, ClassError>
    ensures ok { IfOk result (λ classes. classes ≡ members_of types.now.types) }
    ensures each { IfOk result (λ classes. length classes ≡ length types.now.types) }
    ensures lawful { OnOk result (first_fault types.now.types ≡ None) }
    ensures err { IfErr result (IsAnswerTo (first_fault types.now.types)) }
    ensures well_formed { IsWellFormed types.now }
{
    let mut classes = Vec::new(alloc);
    for number in 0..types.count() {
        let class = class_over(alloc, classes.as_slice(), types.get(TypeId(number)))?;
        push(&mut classes, class)?;
    }
    Ok(Classes::from_vec(classes))
}

/// The classes of a table of types. Any error but out of memory tells a rule that fails at that name in the line of
/// a type; where several fail, it tells the first in the order of the table.
pub fn classes(alloc: Global, types: &Types) -> Result<Classes, ClassError>
    ensures ok { IfOk result (λ classes. classes ≡ members_of types.now.types) }
    ensures each { IfOk result (λ classes. length classes ≡ length types.now.types) }
    ensures lawful { OnOk result (IsLawful types.now.types) }
    ensures alike { OnOk result (AnswersAlike types.now.types) }
    ensures cause { IfErr result (IsCause types.now.types) }
    ensures dispatch { IsDispatch types.now.types }
{
    built(alloc, types)
}

// Appends a class.
fn push(classes: &mut Vec<Class>, class: Class) -> Result<(), AllocError>
    ensures { OnOk result (classes.new.items ≡ classes.old.items ++ class ∷ []) }
{
    match classes.push(class) {
        Ok(()) => Ok(()),
        Err(_) => Err(AllocError),
    }
}
