//! Parts of type declarations.

ghost use Rattle.std.specs.Prelude.{◌≡◌};
ghost use Rattle.typing_rules.specs.Judgements.{Gives};
ghost use Rattle.declaration_checker.specs.type_denoters.Additions.{denoted};
ghost use Rattle.declaration_checker.specs.type_denoters.Denoters.{ground};
ghost use Rattle.scopes.specs.Members.{narrow};
ghost use Rattle.declaration_checker.specs.type_parts.Parts.{whole, type_declared, method_count, next_routine, types_declared, type_part};

use crate::type_denoters::{Promise, entered, judged_denoter};
use crate::type_parts::objects::object_allowed;
use crate::type_parts::promised::promises;
use scopes::{Entry, Scope};
use std::alloc::Global;
use syntax_tree::source_tree::TypeDeclaration;
use syntax_tree::type_tree::TypeDenoter;
use type_layout::{Name, TypeId};
use typing_rules::Refusal;

// The type of a declaration of this name.
fn whole(
    alloc: Global,
    tree: &TypeDenoter,
    scope: &mut Scope,
    unit: &Name,
    names: &[Promise],
    next: Option<u32>,
    own: &Name,
) -> Result<TypeId, Refusal>
    ensures { Gives (λ ty. denoted ty scope.new) result (whole (ground unit.now names.now) next own.now scope.old tree.now).run }
{
    match tree {
        TypeDenoter::Object {
            position,
            ancestor,
            fields,
            methods,
            ..
        } => object_allowed(
            alloc,
            scope,
            unit,
            names,
            next,
            own,
            position.place,
            ancestor.as_ref(),
            fields.as_slice(),
            methods.as_slice(),
        ),
        TypeDenoter::Name(_)
        | TypeDenoter::Range(..)
        | TypeDenoter::Enumeration { .. }
        | TypeDenoter::Pointer { .. }
        | TypeDenoter::String { .. }
        | TypeDenoter::Procedure { .. }
        | TypeDenoter::Function { .. }
        | TypeDenoter::Packed { .. }
        | TypeDenoter::Structured(_) => judged_denoter(alloc, tree, scope, unit, names),
    }
}

fn type_declared(
    alloc: Global,
    one: &TypeDeclaration,
    scope: &mut Scope,
    unit: &Name,
    names: &[Promise],
    next: Option<u32>,
) -> Result<(), Refusal>
    ensures { Gives (λ _. scope.new) result (type_declared (ground unit.now names.now) next scope.old one.now).run }
{
    let own = &one.name;
    let ty = whole(alloc, &one.denoter, scope, unit, names, next, &own.name)?;
    entered(scope, own.position.place, &own.name, Entry::Ty { ty })
}

/// How many methods a type declares itself, of each of which the unit has a routine.
pub fn method_count(tree: &TypeDenoter) -> u32
    ensures { result ≡ narrow (method_count tree.now) }
{
    match tree {
        TypeDenoter::Object { methods, .. } => u32::try_from(methods.len()).unwrap_or(u32::MAX),
        TypeDenoter::Name(_)
        | TypeDenoter::Range(..)
        | TypeDenoter::Enumeration { .. }
        | TypeDenoter::Pointer { .. }
        | TypeDenoter::String { .. }
        | TypeDenoter::Procedure { .. }
        | TypeDenoter::Function { .. }
        | TypeDenoter::Packed { .. }
        | TypeDenoter::Structured(_) => 0,
    }
}

fn next_routine(next: Option<u32>, tree: &TypeDenoter) -> Option<u32>
    ensures { result ≡ next_routine next tree.now }
{
    match next {
        Some(number) => Some(number.saturating_add(method_count(tree))),
        None => None,
    }
}

fn types_declared(
    alloc: Global,
    all: &[TypeDeclaration],
    scope: &mut Scope,
    unit: &Name,
    names: &[Promise],
    first: Option<u32>,
) -> Result<(), Refusal>
    ensures { Gives (λ _. scope.new) result (types_declared (ground unit.now names.now) first scope.old all.now).run }
{
    let mut next = first;
    for one in all {
        type_declared(alloc, one, scope, unit, names, next)?;
        next = next_routine(next, &one.denoter);
    }
    Ok(())
}

/// A part of type declarations of a unit. The names are put into the innermost block, and the types into the table. Where object
/// types may be declared, the number of the next routine of the unit is given, and their methods are numbered from it on.
#[tactic(auto, unfolding(crate::specs::type_parts::Parts::type_part))]
pub fn type_part(
    alloc: Global,
    all: &[TypeDeclaration],
    scope: &mut Scope,
    unit: &Name,
    next: Option<u32>,
) -> Result<(), Refusal>
    ensures { Gives (λ _. scope.new) result (type_part unit.now next scope.old all.now).run }
{
    let names = promises(alloc, scope, all)?;
    types_declared(alloc, all, scope, unit, names.as_slice(), next)
}
