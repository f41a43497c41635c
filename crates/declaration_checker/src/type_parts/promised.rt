//! The ids that the types of a part will have.

ghost use Rattle.std.specs.Prelude.{◌≡◌, ◌<◌, IfOk, IfSome, length, position};
ghost use Rattle.type_layout.specs.Words.{same_bytes};
ghost use Rattle.declaration_checker.specs.type_denoters.Trees.{view_denoter};
ghost use Rattle.declaration_checker.specs.type_denoters.Denoters.{promise_of};
ghost use Rattle.declaration_checker.specs.type_parts.Promised.{alias_of, promised_id, promises};

use crate::type_denoters::Promise;
use crate::type_parts::counts::adds;
use scopes::{Entry, Found, STRING, Scope};
use std::alloc::{AllocError, Global};
use syntax_tree::Identifier;
use syntax_tree::source_tree::TypeDeclaration;
use syntax_tree::type_tree::TypeDenoter;
use type_layout::{Name, Sequence, TypeId};
use typing_rules::UNTYPED;

/// Names with the ids of their types.
pub(crate) type Promises = Sequence<Promise>;

fn promise_place(names: &[Promise], name: &Name) -> Option<usize>
    ensures value { result ≡ position (λ (one : Promise). same_bytes name.now one.name) names.now }
    ensures within { IfSome result (λ place. place < length names.now) }
{
    names.iter().position(|one| *name == one.name)
}

fn promise_of(names: &[Promise], name: &Name) -> Option<TypeId>
    ensures { result ≡ promise_of names.now name.now }
{
    match promise_place(names, name) {
        Some(place) => Some(names[place].ty),
        None => None,
    }
}

// The type that another name of it means.
fn alias_of(scope: &Scope, before: &[Promise], one: &Identifier) -> TypeId
    ensures { result ≡ alias_of scope.now before.now one.now }
{
    if let Some(ty) = promise_of(before, &one.name) {
        return ty;
    }
    match scope.find(&one.name) {
        Some(
            Found::Named {
                entry: Entry::Ty { ty },
                ..
            },
        ) => *ty,
        _ => UNTYPED,
    }
}

fn promised_id(scope: &Scope, before: &[Promise], next: u32, tree: &TypeDenoter) -> TypeId
    ensures { result ≡ promised_id scope.now before.now next (view_denoter tree.now) }
{
    match tree {
        TypeDenoter::Name(one) => alias_of(scope, before, one),
        TypeDenoter::String { length: None, .. } => STRING,
        TypeDenoter::Range(..) | TypeDenoter::Enumeration { .. } => TypeId(next),
        _ => TypeId(next.saturating_add(adds(tree)).saturating_sub(1)),
    }
}

/// The names that a part declares, with the ids that their types will have.
pub(crate) fn promises(
    alloc: Global,
    scope: &Scope,
    all: &[TypeDeclaration],
) -> Result<Promises, AllocError>
    ensures { IfOk result (λ names. names ≡ promises scope.now all.now) }
{
    let mut names = Promises::new(alloc);
    let mut next = scope.types().count();
    for one in all {
        let ty = promised_id(scope, names.as_slice(), next, &one.denoter);
        names.push(Promise {
            name: one.name.name.copied(),
            ty,
        })?;
        next = next.saturating_add(adds(&one.denoter));
    }
    Ok(names)
}
