//! The names of a part of type declarations.

ghost use Rattle.std.specs.Prelude.{◌≡◌, ◌<◌, IfSome, length, position};
ghost use Rattle.type_layout.specs.Words.{same_bytes};
ghost use Rattle.typing_rules.specs.Judgements.{Gives};
ghost use Rattle.declaration_checker.specs.headers.Names.{itself};
ghost use Rattle.declaration_checker.specs.type_denoters.Denoters.{promise_of, target_of};

use crate::headers::type_named;
use scopes::Scope;
use syntax_tree::Identifier;
use type_layout::{Name, TypeId};
use typing_rules::Refusal;

/// A name that a part of type declarations declares, with the id that its type has, or will have further on.
#[derive(Debug, Drop)]
pub struct Promise {
    pub name: Name,
    pub ty: TypeId,
}

fn promise_place(names: &[Promise], name: &Name) -> Option<usize>
    ensures value { result ≡ position (λ (one : Promise). same_bytes name.now one.name) names.now }
    ensures within { IfSome result (λ place. place < length names.now) }
{
    names.iter().position(|one| *name == one.name)
}

fn promise_of(names: &[Promise], name: &Name) -> Option<TypeId>
    ensures { result ≡ promise_of names.now name.now }
{
    match promise_place(names, name) {
        Some(place) => Some(names[place].ty),
        None => None,
    }
}

/// The type that a pointer's target means: that of the same part of declarations, if it declares the name, else the one that is
/// visible.
pub(crate) fn target_of(
    names: &[Promise],
    scope: &Scope,
    target: &Identifier,
) -> Result<TypeId, Refusal>
    ensures { Gives itself result (target_of names.now scope.now target.now).run }
{
    match promise_of(names, &target.name) {
        Some(ty) => Ok(ty),
        None => type_named(scope, target.position.place, &target.name),
    }
}
