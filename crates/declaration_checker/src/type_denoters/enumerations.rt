//! Enumerations.

ghost use Rattle.std.specs.Prelude.{◌+◌, ◌≤◌, length};
ghost use Rattle.typing_rules.specs.Judgements.{Gives};
ghost use Rattle.declaration_checker.specs.type_denoters.Additions.{denoted};
ghost use Rattle.declaration_checker.specs.type_denoters.Denoters.{values_entered, enumerated, enumeration_of};

use crate::type_denoters::additions::{added, entered, with_set};
use scopes::{Entry, Scope};
use syntax_tree::Identifier;
use type_layout::{Host, Name, Place, TypeDef, TypeId};
use typed_tree::Value;
use typing_rules::{Refusal, Rule, broken};

// How many values an enumeration has at most.
const MOST: usize = 256;

// Puts the names of values into the innermost block, from the value with this number on.
fn enter_values(
    scope: &mut Scope,
    ty: TypeId,
    number: u16,
    names: &[Identifier],
) -> Result<(), Refusal>
    requires { number + length names.now ≤ 256 }
    ensures { Gives (λ _. scope.new) result (values_entered scope.old ty number names.now).run }
{
    match names {
        [] => Ok(()),
        [one, rest @ ..] => {
            let value = Value::Number(i32::from(number));
            let entry = Entry::Const { ty, value };
            entered(scope, one.position.place, &one.name, entry)?;
            enter_values(scope, ty, number + 1, rest)
        }
    }
}

/// An enumeration that begins at a place. It has at most 256 values, whose names are put into the innermost block; the set over it
/// follows it in the table.
#[tactic(auto, unfolding(crate::specs::type_denoters::Denoters::enumeration_of))]
pub(crate) fn enumeration_of(
    scope: &mut Scope,
    unit: &Name,
    place: Place,
    names: &[Identifier],
) -> Result<TypeId, Refusal>
    ensures { Gives (λ ty. denoted ty scope.new) result (enumeration_of unit.now scope.old place names.now).run }
{
    if names.len() > MOST {
        return Err(Refusal::Because(broken(place, Rule::Constant)));
    }
    let one = TypeDef::Ordinal {
        host: Host::Enumeration,
        low: 0,
        high: names.len() as i32 - 1,
    };
    let ty = added(scope, unit, place, Rule::Constant, one)?;
    with_set(scope, unit, place, ty)?;
    enter_values(scope, ty, 0, names)?;
    Ok(ty)
}
