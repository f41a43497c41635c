//! Names in constants.

ghost use Rattle.std.specs.Prelude.{◌≡◌, Ok};
ghost use Rattle.typing_rules.specs.Judgements.{Gives};
ghost use Rattle.typing_rules.specs.Sorts.{sort_of_type};
ghost use Rattle.typing_rules.specs.Wanted.{constant_type};
ghost use Rattle.constant_checker.specs.constant_expressions.Values.{itself, of_value};
ghost use Rattle.constant_checker.specs.constant_expressions.Constants.{of_entry, of_name};

use crate::constant_expressions::constants::Constant;
use scopes::{Entry, Found, Scope};
use std::alloc::Global;
use tp_lexer::left_out_names::feature_of;
use type_layout::{Name, Place, TypeId, Types};
use typed_tree::Value;
use typing_rules::{Refusal, Rule, Sort, broken, number_type, sort_of_type, undeclared};

fn constant_type(types: &Types, ty: TypeId, number: i32) -> TypeId
    ensures { result ≡ constant_type ty number (sort_of_type types.now.types ty) }
{
    match sort_of_type(types, ty) {
        Sort::Integer(_) => number_type(number),
        _ => ty,
    }
}

/// The value of a named constant, as it stands in an expression.
pub(crate) fn of_value(
    alloc: Global,
    types: &Types,
    ty: TypeId,
    value: &Value,
) -> Result<Constant, Refusal>
    ensures { Gives itself result (Ok (of_value types.now.types ty value.now)) }
{
    Ok(match value {
        Value::Number(number) => Constant {
            ty: constant_type(types, ty, *number),
            value: Value::Number(*number),
        },
        Value::Chars(bytes) => Constant {
            ty,
            value: Value::Chars(bytes.copied(alloc)?),
        },
        Value::Nil => Constant {
            ty,
            value: Value::Nil,
        },
        Value::Elements(bytes) => Constant {
            ty,
            value: Value::Elements(bytes.copied(alloc)?),
        },
    })
}

fn of_entry(alloc: Global, types: &Types, place: Place, entry: &Entry) -> Result<Constant, Refusal>
    ensures { Gives itself result (of_entry types.now.types place entry.now).run }
{
    match entry {
        Entry::Const { ty, value } => of_value(alloc, types, *ty, value),
        Entry::Ty { .. } => Err(Refusal::Because(broken(place, Rule::Stands))),
        Entry::Var { .. } | Entry::Code { .. } | Entry::Std { .. } => {
            Err(Refusal::Because(broken(place, Rule::Constant)))
        }
    }
}

/// The constant that a name at a place is.
#[tactic(auto, unfolding(crate::specs::constant_expressions::Constants::of_name))]
pub(crate) fn of_name(
    alloc: Global,
    scope: &Scope,
    place: Place,
    name: &Name,
) -> Result<Constant, Refusal>
    ensures { Gives itself result (of_name scope.now place name.now).run }
{
    match scope.find(name) {
        None => Err(Refusal::Because(undeclared(place, feature_of(name)))),
        Some(Found::Named { entry, .. }) => of_entry(alloc, scope.types(), place, entry),
        Some(Found::Member { .. }) => Err(Refusal::Because(broken(place, Rule::Constant))),
    }
}
