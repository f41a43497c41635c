//! Types by their names.

ghost use Rattle.typing_rules.specs.Judgements.{Gives};
ghost use Rattle.declaration_checker.specs.headers.Names.{itself, of_entry, type_named, named_type};

use scopes::{Entry, Found, STRING, Scope};
use syntax_tree::type_tree::NamedType;
use tp_lexer::left_out_names::feature_of;
use type_layout::{Name, Place, TypeId};
use typing_rules::{Refusal, Rule, broken, undeclared};

fn of_entry(place: Place, entry: &Entry) -> Result<TypeId, Refusal>
    ensures { Gives itself result (of_entry place entry.now).run }
{
    match entry {
        Entry::Ty { ty } => Ok(*ty),
        Entry::Const { .. } | Entry::Var { .. } | Entry::Code { .. } | Entry::Std { .. } => {
            Err(Refusal::Because(broken(place, Rule::Stands)))
        }
    }
}

/// The type that a name at a place means. A name that means nothing is not declared, and one of something else can't stand there.
#[tactic(auto, unfolding(crate::specs::headers::Names::type_named))]
pub fn type_named(scope: &Scope, place: Place, name: &Name) -> Result<TypeId, Refusal>
    ensures { Gives itself result (type_named scope.now place name.now).run }
{
    match scope.find(name) {
        None => Err(Refusal::Because(undeclared(place, feature_of(name)))),
        Some(Found::Named { entry, .. }) => of_entry(place, entry),
        Some(Found::Member { .. }) => Err(Refusal::Because(broken(place, Rule::Stands))),
    }
}

/// The type of a parameter or of a result.
pub fn named_type(scope: &Scope, one: &NamedType) -> Result<TypeId, Refusal>
    ensures { Gives itself result (named_type scope.now one.now).run }
{
    match one {
        NamedType::Name(name) => type_named(scope, name.position.place, &name.name),
        NamedType::String(_) => Ok(STRING),
    }
}
