//! Parameters, group by group.

ghost use Rattle.std.specs.Prelude.{◌≡◌};
ghost use Rattle.typing_rules.specs.Judgements.{Gives};
ghost use Rattle.declaration_checker.specs.headers.Parameters.{has_param, names_onto, group_onto, parameters};

use crate::headers::names::named_type;
use scopes::Scope;
use std::alloc::Global;
use syntax_tree::Identifier;
use syntax_tree::type_tree::ParameterGroup;
use type_layout::{Name, Param, Params, TypeId};
use typing_rules::{Refusal, Rule, broken};

fn has_param(params: &[Param], name: &Name) -> bool
    ensures { result ≡ has_param params.now name.now }
{
    params.iter().any(|param| *name == param.name)
}

// Puts the names of a group behind the parameters that are there.
fn add_names(
    params: &mut Params,
    by_ref: bool,
    ty: TypeId,
    names: &[Identifier],
) -> Result<(), Refusal>
    ensures { Gives (λ _. params.new) result (names_onto params.old by_ref ty names.now).run }
{
    for one in names {
        if has_param(params.as_slice(), &one.name) {
            let place = one.position.place;
            return Err(Refusal::Because(broken(place, Rule::Duplicate)));
        }
        params.push(Param {
            name: one.name.copied(),
            by_ref,
            ty,
        })?;
    }
    Ok(())
}

fn add_group(scope: &Scope, params: &mut Params, group: &ParameterGroup) -> Result<(), Refusal>
    ensures { Gives (λ _. params.new) result (group_onto scope.now params.old group.now).run }
{
    match group {
        ParameterGroup::Variable { names, of, .. } => {
            let ty = named_type(scope, of)?;
            add_names(params, true, ty, names.as_slice())
        }
        ParameterGroup::Value { names, of } => {
            let ty = named_type(scope, of)?;
            add_names(params, false, ty, names.as_slice())
        }
    }
}

/// The parameters of a list of groups, each with a name of its own.
pub(crate) fn parameters(
    alloc: Global,
    scope: &Scope,
    groups: &[ParameterGroup],
) -> Result<Params, Refusal>
    ensures { Gives (λ params. params) result (parameters scope.now groups.now).run }
{
    let mut params = Params::new(alloc);
    for group in groups {
        add_group(scope, &mut params, group)?;
    }
    Ok(params)
}
