//! Variables.

ghost use Rattle.typing_rules.specs.Judgements.{Gives};
ghost use Rattle.declaration_checker.specs.declarations.Progress.{progress};
ghost use Rattle.declaration_checker.specs.declarations.Variables.{variable_declared, names_declared, group_declared, variables_declared};

use crate::declarations::homes::{Home, level_of, number_behind};
use crate::type_denoters::{entered, judged_denoter};
use scopes::{Entry, Scope};
use std::alloc::Global;
use syntax_tree::Identifier;
use syntax_tree::source_tree::VariableDeclaration;
use type_layout::{Name, TypeId};
use typed_tree::{Global as Variable, Globals, Locals};
use typing_rules::Refusal;

fn variable_declared(
    one: &Identifier,
    ty: TypeId,
    scope: &mut Scope,
    globals: &mut Globals,
    locals: &mut Locals,
    home: Home,
) -> Result<(), Refusal>
    ensures { Gives (λ _. progress scope.new globals.new locals.new) result (variable_declared home ty (progress scope.old globals.old locals.old) one.now).run }
{
    let entry = Entry::Var {
        unit: 0,
        level: level_of(home),
        number: number_behind(home, globals.as_slice(), locals.as_slice()),
        ty,
    };
    entered(scope, one.position.place, &one.name, entry)?;
    match home {
        Home::Unit => globals.push(Variable { ty, first: None })?,
        Home::Routine { .. } => locals.push(ty)?,
    }
    Ok(())
}

fn names_declared(
    names: &[Identifier],
    ty: TypeId,
    scope: &mut Scope,
    globals: &mut Globals,
    locals: &mut Locals,
    home: Home,
) -> Result<(), Refusal>
    ensures { Gives (λ _. progress scope.new globals.new locals.new) result (names_declared home ty (progress scope.old globals.old locals.old) names.now).run }
{
    for one in names {
        variable_declared(one, ty, scope, globals, locals, home)?;
    }
    Ok(())
}

fn group_declared(
    alloc: Global,
    one: &VariableDeclaration,
    scope: &mut Scope,
    globals: &mut Globals,
    locals: &mut Locals,
    unit: &Name,
    home: Home,
) -> Result<(), Refusal>
    ensures { Gives (λ _. progress scope.new globals.new locals.new) result (group_declared unit.now home (progress scope.old globals.old locals.old) one.now).run }
{
    let ty = judged_denoter(alloc, &one.denoter, scope, unit, &[])?;
    names_declared(one.names.as_slice(), ty, scope, globals, locals, home)
}

/// Variables, group by group. Each group has one type.
pub(crate) fn variables_declared(
    alloc: Global,
    all: &[VariableDeclaration],
    scope: &mut Scope,
    globals: &mut Globals,
    locals: &mut Locals,
    unit: &Name,
    home: Home,
) -> Result<(), Refusal>
    ensures { Gives (λ _. progress scope.new globals.new locals.new) result (variables_declared unit.now home (progress scope.old globals.old locals.old) all.now).run }
{
    for one in all {
        group_declared(alloc, one, scope, globals, locals, unit, home)?;
    }
    Ok(())
}
