//! Constants, and variables that begin with a value.

ghost use Rattle.syntax_tree.specs.expression_tree.Trees.{view_simple};
ghost use Rattle.typing_rules.specs.Judgements.{Gives};
ghost use Rattle.declaration_checker.specs.type_denoters.Trees.{view_denoter};
ghost use Rattle.constant_checker.specs.typed_constants.Trees.{view_initializer};
ghost use Rattle.declaration_checker.specs.declarations.Progress.{progress};
ghost use Rattle.declaration_checker.specs.declarations.Constants.{plain_constant, static_declared, typed_constant, constant_declared, constants_declared};

use crate::declarations::homes::{Home, number_behind};
use crate::type_denoters::{entered, judged_denoter};
use constant_checker::constant_expressions::{Constant, constant_of};
use constant_checker::typed_constants::first_value;
use scopes::{Entry, Scope};
use std::alloc::Global;
use syntax_tree::source_tree::ConstantDeclaration;
use syntax_tree::type_tree::{Initializer, TypeDenoter};
use syntax_tree::{Identifier, SimpleExpression};
use type_layout::{Bytes, Name, TypeId};
use typed_tree::{Global as Variable, Globals, Locals};
use typing_rules::Refusal;

// A name for the value of a constant expression, in which it isn't known yet.
fn plain_constant(
    alloc: Global,
    name: &Identifier,
    value: &SimpleExpression,
    scope: &mut Scope,
) -> Result<(), Refusal>
    ensures { Gives (λ _. scope.new) result (plain_constant scope.old name.now (view_simple value.now)).run }
{
    let Constant { ty, value } = constant_of(alloc, value, scope)?;
    let entry = Entry::Const { ty, value };
    entered(scope, name.position.place, &name.name, entry)
}

// The unit's next variable, which begins with these bytes.
fn static_declared(
    name: &Identifier,
    ty: TypeId,
    bytes: Bytes,
    scope: &mut Scope,
    globals: &mut Globals,
    locals: &mut Locals,
) -> Result<(), Refusal>
    ensures { Gives (λ _. progress scope.new globals.new locals.new) result (static_declared (progress scope.old globals.old locals.old) ty name.now bytes).run }
{
    let entry = Entry::Var {
        unit: 0,
        level: 0,
        number: number_behind(Home::Unit, globals.as_slice(), locals.as_slice()),
        ty,
    };
    entered(scope, name.position.place, &name.name, entry)?;
    let first = Some(bytes);
    globals.push(Variable { ty, first })?;
    Ok(())
}

// A variable of the unit with its first value.
fn typed_constant(
    alloc: Global,
    name: &Identifier,
    denoter: &TypeDenoter,
    value: &Initializer,
    scope: &mut Scope,
    globals: &mut Globals,
    locals: &mut Locals,
    unit: &Name,
) -> Result<(), Refusal>
    ensures { Gives (λ _. progress scope.new globals.new locals.new) result (typed_constant unit.now (progress scope.old globals.old locals.old) name.now (view_denoter denoter.now) (view_initializer value.now)).run }
{
    let ty = judged_denoter(alloc, denoter, scope, unit, &[])?;
    let bytes = first_value(alloc, value, scope, name.position.place, ty)?;
    static_declared(name, ty, bytes, scope, globals, locals)
}

fn constant_declared(
    alloc: Global,
    one: &ConstantDeclaration,
    scope: &mut Scope,
    globals: &mut Globals,
    locals: &mut Locals,
    unit: &Name,
) -> Result<(), Refusal>
    ensures { Gives (λ _. progress scope.new globals.new locals.new) result (constant_declared unit.now (progress scope.old globals.old locals.old) one.now).run }
{
    match one {
        ConstantDeclaration::Plain { name, value } => plain_constant(alloc, name, value, scope),
        ConstantDeclaration::Typed {
            name,
            denoter,
            value,
        } => typed_constant(alloc, name, denoter, value, scope, globals, locals, unit),
    }
}

/// Constants, one after the other; typed ones are variables of the unit, whosever block declares them.
pub(crate) fn constants_declared(
    alloc: Global,
    all: &[ConstantDeclaration],
    scope: &mut Scope,
    globals: &mut Globals,
    locals: &mut Locals,
    unit: &Name,
) -> Result<(), Refusal>
    ensures { Gives (λ _. progress scope.new globals.new locals.new) result (constants_declared unit.now (progress scope.old globals.old locals.old) all.now).run }
{
    for one in all {
        constant_declared(alloc, one, scope, globals, locals, unit)?;
    }
    Ok(())
}
