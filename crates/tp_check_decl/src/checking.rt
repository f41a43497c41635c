//! The checker of sources.

ghost use Rattle.std.specs.Prelude.{◌≡◌, ◌<◌, ◌^◌, All, IfOk, IfErr, length};
ghost use Rattle.typed_tree.specs.type_fits.Routines.{HasInitial};
ghost use Rattle.typing_rules.specs.Faults.{Tells, answer_of, IsAnswered};
ghost use Rattle.typing_rules.specs.Judgements.{Gives};
ghost use Rattle.tp_check_decl.specs.Units.{Whole, view_unit};
ghost use Rattle.tp_check_decl.specs.Limits.{KeepsLimit};
ghost use Rattle.tp_check_decl.specs.Checked.{judged, IsTypedAs, FailsAt};
ghost use Rattle.tp_check_decl.specs.Laws.{AreExact};

use crate::interfaces::unit_judged;
use crate::programs::program_judged;
use scopes::Scope;
use std::alloc::Global;
use syntax_tree::source_tree::Tree;
use tp_lexer::source_directives::Directives;
use type_layout::Name;
use typed_tree::Unit;
use typing_rules::{CheckError, Refusal, error_for};
use unit_interface::Interface;

fn judged(
    alloc: Global,
    name: &Name,
    tree: &Tree,
    says: &Directives,
    scope: &Scope,
    have: &[Interface],
) -> Result<Unit, Refusal>
    ensures { Gives view_unit result (judged name.now says.now scope.now have.now tree.now).run }
{
    match tree {
        Tree::Program {
            uses,
            declarations,
            body,
            ..
        } => {
            let uses = uses.as_slice();
            let all = declarations.as_slice();
            program_judged(alloc, name, says, uses, all, body, scope)
        }
        Tree::Unit {
            name: own,
            uses,
            interface_uses,
            interface,
            declarations,
            body,
            ..
        } => unit_judged(
            alloc,
            name,
            says,
            own,
            uses.as_slice(),
            *interface_uses,
            interface.as_slice(),
            declarations.as_slice(),
            body.as_ref(),
            scope,
            have,
        ),
    }
}

// What users are told.
fn answered(found: Result<Unit, Refusal>) -> Result<Unit, CheckError>
    ensures { result ≡ answer_of found }
{
    match found {
        Ok(unit) => Ok(unit),
        Err(refusal) => Err(error_for(refusal)),
    }
}

/// The typed unit of a source with its directives, over the scope of the units that its interface part uses, for which its file's name
/// was resolved; a program's are all that it uses. What the units show that the implementation part uses, as told by the first of
/// these interfaces with their names, comes into the scope behind the interface part. An error names a rule that fails, or what is
/// left out or too large, and the place; a unit whose types don't fit those that are there is told at its name.
pub fn check(
    alloc: Global,
    name: &Name,
    tree: &Tree,
    says: &Directives,
    scope: &Scope,
    have: &[Interface],
) -> Result<Unit, CheckError>
    // Every rule holds in the source, and this is its unit.
    ensures typed { IfOk result (λ unit. IsTypedAs name.now says.now scope.now have.now tree.now (view_unit unit)) }
    // A source with a unit is given it, unless memory runs out.
    ensures complete { (unit : Whole) → IsTypedAs name.now says.now scope.now have.now tree.now unit → IsAnswered view_unit unit result }
    // The unit has the name of its file.
    ensures named { IfOk result (λ unit. unit.name ≡ name.now) }
    // Its main or initialisation part, if there is one, is a far procedure among its routines.
    ensures initial { IfOk result (λ unit. length unit.routines < 2 ^ 32 → HasInitial unit.routines unit.initial) }
    // Each of its routines takes at most 65,000 bytes of the stack for itself.
    ensures small { IfOk result (λ unit. All (KeepsLimit unit.types.types) unit.routines) }
    // What is told of fails there.
    ensures fails { IfErr result (λ error. Tells (FailsAt name.now says.now scope.now have.now tree.now) error) }
{
    answered(judged(alloc, name, tree, says, scope, have))
}

/// A source has a typed unit exactly where no rule fails in it, and then one alone.
pub fn unit_laws()
    ensures { AreExact }
{}
