//! What a source shows.

ghost use Rattle.std.specs.Prelude.{◌≡◌, IfOk, IfErr};
ghost use Rattle.typing_rules.specs.Faults.{Tells, IsAnswered};
ghost use Rattle.typing_rules.specs.Judgements.{Gives};
ghost use Rattle.unit_interface.specs.declared.interfaces.Interface.{Interface};
ghost use Rattle.tp_check_decl.specs.Units.{view_unit};
ghost use Rattle.tp_check_decl.specs.Shown.{outline, nothing_shown, outlined, IsShownAs, FailsInInterface};

use crate::endings::whole;
use crate::fronts::front_judged;
use crate::interfaces::{interface_judged, unit_front};
use crate::items::items_of;
use crate::routines::Draft;
use scopes::Scope;
use std::alloc::Global;
use syntax_tree::Identifier;
use syntax_tree::source_tree::{InterfaceDeclaration, Tree};
use tp_lexer::source_directives::Directives;
use type_layout::Name;
use typed_tree::{Globals, Items, Routines, Unit};
use typing_rules::{CheckError, Refusal, error_for};
use unit_interface::{Interface, interface_of};

// The unit of an interface part, without what the implementation part declares.
fn outline(
    alloc: Global,
    name: &Name,
    says: &Directives,
    own: &Identifier,
    uses: &[Identifier],
    interface: &[InterfaceDeclaration],
    scope: &Scope,
) -> Result<Unit, Refusal>
    ensures { Gives view_unit result (outline name.now says.now scope.now own.now uses.now interface.now).run }
{
    let front = unit_front(alloc, name, says, own, uses)?;
    let (scope, draft) = interface_judged(alloc, interface, scope, name)?;
    let items = items_of(alloc, &scope)?;
    let Draft { globals, .. } = draft;
    let routines = Routines::new(alloc);
    Ok(whole(name, front, scope, items, globals, routines, None))
}

// A program, of which nothing is shown.
fn nothing_shown(
    alloc: Global,
    name: &Name,
    says: &Directives,
    uses: &[Identifier],
    scope: &Scope,
) -> Result<Unit, Refusal>
    ensures { Gives view_unit result (nothing_shown name.now says.now scope.now uses.now).run }
{
    let front = front_judged(alloc, says, uses)?;
    let scope = scope.copy(alloc)?;
    let items = Items::new(alloc);
    let globals = Globals::new(alloc);
    let routines = Routines::new(alloc);
    Ok(whole(name, front, scope, items, globals, routines, None))
}

fn outlined(
    alloc: Global,
    name: &Name,
    tree: &Tree,
    says: &Directives,
    scope: &Scope,
) -> Result<Unit, Refusal>
    ensures { Gives view_unit result (outlined name.now says.now scope.now tree.now).run }
{
    match tree {
        Tree::Program { uses, .. } => { nothing_shown(alloc, name, says, uses.as_slice(), scope) }
        Tree::Unit {
            name: own,
            uses,
            interface,
            ..
        } => {
            let uses = uses.as_slice();
            outline(alloc, name, says, own, uses, interface.as_slice(), scope)
        }
    }
}

/// What a source shows to those that use it, by its interface part alone, over the scope of the units that this part uses: the
/// interface that its unit has. An error names a rule that fails there, or what is left out or too large, and the place.
pub fn check_interface(
    alloc: Global,
    name: &Name,
    tree: &Tree,
    says: &Directives,
    scope: &Scope,
) -> Result<Interface, CheckError>
    // Every rule holds in the interface part, and this is what it shows.
    ensures typed { IfOk result (λ interface. IsShownAs name.now says.now scope.now tree.now interface) }
    // An interface part that shows something is answered by that, unless memory runs out.
    ensures complete { (interface : Interface) → IsShownAs name.now says.now scope.now tree.now interface → IsAnswered (λ one. one) interface result }
    // The interface has the name of its file.
    ensures named { IfOk result (λ interface. interface.name ≡ name.now) }
    // What is told of fails there.
    ensures fails { IfErr result (λ error. Tells (FailsInInterface name.now says.now scope.now tree.now) error) }
{
    match outlined(alloc, name, tree, says, scope) {
        Ok(unit) => match interface_of(alloc, &unit) {
            Ok(interface) => Ok(interface),
            Err(_) => Err(CheckError::NoMemory),
        },
        Err(refusal) => Err(error_for(refusal)),
    }
}
