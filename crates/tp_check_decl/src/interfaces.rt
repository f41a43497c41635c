//! Interface parts, and units.

ghost use Rattle.std.specs.Prelude.{◌≡◌, drop, option_copied};
ghost use Rattle.typing_rules.specs.Judgements.{Gives};
ghost use Rattle.tp_check_decl.specs.routines.Trees.{view_declarations};
ghost use Rattle.tp_check_decl.specs.routines.Drafts.{drafted, stage};
ghost use Rattle.tp_check_decl.specs.Units.{view_unit};
ghost use Rattle.tp_check_decl.specs.Interfaces.{declared, all_declared, interface_judged, is_name_of, named_so, unit_front, further_used, all_used, implemented, unit_judged};

use crate::endings::ended;
use crate::fronts::{Front, front_judged, is_overlay, is_system};
use crate::items::items_of;
use crate::programs::{empty_draft, opened, unit_site};
use crate::routines::{Draft, all_judged, heading, part_judged};
use scopes::Scope;
use std::alloc::Global;
use syntax_tree::source_tree::{Declaration, InterfaceDeclaration};
use syntax_tree::{CompoundStatement, Identifier};
use tp_lexer::source_directives::Directives;
use type_layout::Name;
use typed_tree::{Items, Locals, Unit};
use typing_rules::{Refusal, Rule, broken};
use unit_interface::{Interface, MergeError, use_unit};

fn declared(
    alloc: Global,
    one: &InterfaceDeclaration,
    scope: &mut Scope,
    draft: &mut Draft,
    locals: &mut Locals,
    unit: &Name,
) -> Result<(), Refusal>
    ensures { Gives (λ _. stage (drafted scope.new draft.new) locals.new) result (declared unit.now (stage (drafted scope.old draft.old) locals.old) one.now).run }
{
    match one {
        InterfaceDeclaration::Part(one) => {
            part_judged(alloc, one, scope, draft, locals, unit, unit_site())
        }
        InterfaceDeclaration::Header(one) => heading(alloc, one, scope, draft, unit_site(), true),
    }
}

fn all_declared(
    alloc: Global,
    all: &[InterfaceDeclaration],
    scope: &mut Scope,
    draft: &mut Draft,
    locals: &mut Locals,
    unit: &Name,
) -> Result<(), Refusal>
    ensures { Gives (λ _. stage (drafted scope.new draft.new) locals.new) result (all_declared unit.now (stage (drafted scope.old draft.old) locals.old) all.now).run }
{
    for one in all {
        declared(alloc, one, scope, draft, locals, unit)?;
    }
    Ok(())
}

// A unit behind its interface part.
#[tactic(auto, unfolding(crate::specs::Interfaces::interface_judged))]
pub(crate) fn interface_judged(
    alloc: Global,
    all: &[InterfaceDeclaration],
    scope: &Scope,
    name: &Name,
) -> Result<(Scope, Draft), Refusal>
    ensures { Gives (λ read. drafted read.0 read.1) result (interface_judged name.now scope.now all.now).run }
{
    let mut inner = opened(alloc, scope)?;
    let mut draft = empty_draft(alloc);
    let mut locals = Locals::new(alloc);
    all_declared(alloc, all, &mut inner, &mut draft, &mut locals, name)?;
    Ok((inner, draft))
}

fn is_name_of(file: &Name, name: &Name) -> bool
    ensures { result ≡ is_name_of file.now name.now }
{
    *name == *file && !(is_system(name) || is_overlay(name))
}

fn named_so(file: &Name, own: &Identifier) -> Result<(), Refusal>
    ensures { Gives (λ _. tt) result (named_so file.now own.now).run }
{
    if is_name_of(file, &own.name) {
        Ok(())
    } else {
        let place = own.position.place;
        Err(Refusal::Because(broken(place, Rule::SourceName)))
    }
}

/// The used units of a unit with its name, and what its directives say.
#[tactic(auto, unfolding(crate::specs::Interfaces::unit_front))]
pub(crate) fn unit_front(
    alloc: Global,
    name: &Name,
    says: &Directives,
    own: &Identifier,
    uses: &[Identifier],
) -> Result<Front, Refusal>
    ensures { Gives (λ front. front) result (unit_front name.now says.now own.now uses.now).run }
{
    named_so(name, own)?;
    front_judged(alloc, says, uses)
}

// The used units behind the first ones.
fn units_behind(uses: &[Identifier], first: usize) -> &[Identifier]
    ensures { result.now ≡ drop first uses.now }
{
    &uses[first.min(uses.len())..]
}

// A further used unit comes into the scope, where the types that it shows fit those that are there.
fn further_used(
    alloc: Global,
    have: &[Interface],
    one: &Identifier,
    scope: &mut Scope,
) -> Result<(), Refusal>
    ensures { Gives (λ _. scope.new) result (further_used have.now scope.old one.now).run }
{
    match use_unit(alloc, scope, have, &one.name) {
        Ok(()) => Ok(()),
        Err(MergeError::Mismatch) => {
            let place = one.position.place;
            Err(Refusal::Because(broken(place, Rule::UnitNamed)))
        }
        Err(MergeError::NoMemory) => Err(Refusal::NoMemory),
    }
}

fn all_used(
    alloc: Global,
    have: &[Interface],
    uses: &[Identifier],
    scope: &mut Scope,
) -> Result<(), Refusal>
    ensures { Gives (λ _. scope.new) result (all_used have.now scope.old uses.now).run }
{
    for one in uses {
        further_used(alloc, have, one, scope)?;
    }
    Ok(())
}

// The unit behind what its implementation part uses, with its implementation part.
fn implemented(
    alloc: Global,
    all: &[Declaration],
    body: Option<&CompoundStatement>,
    scope: Scope,
    draft: Draft,
    name: &Name,
    front: Front,
    items: Items,
) -> Result<Unit, Refusal>
    ensures { Gives view_unit result (implemented name.now front items (view_declarations all.now) (option_copied body.entry) (drafted scope draft)).run }
{
    let mut scope = scope;
    let mut draft = draft;
    let mut locals = Locals::new(alloc);
    all_judged(
        alloc,
        all,
        &mut scope,
        &mut draft,
        &mut locals,
        name,
        unit_site(),
    )?;
    ended(alloc, body, scope, draft, name, front, items)
}

/// A unit over what is known by the first of its used units, which its interface part names. What the others show, which its
/// implementation part uses, comes into the scope behind the interface part.
pub(crate) fn unit_judged(
    alloc: Global,
    name: &Name,
    says: &Directives,
    own: &Identifier,
    uses: &[Identifier],
    interface_uses: usize,
    interface: &[InterfaceDeclaration],
    all: &[Declaration],
    body: Option<&CompoundStatement>,
    scope: &Scope,
    have: &[Interface],
) -> Result<Unit, Refusal>
    ensures { Gives view_unit result (unit_judged name.now says.now scope.now have.now own.now uses.now interface_uses interface.now (view_declarations all.now) (option_copied body.entry)).run }
{
    let front = unit_front(alloc, name, says, own, uses)?;
    let (mut scope, draft) = interface_judged(alloc, interface, scope, name)?;
    let items = items_of(alloc, &scope)?;
    let further = units_behind(uses, interface_uses);
    all_used(alloc, have, further, &mut scope)?;
    implemented(alloc, all, body, scope, draft, name, front, items)
}
