//! Routines with what is declared inside them.

ghost use Rattle.typing_rules.specs.Judgements.{Gives};
ghost use Rattle.tp_check_decl.specs.routines.Trees.{plain, method, view_routine, view_declarations};
ghost use Rattle.tp_check_decl.specs.routines.Drafts.{drafted, stage};
ghost use Rattle.tp_check_decl.specs.routines.Headings.{opened};
ghost use Rattle.tp_check_decl.specs.routines.Blocks.{part_judged, block_judged, judged, all_judged};

use crate::routines::drafts::{Begun, Draft, Site, next_for, next_number};
use crate::routines::headings::{begins, heading};
use crate::routines::insides::{ended, inside, site_in};
use crate::routines::method_headings::method_opened;
use crate::routines::methods::{announce_part, header_place};
use crate::routines::repeats::opened_of;
use declaration_checker::declarations::part_declared;
use scopes::Scope;
use std::alloc::Global;
use syntax_tree::Identifier;
use syntax_tree::source_tree::{Block, Declaration, DeclarationPart, Routine, RoutineHeader};
use syntax_tree::type_tree::MethodHeader;
use type_layout::{Name, Place};
use typed_tree::Locals;
use typing_rules::Refusal;

/// Constants, types or variables of a block. The unit then has the routines of the object types among them.
#[tactic(auto, unfolding(crate::specs::routines::Blocks::part_judged))]
pub fn part_judged(
    alloc: Global,
    one: &DeclarationPart,
    scope: &mut Scope,
    draft: &mut Draft,
    locals: &mut Locals,
    unit: &Name,
    site: Site,
) -> Result<(), Refusal>
    ensures { Gives (λ _. stage (drafted scope.new draft.new) locals.new) result (part_judged unit.now site (stage (drafted scope.old draft.old) locals.old) one.now).run }
{
    let next = next_for(site.home, next_number(draft.slots.as_slice()));
    let globals = &mut draft.globals;
    part_declared(alloc, one, scope, globals, locals, unit, site.home, next)?;
    announce_part(alloc, &mut draft.slots, scope, one)
}

#[cycle(blocks)]
fn judged(
    alloc: Global,
    tree: &Routine,
    scope: &mut Scope,
    draft: &mut Draft,
    unit: &Name,
    site: Site,
) -> Result<(), Refusal>
    ensures { Gives (λ _. drafted scope.new draft.new) result (judged unit.now site (drafted scope.old draft.old) (view_routine tree.now)).run }
{
    match tree {
        Routine::Forward(one) => heading(alloc, one, scope, draft, site, false),
        Routine::Plain { header, block } => plain(alloc, block, header, scope, draft, unit, site),
        Routine::Method {
            header,
            owner,
            block,
        } => method(alloc, block, header, owner, scope, draft, unit, site),
    }
}

// The block behind a header at a place.
#[cycle(blocks)]
fn block_judged(
    alloc: Global,
    block: &Block,
    place: Place,
    begun: Begun,
    scope: &mut Scope,
    draft: &mut Draft,
    unit: &Name,
    site: Site,
) -> Result<(), Refusal>
    ensures { Gives (λ _. drafted scope.new draft.new) result (block_judged site place (opened begun (drafted scope.old draft.old)) block.now.body (λ inner s. all_judged unit.now inner s (view_declarations block.now.declarations.items))).run }
{
    let inner = site_in(site, &begun);
    inside(scope, inner, place, &begun)?;
    let mut locals = Locals::new(alloc);
    let all = block.declarations.as_slice();
    all_judged(alloc, all, scope, draft, &mut locals, unit, inner)?;
    ended(
        alloc,
        &block.body,
        scope,
        draft,
        inner,
        begun.number,
        place,
        locals,
    )
}

// A routine with its block.
#[cycle(blocks)]
fn plain(
    alloc: Global,
    block: &Block,
    one: &RoutineHeader,
    scope: &mut Scope,
    draft: &mut Draft,
    unit: &Name,
    site: Site,
) -> Result<(), Refusal>
    ensures { Gives (λ _. drafted scope.new draft.new) result (judged unit.now site (drafted scope.old draft.old) (plain one.now (view_declarations block.now.declarations.items) block.now.body)).run }
{
    let begun = opened_of(alloc, one, scope, draft, site)?;
    block_judged(
        alloc,
        block,
        begins(one).place,
        begun,
        scope,
        draft,
        unit,
        site,
    )
}

// A method with its block.
#[cycle(blocks)]
fn method(
    alloc: Global,
    block: &Block,
    one: &MethodHeader,
    owner: &Identifier,
    scope: &mut Scope,
    draft: &mut Draft,
    unit: &Name,
    site: Site,
) -> Result<(), Refusal>
    ensures { Gives (λ _. drafted scope.new draft.new) result (judged unit.now site (drafted scope.old draft.old) (method one.now owner.now (view_declarations block.now.declarations.items) block.now.body)).run }
{
    let begun = method_opened(alloc, scope, draft, site, one, owner)?;
    block_judged(
        alloc,
        block,
        header_place(one),
        begun,
        scope,
        draft,
        unit,
        site,
    )
}

/// The declarations of a block, one after the other.
#[cycle(blocks)]
pub fn all_judged(
    alloc: Global,
    all: &[Declaration],
    scope: &mut Scope,
    draft: &mut Draft,
    locals: &mut Locals,
    unit: &Name,
    site: Site,
) -> Result<(), Refusal>
    ensures { Gives (λ _. stage (drafted scope.new draft.new) locals.new) result (all_judged unit.now site (stage (drafted scope.old draft.old) locals.old) (view_declarations all.now)).run }
{
    for one in all {
        match one {
            Declaration::Part(one) => part_judged(alloc, one, scope, draft, locals, unit, site)?,
            Declaration::Routine(one) => judged(alloc, one, scope, draft, unit, site)?,
        }
    }
    Ok(())
}
