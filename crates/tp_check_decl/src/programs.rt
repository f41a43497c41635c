//! Programs.

ghost use Rattle.std.specs.Prelude.{◌≡◌, [], IfOk};
ghost use Rattle.scopes.specs.declared.entries.BlockKind.TheVariants.{Part};
ghost use Rattle.scopes.specs.Environment.{with_block};
ghost use Rattle.typing_rules.specs.Judgements.{Gives};
ghost use Rattle.tp_check_decl.specs.routines.Trees.{view_declarations};
ghost use Rattle.tp_check_decl.specs.routines.Drafts.{drafted};
ghost use Rattle.tp_check_decl.specs.Units.{view_unit};
ghost use Rattle.tp_check_decl.specs.Programs.{unit_site, is_free, named_freely, declarations_judged, program_judged};

use crate::endings::ended;
use crate::fronts::{front_judged, is_overlay, is_system};
use crate::routines::{Draft, Site, all_judged};
use declaration_checker::declarations::Home;
use scopes::{BlockKind, Scope};
use std::alloc::{AllocError, Global};
use syntax_tree::source_tree::Declaration;
use syntax_tree::{CompoundStatement, Identifier};
use tp_lexer::source_directives::Directives;
use type_layout::{Name, Place};
use typed_tree::{Globals, Items, Locals, Unit};
use typing_rules::{Refusal, Rule, broken};

/// The unit's own block.
pub(crate) fn unit_site() -> Site
    ensures { result ≡ unit_site }
{
    Site {
        home: Home::Unit,
        outer: None,
    }
}

/// A copy of a scope with the block of the unit.
pub(crate) fn opened(alloc: Global, scope: &Scope) -> Result<Scope, AllocError>
    ensures { IfOk result (λ inner. inner ≡ with_block scope.now Part) }
{
    let mut inner = scope.copy(alloc)?;
    inner.begin(BlockKind::Part)?;
    Ok(inner)
}

/// A unit without anything that it declares.
pub(crate) fn empty_draft(alloc: Global) -> Draft
    ensures globals { result.globals ≡ [] }
    ensures slots { result.slots.items ≡ [] }
{
    Draft {
        globals: Globals::new(alloc),
        slots: Vec::new(alloc),
    }
}

fn is_free(file: &Name) -> bool
    ensures { result ≡ is_free file.now }
{
    !(is_system(file) || is_overlay(file))
}

// The file of a program that begins at a place has the name of no predeclared unit.
fn named_freely(file: &Name, first: Option<Place>) -> Result<(), Refusal>
    ensures { Gives (λ _. tt) result (named_freely file.now first).run }
{
    match first {
        Some(place) if !is_free(file) => Err(Refusal::Because(broken(place, Rule::SourceName))),
        _ => Ok(()),
    }
}

// A program behind what it declares.
#[tactic(auto, unfolding(crate::specs::Programs::declarations_judged))]
fn declarations_judged(
    alloc: Global,
    all: &[Declaration],
    scope: &Scope,
    name: &Name,
) -> Result<(Scope, Draft), Refusal>
    ensures { Gives (λ read. drafted read.0 read.1) result (declarations_judged name.now scope.now (view_declarations all.now)).run }
{
    let mut inner = opened(alloc, scope)?;
    let mut draft = empty_draft(alloc);
    let mut locals = Locals::new(alloc);
    let site = unit_site();
    all_judged(alloc, all, &mut inner, &mut draft, &mut locals, name, site)?;
    Ok((inner, draft))
}

/// A program over what is known by the units that it uses.
pub(crate) fn program_judged(
    alloc: Global,
    name: &Name,
    says: &Directives,
    uses: &[Identifier],
    all: &[Declaration],
    body: &CompoundStatement,
    scope: &Scope,
) -> Result<Unit, Refusal>
    ensures { Gives view_unit result (program_judged name.now says.now scope.now uses.now (view_declarations all.now) body.now).run }
{
    named_freely(name, says.first)?;
    let front = front_judged(alloc, says, uses)?;
    let (scope, draft) = declarations_judged(alloc, all, scope, name)?;
    let items = Items::new(alloc);
    ended(alloc, Some(body), scope, draft, name, front, items)
}
