//! Units behind their declarations.

ghost use Rattle.std.specs.Prelude.{◌≡◌, map, length, option_copied};
ghost use Rattle.typed_tree.specs.Statements.{view_stmt};
ghost use Rattle.scopes.specs.Members.{narrow};
ghost use Rattle.typing_rules.specs.Judgements.{Gives};
ghost use Rattle.tp_check_decl.specs.routines.Drafts.{view_slot, drafted};
ghost use Rattle.tp_check_decl.specs.Units.{view_routine, view_unit, main_part, whole};
ghost use Rattle.tp_check_decl.specs.Endings.{finished_by, all_finished, main_judged, ended};

use crate::fronts::Front;
use crate::limits::within_limit;
use crate::routines::{Draft, Made, Slot};
use scopes::Scope;
use std::alloc::Global;
use syntax_tree::CompoundStatement;
use tp_check_stmt::compound;
use type_layout::{Header, Kind, Name, Params, Types};
use typed_tree::{Globals, Items, Locals, Routine, Routines, Stmt, Unit};
use typing_rules::{Refusal, Rule, broken};

fn finished(types: &Types, slot: Slot) -> Result<Routine, Refusal>
    ensures { Gives view_routine result (finished_by types.now.types (view_slot slot).first (view_slot slot).done).run }
{
    let Slot { first, made } = slot;
    match made {
        None => Err(Refusal::Because(broken(first.place, Rule::Bodies))),
        Some(
            Made {
                place,
                locals,
                body,
            },
        ) => {
            let routine = Routine {
                name: first.name,
                header: first.header,
                owner: first.owner,
                outer: first.outer,
                far: first.far,
                locals,
                body,
            };
            within_limit(types, place, &routine)?;
            Ok(routine)
        }
    }
}

// The routines of a unit, each of which has its block.
fn all_finished(alloc: Global, types: &Types, slots: Vec<Slot>) -> Result<Routines, Refusal>
    ensures { Gives (λ all. map view_routine all) result (all_finished types.now.types (map view_slot slots.items)).run }
{
    let mut all = Routines::new(alloc);
    for slot in slots {
        let routine = finished(types, slot)?;
        all.push(routine)?;
    }
    Ok(all)
}

fn main_part(alloc: Global, name: &Name, body: Stmt) -> Routine
    ensures { view_routine result ≡ main_part name.now (view_stmt body) }
{
    let header = Header {
        kind: Kind::Procedure,
        params: Params::new(alloc),
        result: None,
    };
    Routine {
        name: name.copied(),
        header,
        owner: None,
        outer: None,
        far: true,
        locals: Locals::new(alloc),
        body,
    }
}

// A main or initialisation part with these statements.
#[tactic(auto, unfolding(crate::specs::Endings::main_judged))]
fn main_judged(
    alloc: Global,
    body: &CompoundStatement,
    scope: &mut Scope,
    name: &Name,
) -> Result<Routine, Refusal>
    ensures gives { Gives view_routine result (main_judged name.now scope.old body.now).run }
    ensures unchanged { scope.new ≡ scope.old }
{
    let typed = compound(alloc, body.statements.as_slice(), scope)?;
    let main = main_part(alloc, name, typed);
    within_limit(scope.types(), body.position.place, &main)?;
    Ok(main)
}

// The number of the next routine. One that 32 bits can't hold stays at the greatest.
fn number_behind(routines: &[Routine]) -> u32
    ensures { result ≡ narrow (length routines.now) }
{
    u32::try_from(routines.len()).unwrap_or(u32::MAX)
}

/// A unit of what was read.
pub(crate) fn whole(
    name: &Name,
    front: Front,
    scope: Scope,
    items: Items,
    globals: Globals,
    routines: Routines,
    initial: Option<u32>,
) -> Unit
    ensures { view_unit result ≡ whole name.now front scope items globals (map view_routine routines) initial }
{
    let (types, names) = scope.into_parts();
    Unit {
        name: name.copied(),
        names,
        types,
        items,
        globals,
        routines,
        initial,
        uses: front.uses,
        overlayable: front.overlayable,
        overlaid: front.overlaid,
        stack: front.stack,
        heap: front.heap,
    }
}

/// The unit of what was read, with the items that it shows and a main or initialisation part if there is one. Each header has its
/// block.
pub(crate) fn ended(
    alloc: Global,
    body: Option<&CompoundStatement>,
    scope: Scope,
    draft: Draft,
    name: &Name,
    front: Front,
    items: Items,
) -> Result<Unit, Refusal>
    ensures { Gives view_unit result (ended name.now front items (option_copied body.entry) (drafted scope draft)).run }
{
    let mut scope = scope;
    let Draft { globals, slots } = draft;
    let mut routines = all_finished(alloc, scope.types(), slots)?;
    match body {
        None => Ok(whole(name, front, scope, items, globals, routines, None)),
        Some(body) => {
            let main = main_judged(alloc, body, &mut scope, name)?;
            let initial = Some(number_behind(routines.as_slice()));
            routines.push(main)?;
            Ok(whole(name, front, scope, items, globals, routines, initial))
        }
    }
}
