//! The blocks of routines: what is known in them, and how they end.

ghost use Rattle.std.specs.Prelude.{◌≡◌, Some, OnOk, codes, length, map};
ghost use Rattle.type_layout.specs.Words.{IsName};
ghost use Rattle.typed_tree.specs.Statements.{view_stmt};
ghost use Rattle.scopes.specs.Members.{narrow};
ghost use Rattle.scopes.specs.Environment.{without_block};
ghost use Rattle.typing_rules.specs.Judgements.{Gives};
ghost use Rattle.tp_check_decl.specs.routines.Drafts.{view_slot, drafted, stage, depth_of};
ghost use Rattle.tp_check_decl.specs.routines.Insides.{variables_beside, variables_before, site_in, self_entered, params_entered, inside, is_outer, is_met, all_met, shallow, statements_of, ended};

use crate::routines::drafts::{Begun, Draft, Made, Site, Slot, depth_of, finish};
use declaration_checker::declarations::Home;
use declaration_checker::type_denoters::entered;
use scopes::{BlockKind, Entry, Scope};
use std::alloc::Global;
use syntax_tree::CompoundStatement;
use tp_check_stmt::compound;
use type_layout::{Name, Param, Place, TypeId};
use typed_tree::{Locals, Stmt};
use typing_rules::{Refusal, Rule, broken, too_large};

/// How deep routines nest at most.
pub const MOST_NESTED: u32 = 16;

// The name of these bytes, which are one.
fn known(bytes: &[u8]) -> Name
    requires { IsName bytes.now }
    ensures { result ≡ bytes.now }
{
    match Name::new(bytes) {
        Some(name) => name,
        None => unreachable!(),
    }
}

// The name of a method's instance.
fn instance() -> Name
    ensures { result ≡ codes "SELF" }
{
    known(b"SELF")
}

fn variables_beside(owner: Option<TypeId>, ty: Option<TypeId>) -> u32
    ensures { result ≡ variables_beside owner ty }
{
    match (owner, ty) {
        (None, None) => 0,
        (Some(_), Some(_)) => 2,
        (None, Some(_)) | (Some(_), None) => 1,
    }
}

fn count_of(params: &[Param]) -> u32
    ensures { result ≡ narrow (length params.now) }
{
    u32::try_from(params.len()).unwrap_or(u32::MAX)
}

fn variables_before(begun: &Begun) -> u32
    ensures { result ≡ variables_before begun.now }
{
    let header = &begun.header;
    count_of(header.params.as_slice()).saturating_add(variables_beside(begun.owner, header.result))
}

/// Where the declarations of a routine's block stand.
pub(crate) fn site_in(site: Site, begun: &Begun) -> Site
    ensures { result ≡ site_in site begun.now }
{
    Site {
        home: Home::Routine {
            level: depth_of(site.home).saturating_add(1),
            first: variables_before(begun),
        },
        outer: Some(begun.number),
    }
}

// The instance of a method, behind so many parameters.
fn self_entered(
    scope: &mut Scope,
    level: u32,
    place: Place,
    number: u32,
    owner: Option<TypeId>,
) -> Result<(), Refusal>
    ensures { Gives (λ _. scope.new) result (self_entered level place number owner scope.old).run }
{
    match owner {
        None => Ok(()),
        Some(ty) => {
            let entry = Entry::Var {
                unit: 0,
                level,
                number,
                ty,
            };
            entered(scope, place, &instance(), entry)
        }
    }
}

fn params_entered(
    scope: &mut Scope,
    level: u32,
    place: Place,
    params: &[Param],
) -> Result<(), Refusal>
    ensures { Gives (λ _. scope.new) result (params_entered level place 0 scope.old params.now).run }
{
    let mut number = 0u32;
    for one in params {
        let entry = Entry::Var {
            unit: 0,
            level,
            number,
            ty: one.ty,
        };
        entered(scope, place, &one.name, entry)?;
        number = number.saturating_add(1);
    }
    Ok(())
}

/// Opens the block of a routine that begins at a place, with its instance and parameters.
pub(crate) fn inside(
    scope: &mut Scope,
    inner: Site,
    place: Place,
    begun: &Begun,
) -> Result<(), Refusal>
    ensures { Gives (λ _. scope.new) result (inside inner place begun.now scope.old).run }
{
    scope.begin(BlockKind::Routine {
        number: begun.number,
        owner: begun.owner,
    })?;
    let level = depth_of(inner.home);
    let params = begun.header.params.as_slice();
    self_entered(scope, level, place, count_of(params), begun.owner)?;
    params_entered(scope, level, place, params)
}

fn is_outer(one: Option<u32>, other: Option<u32>) -> bool
    ensures { result ≡ is_outer one other }
{
    match (one, other) {
        (None, None) => true,
        (Some(one), Some(other)) => one == other,
        (None, Some(_)) | (Some(_), None) => false,
    }
}

fn is_met(outer: Option<u32>, slot: &Slot) -> bool
    ensures { result ≡ is_met outer (view_slot slot.now) }
{
    !is_outer(slot.first.outer, outer) || slot.made.is_some()
}

fn all_met(outer: Option<u32>, slots: &[Slot]) -> Result<(), Refusal>
    ensures { Gives (λ _. tt) result (all_met outer (map view_slot slots.now)).run }
{
    for slot in slots {
        if !is_met(outer, slot) {
            let place = slot.first.place;
            return Err(Refusal::Because(broken(place, Rule::Bodies)));
        }
    }
    Ok(())
}

fn shallow(place: Place, depth: u32) -> Result<(), Refusal>
    ensures { Gives (λ _. tt) result (shallow place depth).run }
{
    if depth <= MOST_NESTED {
        Ok(())
    } else {
        Err(Refusal::Because(too_large(place, u64::from(depth))))
    }
}

fn statements_of(
    alloc: Global,
    body: &CompoundStatement,
    scope: &mut Scope,
) -> Result<Stmt, Refusal>
    ensures gives { Gives view_stmt result (statements_of scope.old body.now).run }
    ensures unchanged { scope.new ≡ scope.old }
{
    compound(alloc, body.statements.as_slice(), scope)
}

// Closes the innermost block, if one is open.
fn close(scope: &mut Scope)
    ensures { scope.new ≡ without_block scope.old }
{
    if scope.is_open() {
        scope.end();
    }
}

/// Ends the block of a routine behind its declarations.
pub(crate) fn ended(
    alloc: Global,
    body: &CompoundStatement,
    scope: &mut Scope,
    draft: &mut Draft,
    inner: Site,
    number: u32,
    place: Place,
    locals: Locals,
) -> Result<(), Refusal>
    ensures { Gives (λ _. drafted scope.new draft.new) result (ended inner number place body.now (stage (drafted scope.old draft.old) locals)).run }
{
    all_met(Some(number), draft.slots.as_slice())?;
    let body = statements_of(alloc, body, scope)?;
    shallow(place, depth_of(inner.home))?;
    close(scope);
    let made = Made {
        place,
        locals,
        body,
    };
    finish(&mut draft.slots, number, made);
    Ok(())
}
