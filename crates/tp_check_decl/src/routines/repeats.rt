//! Headers that repeat an earlier one.

ghost use Rattle.std.specs.Prelude.{◌≡◌, IfOk, Some, None, false, map, slice_get};
ghost use Rattle.type_layout.specs.declared.definitions.Kind.TheVariants as kind;
ghost use Rattle.typing_rules.specs.Judgements.{Gives, makes, either};
ghost use Rattle.declaration_checker.specs.headers.Headers.{procedure_header};
ghost use Rattle.tp_check_decl.specs.routines.Drafts.{view_slot, drafted};
ghost use Rattle.tp_check_decl.specs.routines.Headings.{is_left, awaited_code, awaited_of, same_kind, is_bare, kind_repeated, whole_repeated, half_repeated, repeated, opened, opened_by, opened_of};

use crate::routines::drafts::{Awaited, Begun, Draft, Site, Slot, next_number};
use crate::routines::headings::{announced, name_of};
use declaration_checker::headers::{function_header, procedure_header, routine_header};
use object_vmt::same_header;
use scopes::{Entry, Found, Scope};
use std::alloc::{AllocError, Global};
use syntax_tree::source_tree::RoutineHeader;
use syntax_tree::type_tree::ParameterGroup;
use type_layout::{Header, Kind, Name, Params, Place, RoutineId};
use typing_rules::{Refusal, Rule, broken};

fn is_left(slots: &[Slot], number: u32) -> bool
    ensures { result ≡ is_left (slice_get (map view_slot slots.now) number) }
{
    match slots.get(number as usize) {
        Some(slot) => slot.made.is_none(),
        None => false,
    }
}

// A routine that a block has, if that is the innermost of so many, and the routine's own block was not met yet.
fn awaited_code(
    alloc: Global,
    count: u32,
    slots: &[Slot],
    block: u32,
    routine: RoutineId,
    header: &Header,
) -> Result<Option<Awaited>, AllocError>
    ensures { IfOk result (λ found. found ≡ awaited_code count (map view_slot slots.now) block routine header.now) }
{
    let is_innermost = u64::from(block) + 1 == u64::from(count);
    if is_innermost && routine.unit == 0 && is_left(slots, routine.number) {
        Ok(Some(Awaited {
            number: routine.number,
            header: header.copied(alloc)?,
        }))
    } else {
        Ok(None)
    }
}

// The routine of this name that the innermost block has and whose block was not met yet.
#[tactic(auto, unfolding(crate::specs::routines::Headings::awaited_of))]
fn awaited_of(
    alloc: Global,
    scope: &Scope,
    draft: &Draft,
    name: &Name,
) -> Result<Option<Awaited>, AllocError>
    ensures { IfOk result (λ found. found ≡ awaited_of (drafted scope.now draft.now) name.now) }
{
    match scope.find(name) {
        Some(
            Found::Named {
                block,
                entry: Entry::Code {
                    routine,
                    header,
                    ..
                },
            },
        ) => {
            let slots = draft.slots.as_slice();
            awaited_code(alloc, scope.blocks(), slots, block, *routine, header)
        }
        _ => Ok(None),
    }
}

fn is_bare(groups: &[ParameterGroup]) -> bool
    ensures { result ≡ is_bare groups.now }
{
    groups.is_empty()
}

fn same_kind(one: Kind, other: Kind) -> bool
    ensures { result ≡ same_kind one other }
{
    matches!(
        (one, other),
        (Kind::Procedure, Kind::Procedure)
            | (Kind::Function, Kind::Function)
            | (Kind::Constructor, Kind::Constructor)
            | (Kind::Destructor, Kind::Destructor)
    )
}

fn kind_repeated(place: Place, kind: Kind, first: Header) -> Result<Params, Refusal>
    ensures { Gives (λ params. params) result (kind_repeated place kind first).run }
{
    if same_kind(first.kind, kind) {
        Ok(first.params)
    } else {
        Err(Refusal::Because(broken(place, Rule::Bodies)))
    }
}

pub(crate) fn whole_repeated(
    place: Place,
    first: &Header,
    header: Header,
) -> Result<Params, Refusal>
    ensures { Gives (λ params. params) result (whole_repeated place first.now (makes header)).run }
{
    if same_header(first, &header) {
        Ok(header.params)
    } else {
        Err(Refusal::Because(broken(place, Rule::Bodies)))
    }
}

fn procedure_repeated(
    alloc: Global,
    scope: &Scope,
    place: Place,
    groups: &[ParameterGroup],
    first: Header,
) -> Result<Params, Refusal>
    ensures { Gives (λ params. params) result (either (is_bare groups.now) (kind_repeated place kind.Procedure first) (whole_repeated place first (procedure_header scope.now false place kind.Procedure groups.now))).run }
{
    if is_bare(groups) {
        return kind_repeated(place, Kind::Procedure, first);
    }
    let header = procedure_header(alloc, scope, false, place, Kind::Procedure, groups)?;
    whole_repeated(place, &first, header)
}

// Parameters of a function without the result that belongs to them.
fn half_repeated(
    alloc: Global,
    scope: &Scope,
    place: Place,
    groups: &[ParameterGroup],
    first: Header,
) -> Result<Params, Refusal>
    ensures { Gives (λ params. params) result (either (is_bare groups.now) (kind_repeated place kind.Function first) (half_repeated place (procedure_header scope.now false place kind.Procedure groups.now))).run }
{
    if is_bare(groups) {
        return kind_repeated(place, Kind::Function, first);
    }
    let _header = procedure_header(alloc, scope, false, place, Kind::Procedure, groups)?;
    Err(Refusal::Because(broken(place, Rule::Bodies)))
}

// The parameters of a routine with this first header.
fn repeated(
    alloc: Global,
    scope: &Scope,
    one: &RoutineHeader,
    first: Header,
) -> Result<Params, Refusal>
    ensures { Gives (λ params. params) result (repeated scope.now first one.now).run }
{
    match one {
        RoutineHeader::Procedure {
            position,
            parameters,
            ..
        } => procedure_repeated(alloc, scope, position.place, parameters.as_slice(), first),
        RoutineHeader::Function {
            position,
            parameters,
            result: None,
            ..
        } => half_repeated(alloc, scope, position.place, parameters.as_slice(), first),
        RoutineHeader::Function {
            position,
            parameters,
            result: Some(result),
            ..
        } => {
            let place = position.place;
            let groups = parameters.as_slice();
            let header = function_header(alloc, scope, false, place, groups, Some(result))?;
            whole_repeated(place, &first, header)
        }
    }
}

fn opened_again(
    alloc: Global,
    one: &RoutineHeader,
    scope: &Scope,
    draft: &Draft,
    site: Site,
    first: Awaited,
) -> Result<Begun, Refusal>
    ensures { Gives (λ b. opened b (drafted scope.now draft.now)) result (opened_by site (drafted scope.now draft.now) one.now (Some first)).run }
{
    let Awaited { number, header } = first;
    let kind = header.kind;
    let result = header.result;
    let params = repeated(alloc, scope, one, header)?;
    let header = Header {
        kind,
        params,
        result,
    };
    Ok(Begun {
        number,
        header,
        owner: None,
    })
}

fn opened_new(
    alloc: Global,
    one: &RoutineHeader,
    scope: &mut Scope,
    draft: &mut Draft,
    site: Site,
) -> Result<Begun, Refusal>
    ensures { Gives (λ b. opened b (drafted scope.new draft.new)) result (opened_by site (drafted scope.old draft.old) one.now None).run }
{
    let number = next_number(draft.slots.as_slice());
    let header = routine_header(alloc, scope, one)?;
    let own = header.copied(alloc)?;
    announced(alloc, one, own, scope, draft, site, false)?;
    Ok(Begun {
        number,
        header,
        owner: None,
    })
}

/// A header with its block behind it: that of an earlier header in this block, or of a new routine.
#[tactic(auto, unfolding(crate::specs::routines::Headings::opened_of))]
pub(crate) fn opened_of(
    alloc: Global,
    one: &RoutineHeader,
    scope: &mut Scope,
    draft: &mut Draft,
    site: Site,
) -> Result<Begun, Refusal>
    ensures { Gives (λ b. opened b (drafted scope.new draft.new)) result (opened_of site (drafted scope.old draft.old) one.now).run }
{
    match awaited_of(alloc, scope, draft, &name_of(one).name)? {
        Some(first) => opened_again(alloc, one, scope, draft, site, first),
        None => opened_new(alloc, one, scope, draft, site),
    }
}
