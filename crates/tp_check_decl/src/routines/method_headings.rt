//! Headers in front of the blocks of methods.

ghost use Rattle.std.specs.Prelude.{◌≡◌, true, map, position, slice_get, option_copied};
ghost use Rattle.type_layout.specs.declared.definitions.Kind.TheVariants as kind;
ghost use Rattle.type_layout.specs.Words.{same_bytes};
ghost use Rattle.typing_rules.specs.Judgements.{Gives};
ghost use Rattle.declaration_checker.specs.headers.Headers.{procedure_header};
ghost use Rattle.declaration_checker.specs.type_parts.Objects.{name_of, header_place};
ghost use Rattle.tp_check_decl.specs.routines.Drafts.{view_slot, drafted};
ghost use Rattle.tp_check_decl.specs.routines.Headings.{half_repeated, opened};
ghost use Rattle.tp_check_decl.specs.routines.Methods.{groups_of, names_of, is_self, none_is_self, without_self, method_at, declared_method, own_method, is_owner, is_awaited, may_follow, lacks_result, header_repeated, method_begun, method_opened_by, method_opened};

use crate::routines::drafts::{Begun, Draft, Site, Slot};
use crate::routines::methods::header_place;
use crate::routines::repeats::whole_repeated;
use declaration_checker::headers::{method_header, procedure_header, type_named};
use scopes::Scope;
use std::alloc::Global;
use syntax_tree::Identifier;
use syntax_tree::type_tree::{MethodHeader, ParameterGroup};
use type_layout::{Header, Kind, Method, Name, Params, TypeDef, TypeId};
use typing_rules::{Refusal, Rule, broken, definition};

fn name_of(header: &MethodHeader) -> &Identifier
    ensures { result.now ≡ name_of header.now }
{
    match header {
        MethodHeader::Procedure { name, .. }
        | MethodHeader::Function { name, .. }
        | MethodHeader::Constructor { name, .. }
        | MethodHeader::Destructor { name, .. } => name,
    }
}

fn groups_of(header: &MethodHeader) -> &[ParameterGroup]
    ensures { result.now ≡ groups_of header.now }
{
    match header {
        MethodHeader::Procedure { parameters, .. }
        | MethodHeader::Function { parameters, .. }
        | MethodHeader::Constructor { parameters, .. }
        | MethodHeader::Destructor { parameters, .. } => parameters.as_slice(),
    }
}

fn names_of(group: &ParameterGroup) -> &[Identifier]
    ensures { result.now ≡ names_of group.now }
{
    match group {
        ParameterGroup::Variable { names, .. } | ParameterGroup::Value { names, .. } => {
            names.as_slice()
        }
    }
}

fn is_self(name: &Name) -> bool
    ensures { result ≡ is_self name.now }
{
    name.as_bytes() == b"SELF".as_slice()
}

fn none_is_self(names: &[Identifier]) -> Result<(), Refusal>
    ensures { Gives (λ _. tt) result (none_is_self names.now).run }
{
    for one in names {
        if is_self(&one.name) {
            let place = one.position.place;
            return Err(Refusal::Because(broken(place, Rule::Duplicate)));
        }
    }
    Ok(())
}

fn without_self(groups: &[ParameterGroup]) -> Result<(), Refusal>
    ensures { Gives (λ _. tt) result (without_self groups.now).run }
{
    for group in groups {
        none_is_self(names_of(group))?;
    }
    Ok(())
}

fn method_place(methods: &[Method], name: &Name) -> Option<usize>
    ensures { result ≡ position (λ method. same_bytes name.now method.name) methods.now }
{
    methods.iter().position(|method| *name == method.name)
}

fn method_at(methods: &[Method], place: Option<usize>) -> Option<&Method>
    ensures { option_copied result ≡ method_at methods.now place }
{
    match place {
        Some(place) => methods.get(place),
        None => None,
    }
}

#[tactic(auto, unfolding(crate::specs::routines::Methods::declared_method))]
fn declared_method<'a>(methods: &'a [Method], name: &Name) -> Option<&'a Method>
    ensures { option_copied result ≡ declared_method methods.now name.now }
{
    method_at(methods, method_place(methods, name))
}

// The method of this name that a type declares itself.
fn own_method<'a>(one: Option<&'a TypeDef>, name: &Name) -> Option<&'a Method>
    ensures { option_copied result ≡ own_method (option_copied one.entry) name.now }
{
    match one {
        Some(TypeDef::ObjectOf { methods, .. }) => declared_method(methods.as_slice(), name),
        _ => None,
    }
}

fn is_owner(owner: Option<TypeId>, ty: TypeId) -> bool
    ensures { result ≡ is_owner owner ty }
{
    match owner {
        None => false,
        Some(owner) => owner.0 == ty.0,
    }
}

// Whether the routine of a number is a method of this type whose block was not met yet.
fn is_awaited(slots: &[Slot], number: u32, ty: TypeId) -> bool
    ensures { result ≡ is_awaited (slice_get (map view_slot slots.now) number) ty }
{
    match slots.get(number as usize) {
        None => false,
        Some(slot) => is_owner(slot.first.owner, ty) && slot.made.is_none(),
    }
}

fn may_follow(site: Site, slots: &[Slot], number: u32, ty: TypeId) -> bool
    ensures { result ≡ may_follow site (slice_get (map view_slot slots.now) number) ty }
{
    site.outer.is_none() && is_awaited(slots, number, ty)
}

fn lacks_result(header: &MethodHeader) -> bool
    ensures { result ≡ lacks_result header.now }
{
    match header {
        MethodHeader::Function { result, .. } => result.is_none(),
        MethodHeader::Procedure { .. }
        | MethodHeader::Constructor { .. }
        | MethodHeader::Destructor { .. } => false,
    }
}

// Parameters of a function without the result that belongs to them.
fn half_repeated(alloc: Global, scope: &Scope, one: &MethodHeader) -> Result<Params, Refusal>
    ensures { Gives (λ params. params) result (half_repeated (header_place one.now) (procedure_header scope.now true (header_place one.now) kind.Procedure (groups_of one.now))).run }
{
    let place = header_place(one);
    let groups = groups_of(one);
    let _header = procedure_header(alloc, scope, true, place, Kind::Procedure, groups)?;
    Err(Refusal::Because(broken(place, Rule::Bodies)))
}

// The parameters of a method with this first header.
fn header_repeated(
    alloc: Global,
    scope: &Scope,
    first: &Header,
    one: &MethodHeader,
) -> Result<Params, Refusal>
    ensures { Gives (λ params. params) result (header_repeated scope.now first.now one.now).run }
{
    if lacks_result(one) {
        return half_repeated(alloc, scope, one);
    }
    let header = method_header(alloc, scope, one)?;
    whole_repeated(header_place(one), first, header)
}

fn method_begun(
    alloc: Global,
    scope: &Scope,
    draft: &Draft,
    one: &MethodHeader,
    ty: TypeId,
    found: &Method,
) -> Result<Begun, Refusal>
    ensures { Gives (λ b. opened b (drafted scope.now draft.now)) result (method_begun (drafted scope.now draft.now) one.now ty found.now).run }
{
    let params = header_repeated(alloc, scope, &found.header, one)?;
    without_self(groups_of(one))?;
    let header = Header {
        kind: found.header.kind,
        params,
        result: found.header.result,
    };
    Ok(Begun {
        number: found.routine.number,
        header,
        owner: Some(ty),
    })
}

fn method_opened_by(
    alloc: Global,
    scope: &Scope,
    draft: &Draft,
    site: Site,
    one: &MethodHeader,
    ty: TypeId,
    found: Option<&Method>,
) -> Result<Begun, Refusal>
    ensures { Gives (λ b. opened b (drafted scope.now draft.now)) result (method_opened_by site (drafted scope.now draft.now) one.now ty (option_copied found.entry)).run }
{
    match found {
        None => {
            let place = name_of(one).position.place;
            Err(Refusal::Because(broken(place, Rule::Selected)))
        }
        Some(found) => {
            let slots = draft.slots.as_slice();
            if !may_follow(site, slots, found.routine.number, ty) {
                return Err(Refusal::Because(broken(header_place(one), Rule::Bodies)));
            }
            method_begun(alloc, scope, draft, one, ty, found)
        }
    }
}

/// A header with the block of a method behind it, of the object type that is named.
#[tactic(auto, unfolding(crate::specs::routines::Methods::method_opened))]
pub(crate) fn method_opened(
    alloc: Global,
    scope: &Scope,
    draft: &Draft,
    site: Site,
    one: &MethodHeader,
    owner: &Identifier,
) -> Result<Begun, Refusal>
    ensures { Gives (λ b. opened b (drafted scope.now draft.now)) result (method_opened site (drafted scope.now draft.now) one.now owner.now).run }
{
    let ty = type_named(scope, owner.position.place, &owner.name)?;
    let found = own_method(definition(scope.types(), ty), &name_of(one).name);
    method_opened_by(alloc, scope, draft, site, one, ty, found)
}
