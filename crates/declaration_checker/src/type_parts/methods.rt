//! Methods of an object type.

ghost use Rattle.std.specs.Prelude.{◌≡◌, []};
ghost use Rattle.typing_rules.specs.Judgements.{Gives};
ghost use Rattle.declaration_checker.specs.type_denoters.Denoters.{has_field};
ghost use Rattle.declaration_checker.specs.type_parts.Objects.{name_of, header_place, is_virtual_constructor, has_method, method_named, method_judged, methods_judged, has_class, is_dynamic};

use crate::headers::method_header;
use scopes::Scope;
use std::alloc::Global;
use syntax_tree::Identifier;
use syntax_tree::type_tree::MethodHeader;
use type_layout::{Field, Header, Kind, Method, Methods, Name, Place, RoutineId};
use typing_rules::{Refusal, Rule, broken};

fn name_of(header: &MethodHeader) -> &Identifier
    ensures { result.now ≡ name_of header.now }
{
    match header {
        MethodHeader::Procedure { name, .. }
        | MethodHeader::Function { name, .. }
        | MethodHeader::Constructor { name, .. }
        | MethodHeader::Destructor { name, .. } => name,
    }
}

fn header_place(header: &MethodHeader) -> Place
    ensures { result ≡ header_place header.now }
{
    match header {
        MethodHeader::Procedure { position, .. }
        | MethodHeader::Function { position, .. }
        | MethodHeader::Constructor { position, .. }
        | MethodHeader::Destructor { position, .. } => position.place,
    }
}

fn is_virtual_constructor(one: &syntax_tree::type_tree::Method) -> bool
    ensures { result ≡ is_virtual_constructor one.now }
{
    matches!(one.header, MethodHeader::Constructor { .. }) && one.is_virtual
}

fn has_field(fields: &[Field], name: &Name) -> bool
    ensures { result ≡ has_field fields.now name.now }
{
    fields.iter().any(|field| *name == field.name)
}

fn has_method(methods: &[Method], name: &Name) -> bool
    ensures { result ≡ has_method methods.now name.now }
{
    methods.iter().any(|one| *name == one.name)
}

// A method with its header and the number of its routine, whose name no member before it has.
fn method_named(
    fields: &[Field],
    before: &[Method],
    routine: RoutineId,
    one: &syntax_tree::type_tree::Method,
    header: Header,
) -> Result<Method, Refusal>
    ensures { Gives (λ made. made) result (method_named fields.now before.now routine.unit routine.number one.now header).run }
{
    let name = name_of(&one.header);
    if has_field(fields, &name.name) || has_method(before, &name.name) {
        let place = name.position.place;
        return Err(Refusal::Because(broken(place, Rule::Duplicate)));
    }
    Ok(Method {
        name: name.name.copied(),
        header,
        is_virtual: one.is_virtual,
        routine,
    })
}

fn method_judged(
    alloc: Global,
    scope: &Scope,
    routine: RoutineId,
    fields: &[Field],
    before: &[Method],
    one: &syntax_tree::type_tree::Method,
) -> Result<Method, Refusal>
    ensures { Gives (λ made. made) result (method_judged scope.now routine.unit routine.number fields.now before.now one.now).run }
{
    let header = method_header(alloc, scope, &one.header)?;
    if is_virtual_constructor(one) {
        let place = header_place(&one.header);
        return Err(Refusal::Because(broken(place, Rule::Allocating)));
    }
    method_named(fields, before, routine, one, header)
}

/// The methods of an object type with these fields, whose routines in a unit are numbered from a number on.
pub(crate) fn methods_judged(
    alloc: Global,
    scope: &Scope,
    unit: u32,
    first: u32,
    fields: &[Field],
    all: &[syntax_tree::type_tree::Method],
) -> Result<Methods, Refusal>
    ensures { Gives (λ methods. methods) result (methods_judged scope.now unit first fields.now [] all.now).run }
{
    let mut methods = Methods::new(alloc);
    let mut number = first;
    for one in all {
        let routine = RoutineId { unit, number };
        let made = method_judged(alloc, scope, routine, fields, methods.as_slice(), one)?;
        methods.push(made)?;
        number = number.saturating_add(1);
    }
    Ok(methods)
}

fn has_class(kind: Kind) -> bool
    ensures { result ≡ has_class kind }
{
    matches!(kind, Kind::Constructor | Kind::Destructor)
}

/// Whether one of the methods is virtual, a constructor or a destructor.
pub(crate) fn is_dynamic(methods: &[Method]) -> bool
    ensures { result ≡ is_dynamic methods.now }
{
    methods
        .iter()
        .any(|one| one.is_virtual || has_class(one.header.kind))
}
