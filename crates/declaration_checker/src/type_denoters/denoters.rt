//! Types, part by part.

ghost use Rattle.std.specs.Prelude.{◌≡◌, [], reverse};
ghost use Rattle.typing_rules.specs.Judgements.{Gives};
ghost use Rattle.syntax_tree.specs.expression_tree.Trees.{view_simple};
ghost use Rattle.declaration_checker.specs.type_denoters.Trees.{range, sized, procedure, function, view_target, view_denoter, view_structured, structured_place, view_denoters, view_groups};
ghost use Rattle.declaration_checker.specs.type_denoters.Additions.{denoted};
ghost use Rattle.declaration_checker.specs.type_denoters.Denoters.{ground, pointer_to, listed, indexes, judged, indexes_judged, fields_judged};

use crate::headers::{function_header, procedure_header, type_named};
use crate::type_denoters::additions::added;
use crate::type_denoters::bounds::{arrays_of, range_of, string_of};
use crate::type_denoters::enumerations::enumeration_of;
use crate::type_denoters::fields::add_names;
use crate::type_denoters::promises::{Promise, target_of};
use constant_checker::constant_expressions::constant_of;
use scopes::{STRING, Scope};
use std::alloc::Global;
use syntax_tree::expression_tree::first_place;
use syntax_tree::type_tree::{
    FieldGroup, NamedType, ParameterGroup, PointerTarget, StructuredType, TypeDenoter,
};
use syntax_tree::{Identifier, SimpleExpression};
use type_layout::{Fields, Kind, Name, Place, TypeDef, TypeId};
use typing_rules::{Refusal, Rule, broken};

fn target_name(target: &PointerTarget) -> &Identifier
    ensures { result.now ≡ view_target target.now }
{
    match target {
        PointerTarget::Letter(name) | PointerTarget::Long(name) => name,
    }
}

fn pointer_to(
    scope: &mut Scope,
    unit: &Name,
    names: &[Promise],
    target: &Identifier,
) -> Result<TypeId, Refusal>
    ensures { Gives (λ ty. denoted ty scope.new) result (pointer_to (ground unit.now names.now) scope.old target.now).run }
{
    let ty = target_of(names, scope, target)?;
    let one = TypeDef::PointerTo { target: ty };
    added(scope, unit, target.position.place, Rule::Stands, one)
}

fn sized(
    alloc: Global,
    size: &SimpleExpression,
    scope: &mut Scope,
    unit: &Name,
    place: Place,
) -> Result<TypeId, Refusal>
    ensures { Gives (λ ty. denoted ty scope.new) result (judged (ground unit.now []) scope.old (sized place (view_simple size.now))).run }
{
    let size = constant_of(alloc, size, scope)?;
    string_of(scope, unit, place, &size)
}

fn range(
    alloc: Global,
    low: &SimpleExpression,
    high: &SimpleExpression,
    scope: &mut Scope,
    unit: &Name,
) -> Result<TypeId, Refusal>
    ensures { Gives (λ ty. denoted ty scope.new) result (judged (ground unit.now []) scope.old (range (view_simple low.now) (view_simple high.now))).run }
{
    let place = first_place(low);
    let low = constant_of(alloc, low, scope)?;
    let high = constant_of(alloc, high, scope)?;
    range_of(scope, unit, place, &low, &high)
}

fn procedure(
    alloc: Global,
    groups: &[ParameterGroup],
    scope: &mut Scope,
    unit: &Name,
    place: Place,
) -> Result<TypeId, Refusal>
    ensures { Gives (λ ty. denoted ty scope.new) result (judged (ground unit.now []) scope.old (procedure place groups.now)).run }
{
    let header = procedure_header(alloc, scope, false, place, Kind::Procedure, groups)?;
    added(
        scope,
        unit,
        place,
        Rule::Stands,
        TypeDef::Procedural { header },
    )
}

fn function(
    alloc: Global,
    groups: &[ParameterGroup],
    result_type: &NamedType,
    scope: &mut Scope,
    unit: &Name,
    place: Place,
) -> Result<TypeId, Refusal>
    ensures { Gives (λ ty. denoted ty scope.new) result (judged (ground unit.now []) scope.old (function place groups.now result_type.now)).run }
{
    let header = function_header(alloc, scope, false, place, groups, Some(result_type))?;
    added(
        scope,
        unit,
        place,
        Rule::Stands,
        TypeDef::Procedural { header },
    )
}

fn structured_place(one: &StructuredType) -> Place
    ensures { result ≡ structured_place one.now }
{
    match one {
        StructuredType::Array { position, .. }
        | StructuredType::Record { position, .. }
        | StructuredType::Set { position, .. } => position.place,
    }
}

/// The type of a denoter, which is put into the table behind the types of its parts. It is of this unit; `names` are those of the
/// part of type declarations in which it stands. An object type stands nowhere but as a whole declaration.
#[cycle(parts)]
pub fn judged_denoter(
    alloc: Global,
    tree: &TypeDenoter,
    scope: &mut Scope,
    unit: &Name,
    names: &[Promise],
) -> Result<TypeId, Refusal>
    ensures { Gives (λ ty. denoted ty scope.new) result (judged (ground unit.now names.now) scope.old (view_denoter tree.now)).run }
{
    match tree {
        TypeDenoter::Name(one) => type_named(scope, one.position.place, &one.name),
        TypeDenoter::Range(low, high) => range(alloc, low, high, scope, unit),
        TypeDenoter::Enumeration {
            position,
            names: values,
        } => enumeration_of(scope, unit, position.place, values.as_slice()),
        TypeDenoter::Pointer { target, .. } => pointer_to(scope, unit, names, target_name(target)),
        TypeDenoter::String { position, length } => match length {
            None => Ok(STRING),
            Some(size) => sized(alloc, size, scope, unit, position.place),
        },
        TypeDenoter::Procedure {
            position,
            parameters,
        } => procedure(alloc, parameters.as_slice(), scope, unit, position.place),
        TypeDenoter::Function {
            position,
            parameters,
            result,
        } => function(
            alloc,
            parameters.as_slice(),
            result,
            scope,
            unit,
            position.place,
        ),
        TypeDenoter::Object { position, .. } => {
            Err(Refusal::Because(broken(position.place, Rule::ObjectPlace)))
        }
        TypeDenoter::Packed { position, inner } => {
            judged_structured(alloc, inner, position.place, scope, unit, names)
        }
        TypeDenoter::Structured(inner) => {
            judged_structured(alloc, inner, structured_place(inner), scope, unit, names)
        }
    }
}

// What is structured and begins at a place.
#[cycle(parts)]
fn judged_structured(
    alloc: Global,
    tree: &StructuredType,
    place: Place,
    scope: &mut Scope,
    unit: &Name,
    names: &[Promise],
) -> Result<TypeId, Refusal>
    ensures { Gives (λ ty. denoted ty scope.new) result (judged (ground unit.now names.now) scope.old (view_structured place tree.now)).run }
{
    match tree {
        StructuredType::Array {
            indexes,
            element,
            ..
        } => {
            let indexes = judged_indexes(alloc, indexes.as_slice(), scope, unit, names)?;
            let element = judged_denoter(alloc, element, scope, unit, names)?;
            arrays_of(scope, unit, place, indexes, element)
        }
        StructuredType::Record { fields, .. } => {
            let fields = judged_fields(alloc, fields.as_slice(), scope, unit, names)?;
            added(
                scope,
                unit,
                place,
                Rule::Stands,
                TypeDef::RecordOf { fields },
            )
        }
        StructuredType::Set { element, .. } => {
            let base = judged_denoter(alloc, element, scope, unit, names)?;
            added(scope, unit, place, Rule::SetBase, TypeDef::SetOf { base })
        }
    }
}

// The types of indexes, in order.
#[cycle(parts)]
#[tactic(auto, using(crate::proofs::type_denoters::Steps::reverse_pushed))]
fn judged_indexes(
    alloc: Global,
    all: &[TypeDenoter],
    scope: &mut Scope,
    unit: &Name,
    names: &[Promise],
) -> Result<Vec<TypeId>, Refusal>
    ensures { Gives (λ types. indexes (reverse types.items) scope.new) result (indexes_judged (ground unit.now names.now) scope.old [] (view_denoters all.now)).run }
{
    let mut types = Vec::new(alloc);
    for one in all {
        let ty = judged_denoter(alloc, one, scope, unit, names)?;
        types.push(ty)?;
    }
    Ok(types)
}

/// The fields of a record or an object, whose types are put into the table.
#[cycle(parts)]
pub fn judged_fields(
    alloc: Global,
    groups: &[FieldGroup],
    scope: &mut Scope,
    unit: &Name,
    names: &[Promise],
) -> Result<Fields, Refusal>
    ensures { Gives (λ fields. listed fields scope.new) result (fields_judged (ground unit.now names.now) scope.old [] (view_groups groups.now)).run }
{
    let mut fields = Fields::new(alloc);
    for group in groups {
        match group {
            FieldGroup::Fields { names: all, of } => {
                let ty = judged_denoter(alloc, of, scope, unit, names)?;
                add_names(&mut fields, ty, all.as_slice())?;
            }
        }
    }
    Ok(fields)
}
