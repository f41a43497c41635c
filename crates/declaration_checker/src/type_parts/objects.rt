//! Object types.

ghost use Rattle.std.specs.Prelude.{◌≡◌, ◌<◌, [], OnOk, length, option_copied};
ghost use Rattle.type_layout.specs.Table.{place_of};
ghost use Rattle.typing_rules.specs.Judgements.{Gives};
ghost use Rattle.declaration_checker.specs.type_denoters.Trees.{view_groups};
ghost use Rattle.declaration_checker.specs.type_denoters.Additions.{denoted};
ghost use Rattle.declaration_checker.specs.type_denoters.Denoters.{ground, listed};
ghost use Rattle.declaration_checker.specs.type_parts.Objects.{inside, methods_judged, ancestor_of, with_methods, object_judged, object_allowed};

use crate::headers::type_named;
use crate::type_denoters::{Promise, added, judged_fields};
use crate::type_parts::methods::{is_dynamic, methods_judged};
use scopes::{BlockKind, Entry, Scope};
use std::alloc::{AllocError, Global};
use syntax_tree::Identifier;
use syntax_tree::type_tree::{FieldGroup, Method};
use type_layout::{Field, Fields, Methods, Name, Place, TypeDef, TypeId};
use typing_rules::{Refusal, Rule, broken};

fn ancestor_of(scope: &Scope, one: Option<&Identifier>) -> Result<Option<TypeId>, Refusal>
    ensures { Gives (λ parent. parent) result (ancestor_of scope.now (option_copied one.entry)).run }
{
    match one {
        Some(one) => Ok(Some(type_named(scope, one.position.place, &one.name)?)),
        None => Ok(None),
    }
}

// The place of a unit among those of the table, or the next one.
fn unit_place(scope: &Scope, unit: &Name) -> u32
    ensures { result ≡ place_of scope.now.types.units unit.now }
{
    let types = scope.types();
    let _count = types.count();
    types.unit_place(unit).unwrap_or(types.units().len()) as u32
}

// Opens a block in which the object type has its name already.
fn open_inside(scope: &mut Scope, own: &Name) -> Result<(), AllocError>
    ensures opened { OnOk result (scope.new ≡ inside scope.old own.now) }
    ensures open { OnOk result (0 < length scope.new.blocks) }
{
    let ty = TypeId(scope.types().count());
    scope.begin(BlockKind::Part)?;
    let _is_new = scope.enter(own.copied(), Entry::Ty { ty })?;
    Ok(())
}

// The methods of the object type of this name, which their headers know. The scope is then as it was.
#[tactic(auto, using(crate::proofs::type_parts::Closing::closed))]
fn methods_inside(
    alloc: Global,
    scope: &mut Scope,
    unit: u32,
    first: u32,
    own: &Name,
    fields: &[Field],
    all: &[Method],
) -> Result<Methods, Refusal>
    ensures gives { Gives (λ methods. methods) result (methods_judged (inside scope.old own.now) unit first fields.now [] all.now).run }
    ensures kept { OnOk result (scope.new ≡ scope.old) }
{
    open_inside(scope, own)?;
    let methods = methods_judged(alloc, scope, unit, first, fields, all)?;
    scope.end();
    Ok(methods)
}

fn with_methods(
    alloc: Global,
    scope: &mut Scope,
    unit: &Name,
    first: u32,
    own: &Name,
    place: Place,
    parent: Option<TypeId>,
    all: &[Method],
    fields: Fields,
) -> Result<TypeId, Refusal>
    ensures { Gives (λ ty. denoted ty scope.new) result (with_methods unit.now first own.now place parent all.now (listed fields scope.old)).run }
{
    let at = unit_place(scope, unit);
    let methods = methods_inside(alloc, scope, at, first, own, fields.as_slice(), all)?;
    let dynamic = is_dynamic(methods.as_slice());
    let one = TypeDef::ObjectOf {
        parent,
        dynamic,
        fields,
        methods,
    };
    added(scope, unit, place, Rule::ObjectPlace, one)
}

fn object_judged(
    alloc: Global,
    scope: &mut Scope,
    unit: &Name,
    names: &[Promise],
    first: u32,
    own: &Name,
    place: Place,
    ancestor: Option<&Identifier>,
    groups: &[FieldGroup],
    all: &[Method],
) -> Result<TypeId, Refusal>
    ensures { Gives (λ ty. denoted ty scope.new) result (object_judged (ground unit.now names.now) first own.now scope.old place (option_copied ancestor.entry) (view_groups groups.now) all.now).run }
{
    let parent = ancestor_of(scope, ancestor)?;
    let fields = judged_fields(alloc, groups, scope, unit, names)?;
    with_methods(alloc, scope, unit, first, own, place, parent, all, fields)
}

/// An object type that begins at a place, where it may stand: there the number of the next routine of the unit is given, which the
/// first of its methods has.
pub(crate) fn object_allowed(
    alloc: Global,
    scope: &mut Scope,
    unit: &Name,
    names: &[Promise],
    next: Option<u32>,
    own: &Name,
    place: Place,
    ancestor: Option<&Identifier>,
    groups: &[FieldGroup],
    all: &[Method],
) -> Result<TypeId, Refusal>
    ensures { Gives (λ ty. denoted ty scope.new) result (object_allowed (ground unit.now names.now) next own.now scope.old place (option_copied ancestor.entry) (view_groups groups.now) all.now).run }
{
    match next {
        None => Err(Refusal::Because(broken(place, Rule::ObjectPlace))),
        Some(first) => object_judged(
            alloc, scope, unit, names, first, own, place, ancestor, groups, all,
        ),
    }
}
