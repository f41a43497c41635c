//! The objects and records whose members are known by their names alone, and the object of a method.

ghost use Rattle.std.specs.Prelude.{◌≡◌, ◌+◌, ◌<◌, ◌≤◌, Ok, Some, option_copied};
ghost use Rattle.std.specs.Option.{option_map};
ghost use Rattle.type_layout.specs.Words.{IsName};
ghost use Rattle.typed_tree.specs.Expressions.{view_expr, view_place};
ghost use Rattle.scopes.specs.Environment.{find, block_count, kind_of};
ghost use Rattle.typing_rules.specs.Judgements.{Gives};
ghost use Rattle.syntax_tree.specs.expression_tree.Trees.{view_designator, view_expression};
ghost use Rattle.call_rules.specs.method_rules.Methods.{view_bound};
ghost use Rattle.tp_check_expr.specs.Owners.{deeper_with, with_depth, held, view_instance, self_word, self_in, later_method, method_before, self_of, self_loaded, owner_in, type_meant, type_named, type_in, inherited_from};

use crate::names::variable;
use call_rules::method_rules::{BoundMethod, inherited};
use scopes::{BlockKind, Entry, Found, Scope};
use std::alloc::Global;
use syntax_tree::expression_tree::designator_in;
use syntax_tree::{Designator, Expression, Identifier};
use type_layout::{Name, Place, TypeId};
use typed_tree::{Expr, PlaceExpr, Variable};
use typing_rules::{Refusal, Rule, broken, loaded};

/// The object of a method.
#[derive(Drop)]
pub(crate) struct Instance {
    pub class: TypeId,
    pub place: PlaceExpr,
}

/// The name of a type, where it stands.
#[derive(Clone, Copy, Debug, PartialEq, Eq)]
pub(crate) struct TypeName {
    pub place: Place,
    pub ty: TypeId,
}

// The number of `with`s with one block more.
fn deeper_with(kind: Option<&BlockKind>, depth: u32) -> u32
    requires { depth < 4294967295 }
    ensures value { result ≡ deeper_with (option_copied kind.entry) depth }
    ensures bound { result ≤ depth + 1 }
{
    match kind {
        Some(BlockKind::With { .. }) => depth + 1,
        _ => depth,
    }
}

// How many of the blocks before this one are those of `with`s.
fn with_depth(scope: &Scope, block: u32) -> u32
    ensures { result ≡ with_depth scope.now block }
{
    let mut depth = 0;
    for number in 0..block {
        depth = deeper_with(scope.block(number), depth);
    }
    depth
}

// The place that the `with` of a block holds.
fn held(scope: &Scope, block: u32) -> PlaceExpr
    ensures { view_place result ≡ held scope.now block }
{
    PlaceExpr::Var(Variable {
        unit: 0,
        level: 1,
        number: 2_147_483_648u32.saturating_add(with_depth(scope, block)),
    })
}

// The name of these bytes, which are one.
fn known(bytes: &[u8]) -> Name
    requires { IsName bytes.now }
    ensures { result ≡ bytes.now }
{
    match Name::new(bytes) {
        Some(name) => name,
        None => unreachable!(),
    }
}

fn self_name() -> Name
    ensures { result ≡ self_word }
{
    known(b"SELF")
}

// The variable Self that a block itself declares.
fn self_in(scope: &Scope, block: u32) -> Option<Instance>
    ensures { option_map view_instance result ≡ self_in scope.now block }
{
    match scope.find_in(block, &self_name()) {
        Some(
            Entry::Var {
                unit,
                level,
                number,
                ty,
            },
        ) => Some(Instance {
            class: *ty,
            place: PlaceExpr::Var(variable(scope, *unit, *level, *number)),
        }),
        _ => None,
    }
}

// The innermost method's block with one block more.
fn later_method(kind: Option<&BlockKind>, number: u32, before: Option<u32>) -> Option<u32>
    ensures { result ≡ later_method (option_copied kind.entry) number before }
{
    match kind {
        Some(BlockKind::Routine { owner: Some(_), .. }) => Some(number),
        _ => before,
    }
}

// The innermost open block that is a method's.
fn method_block(scope: &Scope) -> Option<u32>
    ensures { result ≡ method_before scope.now (block_count scope.now) }
{
    let mut method = None;
    for number in 0..scope.blocks() {
        method = later_method(scope.block(number), number, method);
    }
    method
}

// Self of the innermost method whose block is open.
fn self_of(scope: &Scope) -> Option<Instance>
    ensures { option_map view_instance result ≡ self_of scope.now }
{
    match method_block(scope) {
        Some(block) => self_in(scope, block),
        None => None,
    }
}

fn self_loaded(alloc: Global, own: Option<Instance>) -> Result<Option<Expr>, Refusal>
    ensures { Gives (λ owner. option_map view_expr owner) result (Ok (self_loaded (option_map view_instance own))) }
{
    match own {
        Some(own) => Ok(Some(loaded(alloc, own.class, own.place)?)),
        None => Ok(None),
    }
}

/// What has the members that are known in a block: what a `with` holds, or the object of a method.
pub(crate) fn owner_in(alloc: Global, scope: &Scope, block: u32) -> Result<Option<Expr>, Refusal>
    ensures { Gives (λ owner. option_map view_expr owner) result (Ok (owner_in scope.now block (kind_of scope.now block))) }
{
    match scope.block(block) {
        Some(BlockKind::With { ty }) => Ok(Some(loaded(alloc, *ty, held(scope, block))?)),
        Some(BlockKind::Routine { owner: Some(_), .. }) => {
            self_loaded(alloc, self_in(scope, block))
        }
        _ => Ok(None),
    }
}

fn type_meant(scope: &Scope, one: &Identifier) -> Option<TypeName>
    ensures { result ≡ type_meant one.now.position.place (find scope.now one.now.name) }
{
    match scope.find(&one.name) {
        Some(
            Found::Named {
                entry: Entry::Ty { ty },
                ..
            },
        ) => Some(TypeName {
            place: one.position.place,
            ty: *ty,
        }),
        _ => None,
    }
}

/// The type whose name a designator is.
pub(crate) fn type_in(scope: &Scope, tree: &Designator) -> Option<TypeName>
    ensures { result ≡ type_in scope.now (view_designator tree.now) }
{
    match tree {
        Designator::Name(one) => type_meant(scope, one),
        _ => None,
    }
}

fn type_named(scope: &Scope, tree: Option<&Designator>) -> Option<TypeName>
    ensures { result ≡ type_named scope.now (option_map view_designator (option_copied tree.entry)) }
{
    match tree {
        Some(Designator::Name(one)) => type_meant(scope, one),
        _ => None,
    }
}

/// The type whose name an expression is.
pub(crate) fn type_at(scope: &Scope, tree: &Expression) -> Option<TypeName>
    ensures { result ≡ type_in scope.now (view_expression tree.now) }
{
    type_named(scope, designator_in(tree))
}

/// The method that is selected, at a place, of a type's name: of Self of the method round it.
pub(crate) fn inherited_from<'a>(
    scope: &'a Scope,
    place: Place,
    one: TypeName,
    name: &Name,
) -> Result<BoundMethod<'a>, Refusal>
    ensures { Gives view_bound result (inherited_from scope.now place one name.now).run }
{
    match self_of(scope) {
        None => Err(Refusal::Because(broken(one.place, Rule::Stands))),
        Some(own) => inherited(scope, one.place, place, own.class, own.place, one.ty, name),
    }
}
