//! What operators look at in an operand.

ghost use Rattle.std.specs.Prelude.{◌≡◌, ◌+◌, Some, option_copied};
ghost use Rattle.typed_tree.specs.Expressions.{view_expr, view_elements, type_of};
ghost use Rattle.scopes.specs.Predeclared.{type_id};
ghost use Rattle.typed_tree.specs.type_fits.Fits.{definition};
ghost use Rattle.typing_rules.specs.Sorts.{range_of, only, is_within, are_within, holding_type, common_type, number_type, set_base, is_enumeration, host_by, host_in, sort_stored, base_stored, base_of, sort_by, sort_of_type, known, sort_of_constant, sort_of_set, sort_of_result, sort_of};

use scopes::{INTEGER, LONG_INT, WORD};
use type_layout::{Host, TypeDef, TypeId, Types, storage_of};
use typed_tree::{Expr, SetElement, Value};

/// The integers from `low` to `high`, both included.
#[derive(Clone, Copy, Debug, PartialEq, Eq)]
pub struct Range {
    pub low: i32,
    pub high: i32,
}

/// What the elements of a set are. The empty set may be over any base.
#[derive(Clone, Copy, Debug, PartialEq, Eq)]
pub enum SetBase {
    Any,
    Integers,
    Booleans,
    Chars,
    Enumeration(TypeId),
}

/// What a value is to operators. An enumeration goes by its type, texts are strings. nil has no type of its own.
#[derive(Clone, Copy, Debug, PartialEq, Eq)]
pub enum Sort {
    Integer(Range),
    Boolean,
    Char,
    Enumeration(TypeId),
    Text,
    Set(SetBase),
    Pointer,
    Nil,
    Other,
}

// All values that are stored as this host.
fn range_of(stored: Host) -> Range
    ensures { result ≡ range_of stored }
{
    Range {
        low: stored.least(),
        high: stored.greatest(),
    }
}

fn only(number: i32) -> Range
    ensures { result ≡ only number }
{
    Range {
        low: number,
        high: number,
    }
}

fn is_within(stored: Host, range: Range) -> bool
    ensures { result ≡ is_within stored range }
{
    stored.holds(range.low, range.high)
}

/// The first of Integer, Word and LongInt that holds the range.
pub fn holding_type(range: Range) -> TypeId
    ensures { result ≡ holding_type range }
{
    if is_within(Host::Integer, range) {
        INTEGER
    } else if is_within(Host::Word, range) {
        WORD
    } else {
        LONG_INT
    }
}

/// The first of Integer, Word and LongInt that holds both ranges.
pub(crate) fn common_type(left: Range, right: Range) -> TypeId
    ensures { result ≡ common_type left right }
{
    if is_within(Host::Integer, left) && is_within(Host::Integer, right) {
        INTEGER
    } else if is_within(Host::Word, left) && is_within(Host::Word, right) {
        WORD
    } else {
        LONG_INT
    }
}

/// The type of a constant number where no other is wanted: the first of Integer, Word and LongInt that holds it.
pub fn number_type(number: i32) -> TypeId
    ensures { result ≡ number_type number }
{
    holding_type(only(number))
}

// What a set is over.
fn set_base(one: Option<&TypeDef>) -> Option<TypeId>
    ensures { result ≡ set_base (option_copied one.entry) }
{
    match one {
        Some(TypeDef::SetOf { base }) => Some(*base),
        _ => None,
    }
}

fn is_enumeration(one: Option<&TypeDef>) -> bool
    ensures { result ≡ is_enumeration (option_copied one.entry) }
{
    match one {
        Some(TypeDef::Ordinal { host, .. }) => matches!(host, Host::Enumeration),
        _ => false,
    }
}

fn host_by(types: &Types, ty: TypeId, base: Option<TypeId>) -> TypeId
    ensures { result ≡ host_by types.now.types ty base }
{
    match base {
        Some(base) if is_enumeration(definition(types, base)) => base,
        _ => ty,
    }
}

// The type behind one in the table.
fn behind(types: &Types, ty: TypeId) -> Option<&TypeDef>
    ensures { option_copied result ≡ definition types.now.types (type_id (ty.0 + 1)) }
{
    if ty.0 < types.count() {
        definition(types, TypeId(ty.0 + 1))
    } else {
        None
    }
}

// The enumeration that the values of an ordinal type are of: what the set over them, which follows, is over.
fn host_in(types: &Types, ty: TypeId) -> TypeId
    ensures { result ≡ host_in types.now.types ty }
{
    host_by(types, ty, set_base(behind(types, ty)))
}

fn sort_stored(ty: TypeId, stored: Host) -> Sort
    ensures { result ≡ sort_stored ty stored }
{
    match stored {
        Host::Char => Sort::Char,
        Host::Boolean => Sort::Boolean,
        Host::Enumeration => Sort::Enumeration(ty),
        _ => Sort::Integer(range_of(stored)),
    }
}

/// The type with this id, if the table has it.
pub fn definition(types: &Types, ty: TypeId) -> Option<&TypeDef>
    ensures { option_copied result ≡ definition types.now.types ty }
{
    if ty.0 < types.count() {
        Some(types.get(ty))
    } else {
        None
    }
}

fn base_stored(ty: TypeId, stored: Host) -> SetBase
    ensures { result ≡ base_stored ty (Some stored) }
{
    match stored {
        Host::Char => SetBase::Chars,
        Host::Boolean => SetBase::Booleans,
        Host::Enumeration => SetBase::Enumeration(ty),
        _ => SetBase::Integers,
    }
}

fn base_of(types: &Types, ty: TypeId) -> SetBase
    ensures { result ≡ base_of types.now.types ty }
{
    match definition(types, ty) {
        Some(TypeDef::Ordinal { host, low, high }) => base_stored(
            host_in(types, ty),
            storage_of(*host, *low, *high),
        ),
        _ => SetBase::Any,
    }
}

fn sort_by(types: &Types, ty: TypeId, one: &TypeDef) -> Sort
    ensures { result ≡ sort_by types.now.types ty (Some one.now) }
{
    match one {
        TypeDef::Ordinal { host, low, high } => {
            sort_stored(host_in(types, ty), storage_of(*host, *low, *high))
        }
        TypeDef::Str { .. } => Sort::Text,
        TypeDef::SetOf { base } => Sort::Set(base_of(types, *base)),
        TypeDef::PointerTo { .. } => Sort::Pointer,
        _ => Sort::Other,
    }
}

/// What the values of a type are.
pub fn sort_of_type(types: &Types, ty: TypeId) -> Sort
    ensures { result ≡ sort_of_type types.now.types ty }
{
    match definition(types, ty) {
        Some(one) => sort_by(types, ty, one),
        None => Sort::Other,
    }
}

fn known(number: i32, sort: Sort) -> Sort
    ensures { result ≡ known number sort }
{
    match sort {
        Sort::Integer(_) => Sort::Integer(only(number)),
        _ => sort,
    }
}

/// What a constant of a type is to operators: an integer lies at its value.
pub fn sort_of_constant(types: &Types, ty: TypeId, value: &Value) -> Sort
    ensures { result ≡ sort_of_constant types.now.types ty value.now }
{
    match value {
        Value::Number(number) => known(*number, sort_of_type(types, ty)),
        Value::Nil => Sort::Nil,
        Value::Elements(elements) if elements.is_empty() => Sort::Set(SetBase::Any),
        Value::Chars(_) | Value::Elements(_) => sort_of_type(types, ty),
    }
}

/// The type of an expression, which a call of a procedure does not have.
pub fn type_of(expr: &Expr) -> Option<TypeId>
    ensures { result ≡ type_of (view_expr expr.now) }
{
    match expr {
        Expr::Const { ty, .. }
        | Expr::RoutineValue { ty, .. }
        | Expr::Load { ty, .. }
        | Expr::Unary { ty, .. }
        | Expr::Binary { ty, .. }
        | Expr::Convert { ty, .. }
        | Expr::Range { ty, .. }
        | Expr::SetOf { ty, .. }
        | Expr::Make { ty, .. } => Some(*ty),
        Expr::Call { ty, .. }
        | Expr::CallVirtual { ty, .. }
        | Expr::CallThrough { ty, .. }
        | Expr::Std { ty, .. } => *ty,
    }
}

// A set that lists nothing is one over any base.
fn sort_of_set(types: &Types, ty: TypeId, elements: &[SetElement]) -> Sort
    ensures { result ≡ sort_of_set (view_elements elements.now) (sort_of_type types.now.types ty) }
{
    match elements {
        [] => Sort::Set(SetBase::Any),
        [SetElement::One(_), ..] | [SetElement::Span(..), ..] => sort_of_type(types, ty),
    }
}

/// What an operand is to operators. A constant lies at its value, any other operand anywhere in the predefined type
/// that stores it.
pub fn sort_of(types: &Types, expr: &Expr) -> Sort
    ensures { result ≡ sort_of types.now.types (view_expr expr.now) }
{
    match expr {
        Expr::Const { ty, value } => sort_of_constant(types, *ty, value),
        Expr::SetOf { ty, elements } => sort_of_set(types, *ty, elements.as_slice()),
        _ => match type_of(expr) {
            Some(ty) => sort_of_type(types, ty),
            None => Sort::Other,
        },
    }
}
