//! Set constructors of constants.

ghost use Rattle.std.specs.Prelude.{◌≡◌, IfOk, [], Some};
ghost use Rattle.std.specs.Option.{option_copied};
ghost use Rattle.typing_rules.specs.Judgements.{Gives};
ghost use Rattle.constant_checker.specs.constant_expressions.Values.{is_within, itself};
ghost use Rattle.constant_checker.specs.constant_expressions.Constructors.{ordinal_of, is_element, is_span, are_spans, first_sort, byte_of, elements_with, bounds_by, base_bounds, set_by, set_of};

use crate::constant_expressions::constants::{Constant, bounds_at, number_of, set_constant};
use call_rules::set_rules::set_over;
use common_values::sets::with_range;
use scopes::SET_OF_BYTE;
use std::alloc::{AllocError, Global};
use type_layout::{Host, Place, TypeDef, TypeId, Types};
use typing_rules::{Refusal, Rule, Sort, are_of_one_host, broken, definition, sort_of_type};

/// A constant in a set constructor: what it is, and its number if it is an ordinal.
#[derive(Clone, Copy, Debug, PartialEq, Eq)]
pub struct Ordinal {
    pub sort: Sort,
    pub number: i32,
}

/// The ordinals from one to another.
#[derive(Clone, Copy, Debug, PartialEq, Eq)]
pub struct Span {
    pub low: Ordinal,
    pub high: Ordinal,
}

/// A constant as a set constructor lists it.
pub(crate) fn ordinal_of(types: &Types, constant: &Constant) -> Ordinal
    ensures { result ≡ ordinal_of types.now.types constant.now }
{
    Ordinal {
        sort: sort_of_type(types, constant.ty),
        number: number_of(&constant.value),
    }
}

fn is_within(bounds: (i32, i32), number: i32) -> bool
    ensures { result ≡ is_within bounds number }
{
    bounds.0 <= number && number <= bounds.1
}

fn is_element(sort: Sort, bounds: (i32, i32), one: Ordinal) -> bool
    ensures { result ≡ is_element sort bounds one }
{
    let number = one.number;
    are_of_one_host(sort, one.sort)
        && (Host::Byte.holds(number, number) && is_within(bounds, number))
}

fn is_span(sort: Sort, bounds: (i32, i32), one: Span) -> bool
    ensures { result ≡ is_span sort bounds one }
{
    is_element(sort, bounds, one.low) && is_element(sort, bounds, one.high)
}

// Whether all are ordinals of a host in 0..255, within the bounds of what the set is over.
fn are_spans(sort: Sort, bounds: (i32, i32), spans: &[Span]) -> bool
    ensures { result ≡ are_spans sort bounds spans.now }
{
    for one in spans {
        if !is_span(sort, bounds, *one) {
            return false;
        }
    }
    true
}

fn first_sort(spans: &[Span]) -> Option<Sort>
    ensures { result ≡ first_sort spans.now }
{
    match spans {
        [] => None,
        [one, ..] => Some(one.low.sort),
    }
}

// The byte of an ordinal in 0..255.
fn byte_of(number: i32) -> u8
    ensures { result ≡ byte_of number }
{
    (number.unsigned_abs() % 256) as u8
}

// The elements of spans in 0..255.
fn elements_of(alloc: Global, spans: &[Span]) -> Result<Vec<u8>, AllocError>
    ensures { IfOk result (λ elements. elements.items ≡ elements_with [] spans.now) }
{
    let mut elements = Vec::new(alloc);
    for one in spans {
        let low = byte_of(one.low.number);
        let high = byte_of(one.high.number);
        elements = with_range(alloc, elements.as_slice(), low, high)?;
    }
    Ok(elements)
}

// The bounds of what a set of a type is over.
fn base_bounds(types: &Types, ty: Option<TypeId>) -> (i32, i32)
    ensures { result ≡ base_bounds types.now.types ty }
{
    match ty {
        Some(ty) => bounds_by(types, definition(types, ty)),
        None => (0, 255),
    }
}

fn bounds_by(types: &Types, one: Option<&TypeDef>) -> (i32, i32)
    ensures { result ≡ bounds_by types.now.types (option_copied one.entry) }
{
    match one {
        Some(TypeDef::SetOf { base }) => bounds_at(types, *base),
        _ => (0, 255),
    }
}

// The set of spans that begin with an ordinal of a sort.
fn set_by(
    alloc: Global,
    types: &Types,
    place: Place,
    sort: Sort,
    spans: &[Span],
) -> Result<Constant, Refusal>
    ensures { Gives itself result (set_by types.now.types place (Some sort) spans.now).run }
{
    let over = set_over(types, sort);
    if !are_spans(sort, base_bounds(types, over), spans) {
        return Err(Refusal::Because(broken(place, Rule::Listed)));
    }
    match over {
        None => Err(Refusal::Because(broken(place, Rule::Listed))),
        Some(ty) => {
            let elements = elements_of(alloc, spans)?;
            set_constant(alloc, ty, elements.as_slice())
        }
    }
}

/// The set of what a constructor at a place lists.
#[tactic(auto, unfolding(crate::specs::constant_expressions::Constructors::set_of))]
pub(crate) fn set_of(
    alloc: Global,
    types: &Types,
    place: Place,
    spans: &[Span],
) -> Result<Constant, Refusal>
    ensures { Gives itself result (set_of types.now.types place spans.now).run }
{
    match first_sort(spans) {
        None => set_constant(alloc, SET_OF_BYTE, &[]),
        Some(sort) => set_by(alloc, types, place, sort, spans),
    }
}
