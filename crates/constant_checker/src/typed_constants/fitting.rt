//! Single values, and lists, against the types that are due.

ghost use Rattle.std.specs.Prelude.{◌≡◌, ◌≤◌, Some, IfSome};
ghost use Rattle.std.specs.Option.{option_copied};
ghost use Rattle.type_layout.specs.declared.definitions.TypeDef.TheVariants as type;
ghost use Rattle.type_layout.specs.Layouts.{bounds_at};
ghost use Rattle.type_layout.specs.Storage.{count_between};
ghost use Rattle.typing_rules.specs.declared.faults.Refusal.TheVariants.{Because};
ghost use Rattle.typing_rules.specs.declared.faults.Rule.TheVariants.{FirstValue};
ghost use Rattle.typing_rules.specs.Faults.{broken};
ghost use Rattle.typing_rules.specs.Judgements.{Gives};
ghost use Rattle.constant_checker.specs.typed_constants.Initializers.{has_every_char, fitted_by, set_fitted, fitted, counted, counted_by};

use crate::constant_expressions::{bytes_of, elements_of, number_of};
use crate::stored_values::{with_ordinal, with_set, with_string};
use crate::typed_constants::bounds::{are_within, byte_bounds};
use crate::typed_constants::written::Written;
use std::alloc::Global;
use type_layout::{Bytes, Host, Place, TypeDef, TypeId, Types, storage_of};
use typing_rules::{
    Refusal, Rule, Sort, are_of_one_host, are_sets, broken, definition, is_text, sort_of_type,
};

// The bounds of a type, (0, 0) of one that is no ordinal.
fn bounds_at(types: &Types, ty: TypeId) -> (i32, i32)
    ensures { result ≡ bounds_at types.now.types ty }
{
    match definition(types, ty) {
        Some(TypeDef::Ordinal { low, high, .. }) => (*low, *high),
        _ => (0, 0),
    }
}

/// What a value, a list or a field at a place is refused for that does not fit.
pub(crate) fn unfit(place: Place) -> Refusal
    ensures { result ≡ Because (broken place FirstValue) }
{
    Refusal::Because(broken(place, Rule::FirstValue))
}

fn ordinal_fitted(
    types: &Types,
    place: Place,
    ty: TypeId,
    host: Host,
    low: i32,
    high: i32,
    before: Bytes,
    written: &Written,
) -> Result<Bytes, Refusal>
    ensures { Gives (λ bytes. bytes) result (fitted_by types.now.types place ty (Some (type.Ordinal host low high)) before written.now).run }
{
    let number = number_of(&written.value);
    let sort = sort_of_type(types, ty);
    if are_of_one_host(sort, written.sort) && low <= number && number <= high {
        Ok(with_ordinal(before, storage_of(host, low, high), number)?)
    } else {
        Err(unfit(place))
    }
}

fn string_fitted(
    alloc: Global,
    types: &Types,
    place: Place,
    ty: TypeId,
    max: u8,
    before: Bytes,
    written: &Written,
) -> Result<Bytes, Refusal>
    ensures { Gives (λ bytes. bytes) result (fitted_by types.now.types place ty (Some (type.Str max)) before written.now).run }
{
    let text = bytes_of(alloc, &written.value)?;
    if is_text(written.sort) && text.len() <= usize::from(max) {
        Ok(with_string(before, max, text.as_slice())?)
    } else {
        Err(unfit(place))
    }
}

fn set_fitted(
    alloc: Global,
    place: Place,
    sort: Sort,
    bounds: Option<(u8, u8)>,
    before: Bytes,
    written: &Written,
) -> Result<Bytes, Refusal>
    requires { IfSome bounds (λ b. b.0 ≤ b.1) }
    ensures { Gives (λ bytes. bytes) result (set_fitted place sort bounds before written.now).run }
{
    match bounds {
        None => Err(unfit(place)),
        Some((low, high)) => {
            let elements = elements_of(&written.value);
            if are_sets(sort, written.sort) && are_within(low, high, elements) {
                Ok(with_set(alloc, before, low, high, elements)?)
            } else {
                Err(unfit(place))
            }
        }
    }
}

fn has_every_char(one: Option<&TypeDef>) -> bool
    ensures { result ≡ has_every_char (option_copied one.entry) }
{
    match one {
        Some(TypeDef::Ordinal { host, low, high }) => {
            *host == Host::Char && *low == 0 && *high == 255
        }
        _ => false,
    }
}

fn chars_fitted(
    alloc: Global,
    types: &Types,
    place: Place,
    ty: TypeId,
    index: TypeId,
    element: TypeId,
    before: Bytes,
    written: &Written,
) -> Result<Bytes, Refusal>
    ensures { Gives (λ bytes. bytes) result (fitted_by types.now.types place ty (Some (type.ArrayOf index element)) before written.now).run }
{
    let text = bytes_of(alloc, &written.value)?;
    let (low, high) = bounds_at(types, index);
    if is_text(written.sort)
        && has_every_char(definition(types, element))
        && text.len() as u64 == count_between(low, high)
    {
        let mut bytes = before;
        bytes.extend_from_slice(text.as_slice())?;
        Ok(bytes)
    } else {
        Err(unfit(place))
    }
}

fn fitted_by(
    alloc: Global,
    types: &Types,
    place: Place,
    ty: TypeId,
    one: Option<&TypeDef>,
    before: Bytes,
    written: &Written,
) -> Result<Bytes, Refusal>
    ensures { Gives (λ bytes. bytes) result (fitted_by types.now.types place ty (option_copied one.entry) before written.now).run }
{
    match one {
        Some(TypeDef::Ordinal { host, low, high }) => {
            ordinal_fitted(types, place, ty, *host, *low, *high, before, written)
        }
        Some(TypeDef::Str { max }) => {
            string_fitted(alloc, types, place, ty, *max, before, written)
        }
        Some(TypeDef::SetOf { base }) => {
            let (low, high) = bounds_at(types, *base);
            let bounds = byte_bounds(low, high);
            set_fitted(
                alloc,
                place,
                sort_of_type(types, ty),
                bounds,
                before,
                written,
            )
        }
        Some(TypeDef::ArrayOf { index, element }) => {
            chars_fitted(alloc, types, place, ty, *index, *element, before, written)
        }
        Some(
            TypeDef::RecordOf { .. }
            | TypeDef::PointerTo { .. }
            | TypeDef::ObjectOf { .. }
            | TypeDef::Procedural { .. },
        )
        | None => Err(unfit(place)),
    }
}

/// The bytes of a value at a place behind those before it, where a type is due; where none is, those before it.
#[tactic(auto, unfolding(crate::specs::typed_constants::Initializers::fitted))]
pub(crate) fn fitted(
    alloc: Global,
    types: &Types,
    place: Place,
    due: Option<TypeId>,
    before: Bytes,
    written: &Written,
) -> Result<Bytes, Refusal>
    ensures { Gives (λ bytes. bytes) result (fitted types.now.types place due before written.now).run }
{
    match due {
        None => Ok(before),
        Some(ty) => fitted_by(
            alloc,
            types,
            place,
            ty,
            definition(types, ty),
            before,
            written,
        ),
    }
}

fn count_between(low: i32, high: i32) -> u64
    ensures { result ≡ count_between low high }
{
    u64::from(high.abs_diff(low)) + 1
}

fn counted_by(
    types: &Types,
    place: Place,
    one: Option<&TypeDef>,
    count: usize,
    bytes: Bytes,
) -> Result<Bytes, Refusal>
    ensures { Gives (λ all. all) result (counted_by types.now.types place (option_copied one.entry) count bytes).run }
{
    match one {
        Some(TypeDef::ArrayOf { index, .. }) => {
            let (low, high) = bounds_at(types, *index);
            if count as u64 == count_between(low, high) {
                Ok(bytes)
            } else {
                Err(unfit(place))
            }
        }
        _ => Err(unfit(place)),
    }
}

/// The bytes of a list of so many values at a place; where an array is due, it has so many elements.
#[tactic(auto, unfolding(crate::specs::typed_constants::Initializers::counted))]
pub(crate) fn counted(
    types: &Types,
    place: Place,
    due: Option<TypeId>,
    count: usize,
    bytes: Bytes,
) -> Result<Bytes, Refusal>
    ensures { Gives (λ all. all) result (counted types.now.types place due count bytes).run }
{
    match due {
        None => Ok(bytes),
        Some(ty) => counted_by(types, place, definition(types, ty), count, bytes),
    }
}
