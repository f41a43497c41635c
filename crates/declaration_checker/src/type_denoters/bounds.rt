//! Subranges, and the sizes of strings and arrays.

ghost use Rattle.std.specs.Prelude.{◌≡◌, Some, reverse};
ghost use Rattle.type_layout.specs.Storage.{integer_storage};
ghost use Rattle.typing_rules.specs.Judgements.{Gives};
ghost use Rattle.constant_checker.specs.constant_expressions.Values.{number_of};
ghost use Rattle.declaration_checker.specs.type_denoters.Additions.{denoted};
ghost use Rattle.declaration_checker.specs.type_denoters.Denoters.{host_of, set_base_of, range_of, is_size, string_of, is_index, array_of, arrays_of};

use crate::type_denoters::additions::{added, with_set};
use constant_checker::constant_expressions::Constant;
use scopes::{BOOLEAN, BYTE, CHAR, Scope};
use type_layout::{Host, Name, Place, TypeDef, TypeId, storage_of};
use typed_tree::Value;
use typing_rules::{
    Refusal, Rule, Sort, are_of_one_host, broken, is_integer, sort_of_type, stored_of_type,
};

fn number_of(constant: &Constant) -> i32
    ensures { result ≡ number_of constant.now.value }
{
    match constant.value {
        Value::Number(number) => number,
        Value::Chars(_) | Value::Nil | Value::Elements(_) => 0,
    }
}

fn host_of(sort: Sort, low: i32, high: i32) -> Host
    ensures { result ≡ host_of sort low high }
{
    match sort {
        Sort::Char => Host::Char,
        Sort::Boolean => Host::Boolean,
        Sort::Enumeration(_) => Host::Enumeration,
        _ => storage_of(Host::LongInt, low, high),
    }
}

// What sets whose elements are of a sort are over: all of the host, of integers 0..255.
fn set_base_of(sort: Sort) -> TypeId
    ensures { result ≡ set_base_of sort }
{
    match sort {
        Sort::Char => CHAR,
        Sort::Boolean => BOOLEAN,
        Sort::Enumeration(ty) => ty,
        _ => BYTE,
    }
}

/// A subrange that begins at a place: its bounds are of one host, and the first is not above the last. The set that set constructors
/// of its values have follows it in the table.
#[tactic(auto, unfolding(crate::specs::type_denoters::Denoters::range_of))]
pub(crate) fn range_of(
    scope: &mut Scope,
    unit: &Name,
    place: Place,
    low: &Constant,
    high: &Constant,
) -> Result<TypeId, Refusal>
    ensures { Gives (λ ty. denoted ty scope.new) result (range_of unit.now scope.old place low.now high.now).run }
{
    let first = sort_of_type(scope.types(), low.ty);
    let last = sort_of_type(scope.types(), high.ty);
    if !are_of_one_host(first, last) {
        return Err(Refusal::Because(broken(place, Rule::Constant)));
    }
    let low = number_of(low);
    let high = number_of(high);
    let host = host_of(first, low, high);
    let one = TypeDef::Ordinal { host, low, high };
    let ty = added(scope, unit, place, Rule::Constant, one)?;
    with_set(scope, unit, place, set_base_of(first))?;
    Ok(ty)
}

fn is_size(sort: Sort, number: i32) -> bool
    ensures { result ≡ is_size sort number }
{
    is_integer(sort) && 1 <= number && number <= 255
}

/// Strings of a size that begin at a place: the size is an integer in 1..255.
#[tactic(auto, unfolding(crate::specs::type_denoters::Denoters::string_of))]
pub(crate) fn string_of(
    scope: &mut Scope,
    unit: &Name,
    place: Place,
    size: &Constant,
) -> Result<TypeId, Refusal>
    ensures { Gives (λ ty. denoted ty scope.new) result (string_of unit.now scope.old place size.now).run }
{
    let number = number_of(size);
    if !is_size(sort_of_type(scope.types(), size.ty), number) {
        return Err(Refusal::Because(broken(place, Rule::StringSize)));
    }
    let max = number.unsigned_abs() as u8;
    added(scope, unit, place, Rule::StringSize, TypeDef::Str { max })
}

fn is_index(stored: Option<Host>) -> bool
    ensures { result ≡ is_index stored }
{
    match stored {
        None | Some(Host::LongInt) => false,
        Some(_) => true,
    }
}

#[tactic(auto, unfolding(crate::specs::type_denoters::Denoters::array_of))]
fn array_of(
    scope: &mut Scope,
    unit: &Name,
    place: Place,
    index: TypeId,
    element: TypeId,
) -> Result<TypeId, Refusal>
    ensures { Gives (λ ty. denoted ty scope.new) result (array_of unit.now scope.old place index element).run }
{
    if !is_index(stored_of_type(scope.types(), Some(index))) {
        return Err(Refusal::Because(broken(place, Rule::IndexType)));
    }
    added(
        scope,
        unit,
        place,
        Rule::IndexType,
        TypeDef::ArrayOf { index, element },
    )
}

/// Arrays of arrays that begin at a place, by their index types, the last of which has the elements.
#[tactic(auto, using(crate::proofs::type_denoters::Steps::arrays_step))]
pub(crate) fn arrays_of(
    scope: &mut Scope,
    unit: &Name,
    place: Place,
    indexes: Vec<TypeId>,
    element: TypeId,
) -> Result<TypeId, Refusal>
    ensures { Gives (λ ty. denoted ty scope.new) result (arrays_of unit.now place (reverse indexes.items) (denoted element scope.old)).run }
{
    let mut indexes = indexes;
    let mut ty = element;
    while let Some(index) = indexes.pop() {
        ty = array_of(scope, unit, place, index, ty)?;
    }
    Ok(ty)
}
