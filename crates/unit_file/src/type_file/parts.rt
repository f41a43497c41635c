//! Reading numbers of types, fields, headers and methods.

ghost use Rattle.std.specs.Prelude.{◌≡◌, ◌<◌, ◌==◌, nat_lt, option_map, IfOk};
ghost use Rattle.object_file.specs.file_parts.Parts.{Gives, ruled, each, byte_at, long_at, option_at};
ghost use Rattle.unit_file.specs.type_file.Reading.{kind_of, kind_at, id_of, id_at, passes, id_option_where, field_at, fields_at, param_at, params_at, header_at, method_at, methods_at};

use object_file::file_parts::{PartError, byte_of, damaged, long_of, name_of, option_of, truth_of};
use std::alloc::Global;
use type_layout::{Field, Fields, Header, Kind, Method, Methods, Param, Params, RoutineId, TypeId};

fn kind_number(bytes: &[u8]) -> Result<(u8, &[u8]), PartError>
    ensures few { IfOk result (λ x. x.0 < 4) }
    ensures read { Gives (λ x. (x.0, x.1.now)) result (ruled (λ number. nat_lt number 4) byte_at bytes.now) }
{
    let (number, rest) = byte_of(bytes)?;
    if number >= 4 {
        return damaged(bytes.len());
    }
    Ok((number, rest))
}

fn kind_with(number: u8) -> Kind
    requires { number < 4 }
    ensures { result ≡ kind_of number }
{
    match number {
        0 => Kind::Procedure,
        1 => Kind::Function,
        2 => Kind::Constructor,
        _ => Kind::Destructor,
    }
}

#[tactic(auto, unfolding(crate::specs::type_file::Reading::kind_at))]
fn kind_of(bytes: &[u8]) -> Result<(Kind, &[u8]), PartError>
    ensures { Gives (λ x. (x.0, x.1.now)) result (kind_at bytes.now) }
{
    let (number, rest) = kind_number(bytes)?;
    Ok((kind_with(number), rest))
}

/// A number below a bound.
fn number_below(bound: u32, bytes: &[u8]) -> Result<(u32, &[u8]), PartError>
    ensures { Gives (λ x. (x.0, x.1.now)) result (ruled (λ number. nat_lt number bound) long_at bytes.now) }
{
    let (number, rest) = long_of(bytes)?;
    if number >= bound {
        return damaged(bytes.len());
    }
    Ok((number, rest))
}

/// The number of a type below a bound.
#[tactic(auto, unfolding(crate::specs::type_file::Reading::id_where))]
pub fn id_below(bound: u32, bytes: &[u8]) -> Result<(TypeId, &[u8]), PartError>
    ensures { Gives (λ x. (x.0, x.1.now)) result (id_at bound bytes.now) }
{
    let (number, rest) = number_below(bound, bytes)?;
    Ok((TypeId(number), rest))
}

fn passes_below(bound: u32, number: Option<u32>) -> bool
    ensures { result ≡ passes (λ number. nat_lt number bound) number }
{
    match number {
        None => true,
        Some(number) => number < bound,
    }
}

fn option_below(bound: u32, bytes: &[u8]) -> Result<(Option<u32>, &[u8]), PartError>
    ensures { Gives (λ x. (x.0, x.1.now)) result (ruled (passes (λ number. nat_lt number bound)) option_at bytes.now) }
{
    let (number, rest) = option_of(bytes)?;
    if !passes_below(bound, number) {
        return damaged(bytes.len());
    }
    Ok((number, rest))
}

pub(crate) fn id_option(number: Option<u32>) -> Option<TypeId>
    ensures { result ≡ option_map id_of number }
{
    match number {
        None => None,
        Some(number) => Some(TypeId(number)),
    }
}

/// The number of a type below a bound, which may be absent.
#[tactic(auto, unfolding(crate::specs::type_file::Reading::id_option_where))]
fn id_option_below(bound: u32, bytes: &[u8]) -> Result<(Option<TypeId>, &[u8]), PartError>
    ensures { Gives (λ x. (x.0, x.1.now)) result (id_option_where (λ number. nat_lt number bound) bytes.now) }
{
    let (number, rest) = option_below(bound, bytes)?;
    Ok((id_option(number), rest))
}

#[tactic(auto, unfolding(crate::specs::type_file::Reading::field_at))]
fn field_of(count: u32, bytes: &[u8]) -> Result<(Field, &[u8]), PartError>
    ensures { Gives (λ x. (x.0, x.1.now)) result (field_at count bytes.now) }
{
    let (name, rest) = name_of(bytes)?;
    let (ty, rest) = id_below(count, rest)?;
    Ok((Field { name, ty }, rest))
}

fn fields_in_turn(
    alloc: Global,
    left: u32,
    count: u32,
    bytes: &[u8],
) -> Result<(Fields, &[u8]), PartError>
    ensures { Gives (λ x. (x.0, x.1.now)) result (each (field_at count) left bytes.now) }
{
    let mut fields = Fields::new(alloc);
    let mut rest = bytes;
    for _ in 0..left {
        let (field, after) = field_of(count, rest)?;
        fields.push(field)?;
        rest = after;
    }
    Ok((fields, rest))
}

/// Fields, whose types have numbers below a bound.
#[tactic(auto, unfolding(crate::specs::type_file::Reading::fields_at))]
pub(crate) fn fields_of(
    alloc: Global,
    count: u32,
    bytes: &[u8],
) -> Result<(Fields, &[u8]), PartError>
    ensures { Gives (λ x. (x.0, x.1.now)) result (fields_at count bytes.now) }
{
    let (left, rest) = long_of(bytes)?;
    fields_in_turn(alloc, left, count, rest)
}

#[tactic(auto, unfolding(crate::specs::type_file::Reading::param_at))]
fn param_of(count: u32, bytes: &[u8]) -> Result<(Param, &[u8]), PartError>
    ensures { Gives (λ x. (x.0, x.1.now)) result (param_at count bytes.now) }
{
    let (name, rest) = name_of(bytes)?;
    let (by_ref, rest) = truth_of(rest)?;
    let (ty, rest) = id_below(count, rest)?;
    Ok((Param { name, by_ref, ty }, rest))
}

fn params_in_turn(
    alloc: Global,
    left: u32,
    count: u32,
    bytes: &[u8],
) -> Result<(Params, &[u8]), PartError>
    ensures { Gives (λ x. (x.0, x.1.now)) result (each (param_at count) left bytes.now) }
{
    let mut params = Params::new(alloc);
    let mut rest = bytes;
    for _ in 0..left {
        let (param, after) = param_of(count, rest)?;
        params.push(param)?;
        rest = after;
    }
    Ok((params, rest))
}

#[tactic(auto, unfolding(crate::specs::type_file::Reading::params_at))]
fn params_of(alloc: Global, count: u32, bytes: &[u8]) -> Result<(Params, &[u8]), PartError>
    ensures { Gives (λ x. (x.0, x.1.now)) result (params_at count bytes.now) }
{
    let (left, rest) = long_of(bytes)?;
    params_in_turn(alloc, left, count, rest)
}

/// A header, whose types have numbers below a bound.
#[tactic(auto, unfolding(crate::specs::type_file::Reading::header_at))]
pub fn header_of(alloc: Global, count: u32, bytes: &[u8]) -> Result<(Header, &[u8]), PartError>
    ensures { Gives (λ x. (x.0, x.1.now)) result (header_at count bytes.now) }
{
    let (kind, rest) = kind_of(bytes)?;
    let (params, rest) = params_of(alloc, count, rest)?;
    let (result, rest) = id_option_below(count, rest)?;
    let header = Header {
        kind,
        params,
        result,
    };
    Ok((header, rest))
}

/// A number that is this one.
fn number_that_is(wanted: usize, bytes: &[u8]) -> Result<(u32, &[u8]), PartError>
    ensures { Gives (λ x. (x.0, x.1.now)) result (ruled (λ unit. unit == wanted) long_at bytes.now) }
{
    let (number, rest) = long_of(bytes)?;
    if number as usize != wanted {
        return damaged(bytes.len());
    }
    Ok((number, rest))
}

#[tactic(auto, unfolding(crate::specs::type_file::Reading::method_at))]
fn method_of(
    alloc: Global,
    count: u32,
    place: usize,
    bytes: &[u8],
) -> Result<(Method, &[u8]), PartError>
    ensures { Gives (λ x. (x.0, x.1.now)) result (method_at count place bytes.now) }
{
    let (name, rest) = name_of(bytes)?;
    let (header, rest) = header_of(alloc, count, rest)?;
    let (is_virtual, rest) = truth_of(rest)?;
    let (unit, rest) = number_that_is(place, rest)?;
    let (number, rest) = long_of(rest)?;
    let method = Method {
        name,
        header,
        is_virtual,
        routine: RoutineId { unit, number },
    };
    Ok((method, rest))
}

fn methods_in_turn(
    alloc: Global,
    left: u32,
    count: u32,
    place: usize,
    bytes: &[u8],
) -> Result<(Methods, &[u8]), PartError>
    ensures { Gives (λ x. (x.0, x.1.now)) result (each (method_at count place) left bytes.now) }
{
    let mut methods = Methods::new(alloc);
    let mut rest = bytes;
    for _ in 0..left {
        let (method, after) = method_of(alloc, count, place, rest)?;
        methods.push(method)?;
        rest = after;
    }
    Ok((methods, rest))
}

/// Methods of a type whose origin has this place among the units of the list.
#[tactic(auto, unfolding(crate::specs::type_file::Reading::methods_at))]
pub(crate) fn methods_of(
    alloc: Global,
    count: u32,
    place: usize,
    bytes: &[u8],
) -> Result<(Methods, &[u8]), PartError>
    ensures { Gives (λ x. (x.0, x.1.now)) result (methods_at count place bytes.now) }
{
    let (left, rest) = long_of(bytes)?;
    methods_in_turn(alloc, left, count, place, rest)
}
