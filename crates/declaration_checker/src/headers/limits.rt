//! The bytes of arguments.

ghost use Rattle.std.specs.Prelude.{◌≡◌, slice_get, sum_by};
ghost use Rattle.typing_rules.specs.Judgements.{Gives};
ghost use Rattle.typed_tree.specs.Slots.{capped};
ghost use Rattle.typed_tree.specs.Frames.{param_bytes, is_string, class_argument, result_argument};
ghost use Rattle.declaration_checker.specs.headers.Headers.{header_bytes, limited};

use type_layout::{Header, Kind, Param, Place, TypeDef, TypeId, Types};
use typed_tree::slot_of_type;
use typing_rules::{Refusal, definition, too_large};

/// The most bytes that the arguments of a call may take.
pub const ARGUMENT_LIMIT: u64 = 256;

fn param_bytes(types: &Types, param: &Param) -> u64
    ensures { result ≡ param_bytes types.now.types param.now }
{
    if param.by_ref {
        4
    } else if slot_of_type(types, param.ty) == 2 {
        2
    } else {
        4
    }
}

fn is_string(types: &Types, ty: TypeId) -> bool
    ensures { result ≡ is_string (slice_get types.now.types ty.0) }
{
    matches!(definition(types, ty), Some(TypeDef::Str { .. }))
}

fn class_argument(kind: Kind) -> u64
    ensures { result ≡ class_argument kind }
{
    match kind {
        Kind::Procedure | Kind::Function => 0,
        Kind::Constructor | Kind::Destructor => 2,
    }
}

fn result_argument(types: &Types, ty: Option<TypeId>) -> u64
    ensures { result ≡ result_argument types.now.types ty }
{
    match ty {
        None => 0,
        Some(ty) => { if is_string(types, ty) { 4 } else { 0 } }
    }
}

fn bytes_of_params(types: &Types, params: &[Param]) -> u64
    ensures { result ≡ capped (sum_by (param_bytes types.now.types) params.now) }
{
    let mut sum = 0u64;
    for param in params {
        sum = sum.saturating_add(param_bytes(types, param));
    }
    sum
}

fn header_bytes(types: &Types, is_method: bool, header: &Header) -> u64
    ensures { result ≡ header_bytes types.now.types is_method header.now }
{
    let own = if is_method { 4u64 } else { 0 };
    let class = class_argument(header.kind);
    let outcome = result_argument(types, header.result);
    bytes_of_params(types, header.params.as_slice()).saturating_add(own.saturating_add(
        class.saturating_add(outcome),
    ))
}

/// The header, if the bytes of its arguments keep their limit.
pub(crate) fn limited(
    types: &Types,
    is_method: bool,
    place: Place,
    header: Header,
) -> Result<Header, Refusal>
    ensures { Gives (λ header. header) result (limited types.now.types is_method place header).run }
{
    let bytes = header_bytes(types, is_method, &header);
    if bytes <= ARGUMENT_LIMIT {
        Ok(header)
    } else {
        Err(Refusal::Because(too_large(place, bytes)))
    }
}
