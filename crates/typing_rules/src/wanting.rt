//! Values where a type is wanted.

ghost use Rattle.std.specs.Prelude.{◌≡◌, Ok, Some, option_copied};
ghost use Rattle.typed_tree.specs.Expressions.{view_expr, Convert};
ghost use Rattle.typing_rules.specs.Judgements.{Gives};
ghost use Rattle.typing_rules.specs.Wanted.{same_host, predefined, stored_of_type, stored_of, converted, as_ordinal, as_text, as_pointer, wanted_by, wanted, wanted_in, constant_type, constant, untyped, nil};

use crate::Refusal;
use crate::sorts::{Sort, definition, number_type, sort_of_type, type_of};
use scopes::{BOOLEAN, BYTE, CHAR, INTEGER, LONG_INT, SHORT_INT, STRING, WORD};
use std::alloc::Global;
use type_layout::{Bytes, Host, TypeDef, TypeId, Types, storage_of};
use typed_tree::{Expr, Value};

/// The predefined type of a host; of an enumeration, the type itself.
pub fn predefined(stored: Host, ty: TypeId) -> TypeId
    ensures { result ≡ predefined stored ty }
{
    match stored {
        Host::ShortInt => SHORT_INT,
        Host::Byte => BYTE,
        Host::Integer => INTEGER,
        Host::Word => WORD,
        Host::LongInt => LONG_INT,
        Host::Char => CHAR,
        Host::Boolean => BOOLEAN,
        Host::Enumeration => ty,
    }
}

/// How the values of a type are stored, if they are ordinals.
pub fn stored_of_type(types: &Types, ty: Option<TypeId>) -> Option<Host>
    ensures { result ≡ stored_of_type types.now.types ty }
{
    match definition(types, ty?) {
        Some(TypeDef::Ordinal { host, low, high }) => Some(storage_of(*host, *low, *high)),
        _ => None,
    }
}

fn convert(alloc: Global, ty: TypeId, operand: Expr) -> Result<Expr, Refusal>
    ensures { Gives view_expr result (Ok (Convert ty (view_expr operand))) }
{
    Ok(Expr::Convert {
        ty,
        operand: Box::new(alloc, operand)?,
    })
}

/// An ordinal by the low bytes of another predefined type, where it is stored in another.
pub fn converted(
    alloc: Global,
    ty: TypeId,
    wanted: Host,
    stored: Option<Host>,
    expr: Expr,
) -> Result<Expr, Refusal>
    ensures { Gives view_expr result (Ok (converted ty wanted stored (view_expr expr))) }
{
    match stored {
        Some(stored) if stored != wanted => convert(alloc, predefined(wanted, ty), expr),
        _ => Ok(expr),
    }
}

fn as_ordinal(
    alloc: Global,
    ty: TypeId,
    wanted: Host,
    stored: Option<Host>,
    expr: Expr,
) -> Result<Expr, Refusal>
    ensures { Gives view_expr result (Ok (as_ordinal ty wanted stored (view_expr expr))) }
{
    match expr {
        Expr::Const {
            value: Value::Number(number),
            ..
        } if wanted.holds(number, number) => Ok(Expr::Const {
            ty,
            value: Value::Number(number),
        }),
        _ => converted(alloc, ty, wanted, stored, expr),
    }
}

/// A Char as a string.
pub fn as_text(alloc: Global, stored: Option<Host>, expr: Expr) -> Result<Expr, Refusal>
    ensures { Gives view_expr result (Ok (as_text stored (view_expr expr))) }
{
    if stored != Some(Host::Char) {
        return Ok(expr);
    }
    match expr {
        Expr::Const {
            value: Value::Number(number),
            ..
        } if Host::Char.holds(number, number) => Ok(Expr::Const {
            ty: STRING,
            value: Value::Chars(Bytes::from_slice(alloc, &[number.unsigned_abs() as u8])?),
        }),
        _ => convert(alloc, STRING, expr),
    }
}

/// The type of nil where no type is wanted, which no table has.
pub const UNTYPED: TypeId = TypeId(4_294_967_295);

/// nil where no type is wanted.
pub fn nil() -> Expr
    ensures { view_expr result ≡ nil }
{
    Expr::Const {
        ty: UNTYPED,
        value: Value::Nil,
    }
}

/// nil has the pointer type that is wanted, and another value stays as it is.
pub(crate) fn as_pointer(ty: TypeId, expr: Expr) -> Expr
    ensures { view_expr result ≡ as_pointer ty (view_expr expr) }
{
    match expr {
        Expr::Const {
            value: Value::Nil,
            ..
        } => Expr::Const {
            ty,
            value: Value::Nil,
        },
        _ => expr,
    }
}

/// A value where a type is wanted. A constant that the type's storage holds, and a constant Char where a string is wanted,
/// is a constant of it; any other ordinal that is stored otherwise, and a Char as a string, is converted. nil takes a pointer
/// type.
#[tactic(auto, unfolding(crate::specs::Wanted::wanted))]
pub fn wanted(alloc: Global, types: &Types, ty: TypeId, expr: Expr) -> Result<Expr, Refusal>
    ensures { Gives view_expr result (Ok (wanted types.now.types ty (view_expr expr))) }
{
    let stored = stored_of_type(types, type_of(&expr));
    match definition(types, ty) {
        Some(TypeDef::Ordinal { host, low, high }) => as_ordinal(
            alloc,
            ty,
            storage_of(*host, *low, *high),
            stored,
            expr,
        ),
        Some(TypeDef::Str { .. }) => as_text(alloc, stored, expr),
        Some(TypeDef::PointerTo { .. }) => Ok(as_pointer(ty, expr)),
        _ => Ok(expr),
    }
}

/// The same where a type may be wanted.
pub(crate) fn wanted_in(
    alloc: Global,
    types: &Types,
    ty: Option<TypeId>,
    expr: Expr,
) -> Result<Expr, Refusal>
    ensures { Gives view_expr result (Ok (wanted_in types.now.types ty (view_expr expr))) }
{
    match ty {
        Some(ty) => wanted(alloc, types, ty, expr),
        None => Ok(expr),
    }
}

/// A constant number of a type, where no type is wanted: an integer has the first of Integer, Word and LongInt that
/// holds it.
pub fn constant(types: &Types, ty: TypeId, number: i32) -> Expr
    ensures { view_expr result ≡ constant types.now.types ty number }
{
    let ty = match sort_of_type(types, ty) {
        Sort::Integer(_) => number_type(number),
        _ => ty,
    };
    Expr::Const {
        ty,
        value: Value::Number(number),
    }
}
