//! Constants that are written, and codes of ends.

ghost use Rattle.std.specs.Prelude.{◌≡◌, slice_get};
ghost use Rattle.std.specs.Option.{is_some, option_map};
ghost use Rattle.typed_tree.specs.Expressions.{view_expr};
ghost use Rattle.typed_tree.specs.Frames.{is_string};
ghost use Rattle.typed_tree.specs.Statements.{view_written};
ghost use Rattle.literal_programs.specs.Literals.{constant_of, end_code, is_char, item_text, text_in};

use type_layout::{Host, TypeDef, TypeId, Types};
use typed_tree::{Expr, Value, WriteItem};

pub fn is_string(types: &Types, id: TypeId) -> bool
    ensures { result ≡ is_string (slice_get types.now.types id.0) }
{
    id.0 < types.count() && matches!(types.get(id), TypeDef::Str { .. })
}

pub fn is_char(types: &Types, id: TypeId) -> bool
    ensures { result ≡ is_char (slice_get types.now.types id.0) }
{
    id.0 < types.count()
        && matches!(
            types.get(id),
            TypeDef::Ordinal {
                host: Host::Char,
                ..
            }
        )
}

/// A constant, and its type.
pub fn constant(value: &Expr) -> Option<(TypeId, &Value)>
    ensures { option_map (λ x. (x.0, x.1.now)) result ≡ constant_of (view_expr value.now) }
{
    match value {
        Expr::Const { ty, value } => Some((*ty, value)),
        _ => None,
    }
}

fn is_text_constant(types: &Types, ty: TypeId, value: &Value) -> bool
    ensures { result ≡ is_some (text_in (slice_get types.now.types ty.0) value.now) }
{
    match value {
        Value::Chars(_) => is_string(types, ty),
        Value::Number(number) => is_char(types, ty) && 0 <= *number && *number < 256,
        _ => false,
    }
}

/// Whether an item that is written is a constant with a text, and has no width.
pub fn is_text(types: &Types, item: &WriteItem) -> bool
    ensures { result ≡ is_some (item_text types.now.types (view_written item.now).value (view_written item.now).width) }
{
    match (&item.width, constant(&item.value)) {
        (None, Some((ty, value))) => is_text_constant(types, ty, value),
        _ => false,
    }
}

/// The code with which `Halt` of a constant ends a program.
pub fn end_code(code: &Expr) -> Option<u8>
    ensures { result ≡ end_code (view_expr code.now) }
{
    match constant(code)? {
        (_, Value::Number(number)) => Some(number.rem_euclid(256) as u8),
        _ => None,
    }
}

/// Whether a code of an end is a constant.
pub fn is_halt(code: &Expr) -> bool
    ensures { result ≡ is_some (end_code (view_expr code.now)) }
{
    end_code(code).is_some()
}
