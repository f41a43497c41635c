//! Literals.

ghost use Rattle.std.specs.Prelude.{◌≡◌, Ok};
ghost use Rattle.typed_tree.specs.Expressions.{view_expr};
ghost use Rattle.typing_rules.specs.Judgements.{Gives};
ghost use Rattle.tp_check_expr.specs.Typed.{number_constant, char_constant, text_constant, control_constant};

use scopes::{CHAR, STRING};
use std::alloc::Global;
use type_layout::Bytes;
use typed_tree::{Expr, Value};
use typing_rules::{Refusal, number_type};

/// A literal number, which has the first of Integer, Word and LongInt that holds it.
pub(crate) fn number_constant(number: i32) -> Expr
    ensures { view_expr result ≡ number_constant number }
{
    Expr::Const {
        ty: number_type(number),
        value: Value::Number(number),
    }
}

fn char_constant(byte: u8) -> Expr
    ensures { view_expr result ≡ char_constant byte }
{
    Expr::Const {
        ty: CHAR,
        value: Value::Number(i32::from(byte)),
    }
}

/// A literal text, which is a Char if it has one byte.
pub(crate) fn text_constant(alloc: Global, bytes: &[u8]) -> Result<Expr, Refusal>
    ensures { Gives view_expr result (Ok (text_constant bytes.now)) }
{
    match bytes {
        [byte] => Ok(char_constant(*byte)),
        _ => Ok(Expr::Const {
            ty: STRING,
            value: Value::Chars(Bytes::from_slice(alloc, bytes)?),
        }),
    }
}

/// The control character of a letter.
pub(crate) fn control_constant(alloc: Global, name: &[u8]) -> Result<Expr, Refusal>
    ensures { Gives view_expr result (Ok (control_constant name.now)) }
{
    match name {
        [letter] => Ok(char_constant(*letter ^ 64)),
        _ => Ok(Expr::Const {
            ty: STRING,
            value: Value::Chars(Bytes::from_slice(alloc, name)?),
        }),
    }
}
