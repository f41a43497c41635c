//! Operators on texts, and the texts of values.

ghost use Rattle.std.specs.Prelude.{◌≡◌, IfOk};
ghost use Rattle.std.specs.Option.{option_copied};
ghost use Rattle.type_layout.specs.declared.definitions.Host.TheVariants as host;
ghost use Rattle.tp_meaning.specs.Operators.{on_texts};
ghost use Rattle.tp_meaning.specs.Standard.{ordinal_text, text_of, field_text};
ghost use Rattle.interpreter_store.specs.cell_store.Views.{view_value};
ghost use Rattle.interpreter_store.specs.cell_store.Finding.{Gets};

use crate::cell_store::{Stop, Trap, Value};
use crate::value_operators::numbers::{is_true, kept_as};
use crate::value_operators::relations::related_texts;
use common_values::strings::joined;
use common_values::written::{boolean_text, integer_text, padded};
use std::alloc::{AllocError, Global};
use type_layout::{Bytes, Host, TypeDef};
use typed_tree::BinaryOp;

/// An operator on two texts.
pub(crate) fn on_texts(alloc: Global, op: BinaryOp, a: &[u8], b: &[u8]) -> Result<Value, Stop>
    ensures { Gets view_value result (on_texts op a.now b.now) }
{
    match op {
        BinaryOp::Add => Ok(Value::Text(Bytes::from_vec(joined(alloc, a, b)?))),
        BinaryOp::Subtract
        | BinaryOp::Multiply
        | BinaryOp::Divide
        | BinaryOp::Modulo
        | BinaryOp::ShiftLeft
        | BinaryOp::ShiftRight
        | BinaryOp::And
        | BinaryOp::Or
        | BinaryOp::Xor
        | BinaryOp::Equal
        | BinaryOp::NotEqual
        | BinaryOp::Less
        | BinaryOp::LessOrEqual
        | BinaryOp::Greater
        | BinaryOp::GreaterOrEqual
        | BinaryOp::In => Ok(related_texts(op, a, b)?),
    }
}

// The text of a number. A Char above 255, which no typed program has, is answered as out of memory.
fn ordinal_text(alloc: Global, host: Host, z: i32) -> Result<Vec<u8>, Stop>
    ensures { Gets (λ text. text.items) result (ordinal_text host z) }
{
    match host {
        Host::ShortInt | Host::Byte | Host::Integer | Host::Word | Host::LongInt => Ok(integer_text(
            alloc, z,
        )?),
        Host::Boolean => Ok(Vec::from_slice(alloc, boolean_text(is_true(z)))?),
        Host::Char => char_text(alloc, z),
        Host::Enumeration => Err(Stop::Trapped(Trap::IllTyped)),
    }
}

fn char_text(alloc: Global, z: i32) -> Result<Vec<u8>, Stop>
    ensures { Gets (λ text. text.items) result (ordinal_text host.Char z) }
{
    if z < 0 {
        return Err(Stop::Trapped(Trap::IllTyped));
    }
    if z > 255 {
        return Err(Stop::OutOfMemory);
    }
    Ok(Vec::from_slice(alloc, &[z as u8])?)
}

/// The text that Write and Str make of a value of a type.
pub fn text_of(alloc: Global, ty: Option<&TypeDef>, value: &Value) -> Result<Vec<u8>, Stop>
    ensures { Gets (λ text. text.items) result (text_of (option_copied ty.entry) (view_value value.now)) }
{
    let Some(ty) = ty else {
        return Err(Stop::Trapped(Trap::IllTyped));
    };
    match ty {
        TypeDef::Ordinal { host, .. } => match value {
            Value::Ordinal(z) => ordinal_text(alloc, *host, *z),
            _ => Err(Stop::Trapped(Trap::IllTyped)),
        },
        TypeDef::Str { .. } => match value {
            Value::Text(bytes) => Ok(Vec::from_slice(alloc, bytes.as_slice())?),
            _ => Err(Stop::Trapped(Trap::IllTyped)),
        },
        _ => Err(Stop::Trapped(Trap::IllTyped)),
    }
}

/// A text in a field of a width, of which an Integer's low bytes count.
pub fn field_text(alloc: Global, width: i32, text: &[u8]) -> Result<Vec<u8>, AllocError>
    ensures { IfOk result (λ field. field.items ≡ field_text width text.now) }
{
    padded(alloc, kept_as(Host::Integer, i64::from(width)), text)
}
