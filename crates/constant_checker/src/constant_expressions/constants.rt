//! Constants by themselves, and literals.

ghost use Rattle.std.specs.Prelude.{◌≡◌, IfOk, Ok};
ghost use Rattle.type_layout.specs.Layouts.{bounds_at};
ghost use Rattle.typing_rules.specs.Judgements.{Gives};
ghost use Rattle.constant_checker.specs.constant_expressions.Values.{itself, integer, truth, character, every_byte, set_constant, number_of, bytes_of, elements_of};
ghost use Rattle.constant_checker.specs.constant_expressions.Constants.{of_text, of_control};

use common_values::sets::{intersection, ordinals_between};
use scopes::{BOOLEAN, CHAR, STRING};
use std::alloc::{AllocError, Global};
use type_layout::{Bytes, Host, TypeDef, TypeId, Types};
use typed_tree::Value;
use typing_rules::{Refusal, definition, number_type};

/// The value of a constant expression, and its type.
#[derive(Debug, Drop)]
pub struct Constant {
    pub ty: TypeId,
    pub value: Value,
}

/// An integer, which has the first of Integer, Word and LongInt that holds it.
pub(crate) fn integer(number: i32) -> Constant
    ensures { result ≡ integer number }
{
    Constant {
        ty: number_type(number),
        value: Value::Number(number),
    }
}

/// A Boolean, as 0 or 1.
pub(crate) fn truth(number: i32) -> Constant
    ensures { result ≡ truth number }
{
    Constant {
        ty: BOOLEAN,
        value: Value::Number(number),
    }
}

/// The bounds of an ordinal type, (0, 0) of any other.
pub fn bounds_at(types: &Types, ty: TypeId) -> (i32, i32)
    ensures { result ≡ bounds_at types.now.types ty }
{
    match definition(types, ty) {
        Some(TypeDef::Ordinal { low, high, .. }) => (*low, *high),
        _ => (0, 0),
    }
}

/// The number of an ordinal.
pub fn number_of(value: &Value) -> i32
    ensures { result ≡ number_of value.now }
{
    match value {
        Value::Number(number) => *number,
        Value::Chars(_) | Value::Nil | Value::Elements(_) => 0,
    }
}

/// The bytes of a string, or of a Char that stands as one.
pub fn bytes_of(alloc: Global, value: &Value) -> Result<Bytes, AllocError>
    ensures { IfOk result (λ bytes. bytes ≡ bytes_of value.now) }
{
    match value {
        Value::Number(number) if Host::Char.holds(*number, *number) => {
            Bytes::from_slice(alloc, &[number.unsigned_abs() as u8])
        }
        Value::Chars(bytes) => bytes.copied(alloc),
        Value::Number(_) | Value::Nil | Value::Elements(_) => Ok(Bytes::new(alloc)),
    }
}

pub(crate) fn character(byte: u8) -> Constant
    ensures { result ≡ character byte }
{
    Constant {
        ty: CHAR,
        value: Value::Number(i32::from(byte)),
    }
}

/// A literal text, which is a Char if it has one byte.
pub(crate) fn of_text(alloc: Global, bytes: &[u8]) -> Result<Constant, Refusal>
    ensures { Gives itself result (Ok (of_text bytes.now)) }
{
    match bytes {
        [byte] => Ok(character(*byte)),
        _ => Ok(Constant {
            ty: STRING,
            value: Value::Chars(Bytes::from_slice(alloc, bytes)?),
        }),
    }
}

/// The control character of a letter.
pub(crate) fn of_control(alloc: Global, name: &[u8]) -> Result<Constant, Refusal>
    ensures { Gives itself result (Ok (of_control name.now)) }
{
    match name {
        [letter] => Ok(character(*letter ^ 64)),
        _ => Ok(Constant {
            ty: STRING,
            value: Value::Chars(Bytes::from_slice(alloc, name)?),
        }),
    }
}

#[tactic(auto, unfolding(crate::specs::constant_expressions::Values::every_byte))]
fn every_byte(alloc: Global) -> Result<Vec<u8>, AllocError>
    ensures { IfOk result (λ all. all.items ≡ every_byte) }
{
    ordinals_between(alloc, 0, 255)
}

/// The set of some elements, which it lists in their order.
pub(crate) fn set_constant(alloc: Global, ty: TypeId, elements: &[u8]) -> Result<Constant, Refusal>
    ensures { Gives itself result (Ok (set_constant ty elements.now)) }
{
    let all = every_byte(alloc)?;
    let rising = intersection(alloc, all.as_slice(), elements)?;
    Ok(Constant {
        ty,
        value: Value::Elements(Bytes::from_vec(rising)),
    })
}

/// The elements of a set.
pub fn elements_of(value: &Value) -> &[u8]
    ensures { result.now ≡ elements_of value.now }
{
    match value {
        Value::Elements(elements) => elements.as_slice(),
        Value::Number(_) | Value::Chars(_) | Value::Nil => &[],
    }
}
