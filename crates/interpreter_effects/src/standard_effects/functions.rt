//! Functions of values.

ghost use Rattle.std.specs.Prelude.{◌≡◌, pos, Ok, map};
ghost use Rattle.tp_meaning.specs.Trees.{Ordinal};
ghost use Rattle.tp_meaning.specs.Shapes.{kept_as};
ghost use Rattle.tp_meaning.specs.Standard.{keeping, of_number, length_of, copy_of, position_in, all_joined};
ghost use Rattle.interpreter_store.specs.cell_store.Views.{view_value};
ghost use Rattle.interpreter_store.specs.cell_store.Finding.{Finds, Gets};
ghost use Rattle.interpreter_effects.specs.standard_effects.Operands.{view_operand};
ghost use Rattle.interpreter_effects.specs.standard_effects.Numbers.{kept_of, plain_of, texts_of, value_only};

use crate::standard_effects::arguments::{Operand, number_given, text_given};
use common_values::strings::{copied, joined, position_of};
use interpreter_store::cell_store::{Stop, Trap, Value};
use interpreter_store::value_operators::{
    absolute, character, high_byte_of, is_odd, low_byte_of, predecessor, squared, successor,
    swapped, upper_case,
};
use std::alloc::Global;
use type_layout::{Bytes, Host};

/// The functions of a number of which a type keeps the low bytes.
#[derive(Clone, Copy, Debug, PartialEq, Eq)]
pub enum Kept {
    Abs,
    Sqr,
    Succ,
    Pred,
    Swap,
}

/// The other functions of a number.
#[derive(Clone, Copy, Debug, PartialEq, Eq)]
pub enum Plain {
    Odd,
    Ord,
    Chr,
    Hi,
    Lo,
    UpCase,
}

/// The functions of texts.
#[derive(Clone, Copy, Debug, PartialEq, Eq)]
pub enum Texts {
    Length,
    Copy,
    Concat,
    Pos,
}

fn kept_of(one: Kept, host: Host, z: i32) -> i32
    ensures { result ≡ kept_as host (kept_of one z) }
{
    match one {
        Kept::Abs => absolute(host, z),
        Kept::Sqr => squared(host, z),
        Kept::Succ => successor(host, z),
        Kept::Pred => predecessor(host, z),
        Kept::Swap => swapped(host, z),
    }
}

fn plain_of(one: Plain, z: i32) -> i32
    ensures { result ≡ plain_of one z }
{
    match one {
        Plain::Odd => is_odd(z),
        Plain::Ord => z,
        Plain::Chr => i32::from(character(z)),
        Plain::Hi => i32::from(high_byte_of(z)),
        Plain::Lo => i32::from(low_byte_of(z)),
        Plain::UpCase => i32::from(upper_case(z)),
    }
}

/// A function of a number, of a result that is stored so.
pub(crate) fn keeping(one: Kept, stored: Option<Host>, args: &[Operand]) -> Result<Value, Trap>
    ensures { Finds view_value result (keeping (kept_of one) stored (map view_operand args.now)) }
{
    let Some(host) = stored else {
        return Err(Trap::IllTyped);
    };
    let z = number_given(args, 0)?;
    Ok(Value::Ordinal(kept_of(one, host, z)))
}

/// A function of a number.
pub(crate) fn of_number(one: Plain, args: &[Operand]) -> Result<Value, Trap>
    ensures { Finds view_value result (of_number (plain_of one) (map view_operand args.now)) }
{
    let z = number_given(args, 0)?;
    Ok(Value::Ordinal(plain_of(one, z)))
}

// A number of bytes. One that passes 32 bits is answered as out of memory.
fn count(bytes: usize) -> Result<Value, Stop>
    ensures { Gets view_value result (Ok (Ordinal (pos bytes))) }
{
    match i32::try_from(bytes) {
        Ok(bytes) => Ok(Value::Ordinal(bytes)),
        Err(_) => Err(Stop::OutOfMemory),
    }
}

fn length_of(args: &[Operand]) -> Result<Value, Stop>
    ensures { Gets view_value result (length_of (map view_operand args.now)) }
{
    let text = text_given(args, 0)?;
    count(text.len())
}

fn copy_of(alloc: Global, args: &[Operand]) -> Result<Value, Stop>
    ensures { Gets view_value result (copy_of (map view_operand args.now)) }
{
    let text = text_given(args, 0)?;
    let place = number_given(args, 1)?;
    let number = number_given(args, 2)?;
    Ok(Value::Text(Bytes::from_slice(alloc, copied(text, place, number))?))
}

fn position_in(args: &[Operand]) -> Result<Value, Stop>
    ensures { Gets view_value result (position_in (map view_operand args.now)) }
{
    let part = text_given(args, 0)?;
    let text = text_given(args, 1)?;
    count(position_of(part, text))
}

fn value_of<'l>(one: &'l Operand) -> Result<&'l Value, Trap>
    ensures { Finds (λ value. view_value value.now) result (value_only (view_operand one.now)) }
{
    match one {
        Operand::Given(_, value) => Ok(value),
        Operand::Named(_) => Err(Trap::IllTyped),
    }
}

#[tactic(auto, using(crate::proofs::standard_effects::Joined::joined_first))]
fn all_joined(alloc: Global, args: &[Operand]) -> Result<Vec<u8>, Stop>
    ensures { Gets (λ text. text.items) result (all_joined (map view_operand args.now)) }
{
    match args {
        [] => Ok(Vec::new(alloc)),
        [one, rest @ ..] => {
            let text = value_of(one)?.text()?;
            let behind = all_joined(alloc, rest)?;
            Ok(joined(alloc, text, behind.as_slice())?)
        }
    }
}

fn concatenated(alloc: Global, args: &[Operand]) -> Result<Value, Stop>
    ensures { Gets view_value result (texts_of Texts.Concat (map view_operand args.now)) }
{
    Ok(Value::Text(Bytes::from_vec(all_joined(alloc, args)?)))
}

/// A function of texts.
pub(crate) fn of_texts(alloc: Global, one: Texts, args: &[Operand]) -> Result<Value, Stop>
    ensures { Gets view_value result (texts_of one (map view_operand args.now)) }
{
    match one {
        Texts::Length => length_of(args),
        Texts::Copy => copy_of(alloc, args),
        Texts::Concat => concatenated(alloc, args),
        Texts::Pos => position_in(args),
    }
}
