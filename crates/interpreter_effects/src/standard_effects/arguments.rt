//! The arguments of standard routines.

ghost use Rattle.std.specs.Prelude.{◌≡◌, map};
ghost use Rattle.tp_meaning.specs.Standard.{handed, argument, value_given, number_given, text_given, place_given};
ghost use Rattle.interpreter_store.specs.cell_store.Views.{view_value};
ghost use Rattle.interpreter_store.specs.cell_store.Finding.{Finds};
ghost use Rattle.interpreter_store.specs.typed_cells.Sorts.{view_sort, view_reached};
ghost use Rattle.interpreter_effects.specs.standard_effects.Operands.{view_operand};

use interpreter_store::cell_store::{Trap, Value};
use interpreter_store::typed_cells::{Reached, Sort};

/// An argument: a value with its type, or the place of a variable.
#[derive(Drop)]
pub enum Operand<'a> {
    Given(Sort<'a>, Value),
    Named(Reached<'a>),
}

/// An argument as it is handed to a routine of the sources.
pub fn handed(operand: Operand) -> Value
    ensures { view_value result ≡ handed (view_operand operand.entry) }
{
    match operand {
        Operand::Given(_, value) => value,
        Operand::Named(at) => Value::At(at.spot),
    }
}

fn argument<'l, 'a>(args: &'l [Operand<'a>], n: usize) -> Result<&'l Operand<'a>, Trap>
    ensures { Finds (λ found. view_operand found.now) result (argument (map view_operand args.now) n) }
{
    args.get(n).ok_or(Trap::IllTyped)
}

/// The value of an argument, with its type.
pub(crate) fn value_given<'l, 'a>(
    args: &'l [Operand<'a>],
    n: usize,
) -> Result<(Sort<'a>, &'l Value), Trap>
    ensures { Finds (λ found. (view_sort found.0, view_value found.1.now)) result (value_given (map view_operand args.now) n) }
{
    match argument(args, n)? {
        Operand::Given(sort, value) => Ok((*sort, value)),
        Operand::Named(_) => Err(Trap::IllTyped),
    }
}

/// The number of an argument.
pub(crate) fn number_given(args: &[Operand], n: usize) -> Result<i32, Trap>
    ensures { Finds (λ z. z) result (number_given (map view_operand args.now) n) }
{
    let (_, value) = value_given(args, n)?;
    value.number()
}

/// The text of an argument.
pub(crate) fn text_given<'l>(args: &'l [Operand], n: usize) -> Result<&'l [u8], Trap>
    ensures { Finds (λ text. text.now) result (text_given (map view_operand args.now) n) }
{
    let (_, value) = value_given(args, n)?;
    value.text()
}

/// The place that an argument names.
pub(crate) fn place_given<'l, 'a>(
    args: &'l [Operand<'a>],
    n: usize,
) -> Result<&'l Reached<'a>, Trap>
    ensures { Finds (λ at. view_reached at.now) result (place_given (map view_operand args.now) n) }
{
    match argument(args, n)? {
        Operand::Given(_, _) => Err(Trap::IllTyped),
        Operand::Named(at) => Ok(at),
    }
}
