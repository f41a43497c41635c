//! Procedures that change a variable: what it holds is read after all arguments.

ghost use Rattle.std.specs.Prelude.{◌≡◌, ◌≤ℤ◌, ◌+ℤ◌, pos, negsuc, neg_ℤ, map, IfOk};
ghost use Rattle.std.specs.Option.{option_copied};
ghost use Rattle.typed_tree.specs.type_fits.Fits.{stored_as};
ghost use Rattle.tp_meaning.specs.Standard.{number_assigned, moved, text_assigned, step_given, moving, deleting, inserting, telling, valuing, disposing};
ghost use Rattle.tp_meaning.specs.Trees.{Text};
ghost use Rattle.tp_meaning.specs.Activations.{assigned};
ghost use Rattle.interpreter_store.specs.cell_store.Views.{view_value, view_store};
ghost use Rattle.interpreter_store.specs.cell_store.Finding.{Finds, Gets};
ghost use Rattle.interpreter_store.specs.typed_cells.Sorts.{view_sort, view_reached};
ghost use Rattle.interpreter_effects.specs.standard_effects.Operands.{view_operand};
ghost use Rattle.interpreter_effects.specs.standard_effects.Numbers.{telling_plain, telling_wide, change_of};

use crate::standard_effects::arguments::{
    Operand, number_given, place_given, text_given, value_given,
};
use crate::standard_effects::heap::disposed_by;
use common_values::numerals::val_of;
use common_values::strings::{deleted, inserted};
use interpreter_store::cell_store::{Stop, Store, Trap, Value};
use interpreter_store::typed_cells::{Reached, Sort};
use interpreter_store::value_operators::{field_text, kept_as, text_of};
use std::alloc::{AllocError, Global};
use type_layout::{Bytes, Host, TypeDef, storage_of};

/// The procedures that change a variable or dispose of a block.
#[derive(Clone, Copy, Debug, PartialEq, Eq)]
pub enum Change {
    Inc,
    Dec,
    Delete,
    Insert,
    Str,
    Val,
    Dispose,
}

/// How the values of an ordinal type are stored.
pub fn stored_as(one: Option<&TypeDef>) -> Option<Host>
    ensures { result ≡ stored_as (option_copied one.entry) }
{
    match one {
        Some(TypeDef::Ordinal { host, low, high }) => Some(storage_of(*host, *low, *high)),
        _ => None,
    }
}

/// Assigns a number, of which an ordinal variable keeps the low bytes.
pub fn number_assigned(alloc: Global, at: &Reached, z: i64, store: &mut Store) -> Result<(), Stop>
    ensures { Gets (λ _. view_store store.new) result (number_assigned (view_reached at.now) z (view_store store.old)) }
{
    let Some(host) = stored_as(at.sort.definition()) else {
        return Err(Stop::Trapped(Trap::IllTyped));
    };
    at.assign(alloc, &Value::Ordinal(kept_as(host, z)), store)
}

fn sum(z: i32, by: i64) -> i64
    requires low { negsuc 4294967296 ≤ℤ by }
    requires high { by ≤ℤ pos 4294967296 }
    ensures { result ≡ z +ℤ by }
{
    i64::from(z) + by
}

fn moved(alloc: Global, at: &Reached, by: i64, store: &mut Store) -> Result<(), Stop>
    requires low { negsuc 4294967296 ≤ℤ by }
    requires high { by ≤ℤ pos 4294967296 }
    ensures { Gets (λ _. view_store store.new) result (moved (view_reached at.now) by (view_store store.old)) }
{
    let z = at.number(store)?;
    number_assigned(alloc, at, sum(z, by), store)
}

fn step_given(args: &[Operand]) -> Result<i32, Trap>
    ensures { Finds (λ z. z) result (step_given (map view_operand args.now)) }
{
    match args {
        [_] => Ok(1),
        _ => number_given(args, 1),
    }
}

fn incremented(alloc: Global, args: &[Operand], store: &mut Store) -> Result<(), Stop>
    ensures { Gets (λ _. view_store store.new) result (moving (λ by. by) (map view_operand args.now) (view_store store.old)) }
{
    let at = place_given(args, 0)?;
    let by = step_given(args)?;
    moved(alloc, at, i64::from(by), store)
}

fn decremented(alloc: Global, args: &[Operand], store: &mut Store) -> Result<(), Stop>
    ensures { Gets (λ _. view_store store.new) result (moving neg_ℤ (map view_operand args.now) (view_store store.old)) }
{
    let at = place_given(args, 0)?;
    let by = step_given(args)?;
    moved(alloc, at, -i64::from(by), store)
}

fn assign_text(alloc: Global, at: &Reached, text: Vec<u8>, store: &mut Store) -> Result<(), Stop>
    ensures { Gets (λ _. view_store store.new) result (assigned (view_reached at.now) (Text text.items) (view_store store.old)) }
{
    at.assign(alloc, &Value::Text(Bytes::from_vec(text)), store)
}

fn deleting(alloc: Global, args: &[Operand], store: &mut Store) -> Result<(), Stop>
    ensures { Gets (λ _. view_store store.new) result (deleting (map view_operand args.now) (view_store store.old)) }
{
    let at = place_given(args, 0)?;
    let place = number_given(args, 1)?;
    let count = number_given(args, 2)?;
    let text = store.text_at(alloc, &at.spot)?;
    let left = deleted(alloc, text.as_slice(), place, count)?;
    assign_text(alloc, at, left, store)
}

fn inserting(alloc: Global, args: &[Operand], store: &mut Store) -> Result<(), Stop>
    ensures { Gets (λ _. view_store store.new) result (inserting (map view_operand args.now) (view_store store.old)) }
{
    let part = text_given(args, 0)?;
    let at = place_given(args, 1)?;
    let place = number_given(args, 2)?;
    let text = store.text_at(alloc, &at.spot)?;
    let whole = inserted(alloc, part, text.as_slice(), place, 255)?;
    assign_text(alloc, at, whole, store)
}

// The text of a value in a field of a width.
fn text_assigned(
    alloc: Global,
    at: &Reached,
    sort: &Sort,
    value: &Value,
    width: i32,
    store: &mut Store,
) -> Result<(), Stop>
    ensures { Gets (λ _. view_store store.new) result (text_assigned (view_reached at.now) (view_sort sort.now) (view_value value.now) width (view_store store.old)) }
{
    let text = text_of(alloc, sort.definition(), value)?;
    let field = field_text(alloc, width, text.as_slice())?;
    assign_text(alloc, at, field, store)
}

// The width stands between the value and the variable.
fn telling_wide(alloc: Global, args: &[Operand], store: &mut Store) -> Result<(), Stop>
    ensures { Gets (λ _. view_store store.new) result (telling_wide (map view_operand args.now) (view_store store.old)) }
{
    let (sort, value) = value_given(args, 0)?;
    let width = number_given(args, 1)?;
    let at = place_given(args, 2)?;
    text_assigned(alloc, at, &sort, value, width, store)
}

fn telling_plain(alloc: Global, args: &[Operand], store: &mut Store) -> Result<(), Stop>
    ensures { Gets (λ _. view_store store.new) result (telling_plain (map view_operand args.now) (view_store store.old)) }
{
    let (sort, value) = value_given(args, 0)?;
    let at = place_given(args, 1)?;
    text_assigned(alloc, at, &sort, value, 0, store)
}

fn telling(alloc: Global, args: &[Operand], store: &mut Store) -> Result<(), Stop>
    ensures { Gets (λ _. view_store store.new) result (telling (map view_operand args.now) (view_store store.old)) }
{
    if args.len() == 2 {
        telling_plain(alloc, args, store)
    } else {
        telling_wide(alloc, args, store)
    }
}

// A number of bytes. One that passes 63 bits is answered as out of memory.
fn number_of_bytes(bytes: usize) -> Result<i64, AllocError>
    ensures { IfOk result (λ z. z ≡ pos bytes) }
{
    match i64::try_from(bytes) {
        Ok(z) => Ok(z),
        Err(_) => Err(AllocError),
    }
}

fn valuing(alloc: Global, args: &[Operand], store: &mut Store) -> Result<(), Stop>
    ensures { Gets (λ _. view_store store.new) result (valuing (map view_operand args.now) (view_store store.old)) }
{
    let text = text_given(args, 0)?;
    let at = place_given(args, 1)?;
    let code = place_given(args, 2)?;
    let (z, place) = val_of(text);
    number_assigned(alloc, at, i64::from(z), store)?;
    number_assigned(alloc, code, number_of_bytes(place)?, store)
}

fn disposing(args: &[Operand], store: &mut Store) -> Result<(), Stop>
    ensures { Gets (λ _. view_store store.new) result (disposing (map view_operand args.now) (view_store store.old)) }
{
    let (sort, value) = value_given(args, 0)?;
    disposed_by(&sort, value, store)
}

/// Does a procedure.
pub(crate) fn make_change(
    alloc: Global,
    one: Change,
    args: &[Operand],
    store: &mut Store,
) -> Result<(), Stop>
    ensures { Gets (λ _. view_store store.new) result (change_of one (map view_operand args.now) (view_store store.old)) }
{
    match one {
        Change::Inc => incremented(alloc, args, store),
        Change::Dec => decremented(alloc, args, store),
        Change::Delete => deleting(alloc, args, store),
        Change::Insert => inserting(alloc, args, store),
        Change::Str => telling(alloc, args, store),
        Change::Val => valuing(alloc, args, store),
        Change::Dispose => disposing(args, store),
    }
}
