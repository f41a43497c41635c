//! The standard routines by their numbers, and what each does.

ghost use Rattle.std.specs.Prelude.{◌≡◌, ℕ, List, map};
ghost use Rattle.std.specs.Option.{option_map, option_copied};
ghost use Rattle.tp_meaning.specs.Standard.{standard, result_storage, new_of, effect_of};
ghost use Rattle.interpreter_store.specs.cell_store.Views.{view_value, view_store};
ghost use Rattle.interpreter_store.specs.cell_store.Finding.{Gets};
ghost use Rattle.interpreter_store.specs.typed_cells.Sorts.{view_sort};
ghost use Rattle.interpreter_effects.specs.standard_effects.Operands.{view_operand};
ghost use Rattle.interpreter_effects.specs.standard_effects.Numbers.{change_of, size_at};
ghost use Rattle.interpreter_effects.specs.standard_effects.Effects.{view_standard, leaving, made_left, effect_left};

use crate::standard_effects::arguments::{Operand, place_given};
use crate::standard_effects::changes::{Change, make_change, stored_as};
use crate::standard_effects::functions::{Kept, Plain, Texts, keeping, of_number, of_texts};
use crate::standard_effects::heap::{make, make_for, size_of_variable, target};
use common_values::input::{is_eof, is_eoln};
use interpreter_store::cell_store::{Stop, Store, Value};
use interpreter_store::typed_cells::Sort;
use interpreter_store::value_operators::truth;
use std::alloc::Global;
use type_layout::Host;
use typed_tree::Program;

/// A standard routine.
#[derive(Clone, Copy, Debug, PartialEq, Eq)]
pub enum Standard {
    OfKept(Kept),
    OfPlain(Plain),
    OfTexts(Texts),
    Changing(Change),
    SizeOf,
    Eof,
    Eoln,
    New,
}

// In the order of their numbers (`typed_tree::standard`).
const STANDARDS: [Option<Standard>; 30] = [
    Some(Standard::OfKept(Kept::Abs)),
    Some(Standard::OfKept(Kept::Sqr)),
    Some(Standard::OfPlain(Plain::Odd)),
    Some(Standard::OfPlain(Plain::Ord)),
    Some(Standard::OfPlain(Plain::Chr)),
    Some(Standard::OfKept(Kept::Succ)),
    Some(Standard::OfKept(Kept::Pred)),
    Some(Standard::Changing(Change::Inc)),
    Some(Standard::Changing(Change::Dec)),
    Some(Standard::OfPlain(Plain::Hi)),
    Some(Standard::OfPlain(Plain::Lo)),
    Some(Standard::OfKept(Kept::Swap)),
    Some(Standard::SizeOf),
    Some(Standard::OfPlain(Plain::UpCase)),
    Some(Standard::OfTexts(Texts::Length)),
    Some(Standard::OfTexts(Texts::Copy)),
    Some(Standard::Changing(Change::Delete)),
    Some(Standard::Changing(Change::Insert)),
    Some(Standard::OfTexts(Texts::Concat)),
    Some(Standard::OfTexts(Texts::Pos)),
    Some(Standard::Changing(Change::Str)),
    Some(Standard::Changing(Change::Val)),
    None,
    None,
    None,
    None,
    Some(Standard::Eof),
    Some(Standard::Eoln),
    Some(Standard::New),
    Some(Standard::Changing(Change::Dispose)),
];

/// The standard routine of a number. Write, WriteLn, Read and ReadLn have statements of their own.
pub fn standard_of(number: u32) -> Option<Standard>
    ensures { option_map view_standard result ≡ standard number }
{
    match STANDARDS.get(number as usize) {
        None => None,
        Some(one) => *one,
    }
}

// How a result of a type is stored, where there is one.
fn result_storage(result_type: Option<&Sort>) -> Option<Host>
    ensures { result ≡ result_storage (option_map view_sort (option_copied result_type.entry)) }
{
    match result_type {
        None => None,
        Some(sort) => stored_as(sort.definition()),
    }
}

// New as a function of a pointer type.
fn new_block(
    alloc: Global,
    program: &Program,
    pointer: &Sort,
    store: &mut Store,
) -> Result<Value, Stop>
    ensures { Gets (λ v. (view_value v, view_store store.new)) result (made_left program.now (view_sort pointer.now) (view_store store.old)) }
{
    let sort = target(pointer)?;
    let serial = store.next_serial();
    make(alloc, program, &sort, store)?;
    Ok(Value::Block(serial))
}

// New for a pointer variable, or as a function of a pointer type.
fn new(
    alloc: Global,
    program: &Program,
    result_type: Option<&Sort>,
    args: &[Operand],
    store: &mut Store,
) -> Result<Value, Stop>
    ensures { (input : List ℕ) → Gets (λ v. (view_value v, view_store store.new)) result (effect_left program.now (new_of program.now (option_map view_sort (option_copied result_type.entry)) (map view_operand args.now)) input (view_store store.old)) }
{
    match (result_type, args) {
        (Some(pointer), []) => new_block(alloc, program, pointer, store),
        _ => {
            let at = place_given(args, 0)?;
            make_for(alloc, program, at, store)?;
            Ok(Value::Void)
        }
    }
}

fn size_of(alloc: Global, program: &Program, args: &[Operand], store: &Store) -> Result<Value, Stop>
    ensures { Gets view_value result (size_at program.now (map view_operand args.now) (view_store store.now)) }
{
    let at = place_given(args, 0)?;
    size_of_variable(alloc, program, at, store)
}

fn changed(alloc: Global, one: Change, args: &[Operand], store: &mut Store) -> Result<Value, Stop>
    ensures { Gets (λ v. (view_value v, view_store store.new)) result (leaving (change_of one (map view_operand args.now) (view_store store.old))) }
{
    make_change(alloc, one, args, store)?;
    Ok(Value::Void)
}

/// What a standard routine gives, and the store that it leaves.
pub fn perform(
    alloc: Global,
    program: &Program,
    one: Standard,
    result_type: Option<&Sort>,
    args: &[Operand],
    input: &[u8],
    store: &mut Store,
) -> Result<Value, Stop>
    ensures { let effect = effect_of program.now (view_standard one) (option_map view_sort (option_copied result_type.entry)) (map view_operand args.now) in Gets (λ v. (view_value v, view_store store.new)) result (effect_left program.now effect input.now (view_store store.old)) }
{
    match one {
        Standard::OfKept(one) => Ok(keeping(one, result_storage(result_type), args)?),
        Standard::OfPlain(one) => Ok(of_number(one, args)?),
        Standard::OfTexts(one) => of_texts(alloc, one, args),
        Standard::Changing(one) => changed(alloc, one, args, store),
        Standard::SizeOf => size_of(alloc, program, args, store),
        Standard::Eof => Ok(truth(is_eof(input))),
        Standard::Eoln => Ok(truth(is_eoln(input))),
        Standard::New => new(alloc, program, result_type, args, store),
    }
}
