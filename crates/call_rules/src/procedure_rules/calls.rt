//! Calls of standard procedures.

ghost use Rattle.std.specs.Prelude.{◌≡◌, map};
ghost use Rattle.std.specs.Option.{option_map};
ghost use Rattle.typed_tree.specs.Expressions.{Load, view_expr, view_boxed, view_place};
ghost use Rattle.typed_tree.specs.Statements.{view_written};
ghost use Rattle.typing_rules.specs.Judgements.{Gives};
ghost use Rattle.call_rules.specs.Given.{view_handed};
ghost use Rattle.call_rules.specs.procedure_rules.Procedures.{is_pointer, holds, variable, taken, by_slots, unlisted, standard_performed, whole, told_number, told_into, told};
ghost use Rattle.call_rules.specs.procedure_rules.Rows.{listed};

use crate::is_ordinal;
use crate::procedure_rules::rows::{Slot, Slots, is_procedure, slots_of};
use crate::standard_rules::{Want, fits, handed, is_for_text};
use std::alloc::Global;
use type_layout::{Place, TypeId, Types};
use typed_tree::standard::STR;
use typed_tree::{Arg, Expr, PlaceExpr, WriteItem};
use typing_rules::{
    Fault, Refusal, Rule, Sort, broken, is_integer, is_string, sort_of, sort_of_type,
};

fn is_pointer(sort: Sort) -> bool
    ensures { result ≡ is_pointer sort }
{
    matches!(sort, Sort::Pointer)
}

fn holds(slot: Slot, sort: Sort) -> bool
    ensures { result ≡ holds slot sort }
{
    match slot {
        Slot::Ordinal => is_ordinal(sort),
        Slot::Whole => is_integer(sort),
        Slot::Line => is_string(sort),
        Slot::Link => is_pointer(sort),
        Slot::Value(_) | Slot::Pointer => false,
    }
}

fn held(types: &Types, place: Place, slot: Slot, ty: TypeId, at: PlaceExpr) -> Result<Arg, Refusal>
    ensures { Gives view_handed result (variable types.now.types place slot (Load ty (view_place at))).run }
{
    if holds(slot, sort_of_type(types, ty)) {
        Ok(Arg::Place(at))
    } else {
        Err(Refusal::Because(broken(place, Rule::Called)))
    }
}

fn variable(types: &Types, place: Place, slot: Slot, value: Expr) -> Result<Arg, Refusal>
    ensures { Gives view_handed result (variable types.now.types place slot (view_expr value)).run }
{
    match value {
        Expr::Load { ty, place: at } => held(types, place, slot, ty, Box::into_inner(at)),
        _ => Err(Refusal::Because(broken(place, Rule::Called))),
    }
}

#[tactic(auto, unfolding(crate::specs::procedure_rules::Procedures::taken))]
fn taken(
    alloc: Global,
    types: &Types,
    place: Place,
    slot: &Slot,
    value: Expr,
) -> Result<Arg, Refusal>
    ensures { Gives view_handed result (taken types.now.types place slot.now (view_expr value)).run }
{
    match slot {
        Slot::Value(want) if fits(*want, sort_of(types, &value)) => {
            handed(alloc, types, is_for_text(*want), value)
        }
        Slot::Pointer if is_pointer(sort_of(types, &value)) => Ok(Arg::Value(value)),
        Slot::Value(_) | Slot::Pointer => Err(Refusal::Because(broken(place, Rule::Called))),
        _ => variable(types, place, *slot, value),
    }
}

fn by_slots(
    alloc: Global,
    types: &Types,
    place: Place,
    slots: &[Slot],
    values: Vec<Expr>,
) -> Result<Vec<Arg>, Refusal>
    ensures { Gives (λ args. map view_handed args.items) result (by_slots types.now.types place slots.now (map view_expr values.items)).run }
{
    let mut values = values.into_iter();
    let mut args = Vec::new(alloc);
    for slot in slots {
        match values.next() {
            Some(value) => {
                let arg = taken(alloc, types, place, slot, value)?;
                args.push(arg)?;
            }
            None => return Err(Refusal::Because(broken(place, Rule::Called))),
        }
    }
    match values.next() {
        None => Ok(args),
        Some(_) => Err(Refusal::Because(broken(place, Rule::Called))),
    }
}

// The arguments of a call by what is asked of each.
fn by_count(
    alloc: Global,
    types: &Types,
    place: Place,
    slots: Slots,
    values: Vec<Expr>,
) -> Result<Vec<Arg>, Refusal>
    ensures { Gives (λ args. map view_handed args.items) result (by_slots types.now.types place (listed slots) (map view_expr values.items)).run }
{
    match slots {
        Slots::One(a) => by_slots(alloc, types, place, &[a], values),
        Slots::Pair(a, b) => by_slots(alloc, types, place, &[a, b], values),
        Slots::Triple(a, b, c) => by_slots(alloc, types, place, &[a, b, c], values),
    }
}

// What is told of a call with a number of arguments for which the table has no row.
fn unlisted(place: Place, number: u32) -> Fault
    ensures { result ≡ unlisted place number }
{
    if is_procedure(number) {
        broken(place, Rule::Called)
    } else {
        broken(place, Rule::Stands)
    }
}

/// The node of the call of a standard procedure at a place.
#[tactic(auto, unfolding(crate::specs::procedure_rules::Procedures::standard_performed))]
pub fn standard_performed(
    alloc: Global,
    types: &Types,
    place: Place,
    number: u32,
    values: Vec<Expr>,
) -> Result<Expr, Refusal>
    ensures { Gives view_expr result (standard_performed types.now.types place number (map view_expr values.items)).run }
{
    let count = values.len();
    let Some(slots) = slots_of(number, count) else {
        return Err(Refusal::Because(unlisted(place, number)));
    };
    let args = by_count(alloc, types, place, slots, values)?;
    Ok(Expr::Std {
        ty: None,
        number,
        args,
    })
}

fn whole(alloc: Global, types: &Types, place: Place, value: Expr) -> Result<Arg, Refusal>
    ensures { Gives view_handed result (whole types.now.types place (view_expr value)).run }
{
    taken(alloc, types, place, &Slot::Value(Want::Integer), value)
}

// An integer, and its width if one is given.
fn told_number(
    alloc: Global,
    types: &Types,
    place: Place,
    number: Expr,
    width: Option<Box<Expr>>,
) -> Result<Vec<Arg>, Refusal>
    ensures { Gives (λ args. map view_handed args.items) result (told_number types.now.types place (view_expr number) (option_map view_boxed width)).run }
{
    let mut args = Vec::new(alloc);
    let number = whole(alloc, types, place, number)?;
    args.push(number)?;
    match width {
        None => {}
        Some(width) => {
            let width = whole(alloc, types, place, Box::into_inner(width))?;
            args.push(width)?;
        }
    }
    Ok(args)
}

fn told_into(
    alloc: Global,
    types: &Types,
    place: Place,
    number: Expr,
    width: Option<Box<Expr>>,
    to: Expr,
) -> Result<Expr, Refusal>
    ensures { Gives view_expr result (told_into types.now.types place (view_expr number) (option_map view_boxed width) (view_expr to)).run }
{
    let mut args = told_number(alloc, types, place, number, width)?;
    let to = variable(types, place, Slot::Line, to)?;
    args.push(to)?;
    Ok(Expr::Std {
        ty: None,
        number: STR,
        args,
    })
}

/// The node of a call of Str at a place: the text of an integer, in a field of a width if one is given, goes into a string.
#[tactic(auto, unfolding(crate::specs::procedure_rules::Procedures::told))]
pub fn told(
    alloc: Global,
    types: &Types,
    place: Place,
    one: WriteItem,
    to: WriteItem,
) -> Result<Expr, Refusal>
    ensures { Gives view_expr result (told types.now.types place (view_written one) (view_written to)).run }
{
    match to.width {
        None => {
            let number = Box::into_inner(one.value);
            told_into(
                alloc,
                types,
                place,
                number,
                one.width,
                Box::into_inner(to.value),
            )
        }
        Some(_) => Err(Refusal::Because(broken(place, Rule::Called))),
    }
}
