//! Standard functions of constants.

ghost use Rattle.std.specs.Prelude.{◌≡◌, [], ◌∷◌, length, min, pos, ◌+ℤ◌, ◌-ℤ◌};
ghost use Rattle.common_values.specs.Ordinals.{kept};
ghost use Rattle.typing_rules.specs.Judgements.{Gives};
ghost use Rattle.syntax_tree.specs.expression_tree.Trees.{view_designator};
ghost use Rattle.call_rules.specs.standard_rules.Signatures.{signature_of};
ghost use Rattle.constant_checker.specs.constant_expressions.Values.{itself, bytes_of};
ghost use Rattle.constant_checker.specs.constant_expressions.Functions.{same_one, function_in, function_of, bounded, stepped_to, short_type, applied, chosen, function_entry, function_at, function_named, is_taken, called_with};

use crate::constant_expressions::constants::{
    Constant, bounds_at, character, integer, number_of, truth,
};
use call_rules::standard_rules::{accepts_one, signature_of};
use common_values::bits::{absolute, bitwise_and, first_byte, second_byte, swapped};
use common_values::ordinals::{IntegerType, kept};
use common_values::strings::upper;
use scopes::{Entry, Found, Scope};
use syntax_tree::Designator;
use tp_lexer::left_out_names::feature_of;
use type_layout::{Host, Name, Place, TypeId, Types};
use typed_tree::Value;
use typed_tree::standard::{ABS, CHR, HI, LENGTH, LO, ODD, ORD, PRED, SUCC, SWAP, UP_CASE};
use typing_rules::{
    Refusal, Rule, Sort, broken, is_integer, sort_of_constant, sort_of_type, undeclared,
};

/// The standard functions that a constant may have.
#[derive(Clone, Copy, Debug, PartialEq, Eq)]
pub(crate) enum Function {
    Abs,
    Odd,
    Ord,
    Chr,
    Succ,
    Pred,
    Hi,
    Lo,
    Swap,
    UpCase,
    Length,
}

/// A function and its number among the standard routines.
#[derive(Clone, Copy, Debug, PartialEq, Eq)]
pub(crate) struct StandardFunction {
    pub(crate) function: Function,
    pub(crate) number: u32,
}

const FUNCTIONS: [(u32, Function); 11] = [
    (ABS, Function::Abs),
    (ODD, Function::Odd),
    (ORD, Function::Ord),
    (CHR, Function::Chr),
    (SUCC, Function::Succ),
    (PRED, Function::Pred),
    (HI, Function::Hi),
    (LO, Function::Lo),
    (SWAP, Function::Swap),
    (UP_CASE, Function::UpCase),
    (LENGTH, Function::Length),
];

// The function of the first row with a number.
fn function_in(rows: &[(u32, Function)], number: u32) -> Option<Function>
    ensures { result ≡ function_in rows.now number }
{
    match rows {
        [] => None,
        [row, rest @ ..] => {
            if row.0 == number {
                Some(row.1)
            } else {
                function_in(rest, number)
            }
        }
    }
}

#[tactic(auto, unfolding(crate::specs::constant_expressions::Functions::functions))]
fn function_of(number: u32) -> Option<Function>
    ensures { result ≡ function_of number }
{
    function_in(&FUNCTIONS, number)
}

// An ordinal within the bounds of its type.
fn bounded(place: Place, ty: TypeId, bounds: (i32, i32), number: i32) -> Result<Constant, Refusal>
    ensures { Gives itself result (bounded place ty bounds number).run }
{
    if bounds.0 <= number && number <= bounds.1 {
        Ok(Constant {
            ty,
            value: Value::Number(number),
        })
    } else {
        Err(Refusal::Because(broken(place, Rule::Constant)))
    }
}

// An integer as it is kept on 32 bits, or another ordinal as its byte keeps it, which has to be a value of its type.
fn stepped_to(
    place: Place,
    ty: TypeId,
    sort: Sort,
    bounds: (i32, i32),
    whole: i32,
    byte: i32,
) -> Result<Constant, Refusal>
    ensures { Gives itself result (stepped_to place ty sort bounds whole byte).run }
{
    if is_integer(sort) {
        Ok(integer(whole))
    } else {
        bounded(place, ty, bounds, byte)
    }
}

fn next(host: IntegerType, number: i32) -> i32
    ensures { result ≡ kept host (number +ℤ pos 1) }
{
    kept(host, i64::from(number) + 1)
}

fn previous(host: IntegerType, number: i32) -> i32
    ensures { result ≡ kept host (number -ℤ pos 1) }
{
    kept(host, i64::from(number) - 1)
}

// The type of 16 bits that holds a number.
fn short_type(number: i32) -> IntegerType
    ensures { result ≡ short_type number }
{
    if Host::Integer.holds(number, number) {
        IntegerType::Integer
    } else {
        IntegerType::Word
    }
}

// How many bytes a text has, at most 255; a Char has one.
fn text_length(value: &Value) -> u8
    ensures { result ≡ min (length (bytes_of value.now)) 255 }
{
    match value {
        Value::Number(number) if Host::Char.holds(*number, *number) => 1,
        Value::Chars(bytes) => bytes.len().min(255) as u8,
        Value::Number(_) | Value::Nil | Value::Elements(_) => 0,
    }
}

// What a function gives for a constant of a sort, in a call at a place.
fn applied(
    types: &Types,
    place: Place,
    function: Function,
    sort: Sort,
    operand: &Constant,
) -> Result<Constant, Refusal>
    ensures { Gives itself result (applied types.now.types place function operand.now.ty sort operand.now.value).run }
{
    let wide = IntegerType::LongInt;
    let byte = IntegerType::Byte;
    let ty = operand.ty;
    let number = number_of(&operand.value);
    let bounds = bounds_at(types, ty);
    match function {
        Function::Abs => Ok(integer(absolute(wide, number))),
        Function::Odd => Ok(truth(bitwise_and(wide, number, 1))),
        Function::Ord => Ok(integer(number)),
        Function::Chr => Ok(character(first_byte(number))),
        Function::Succ => {
            stepped_to(
                place,
                ty,
                sort,
                bounds,
                next(wide, number),
                next(byte, number),
            )
        }
        Function::Pred => {
            stepped_to(
                place,
                ty,
                sort,
                bounds,
                previous(wide, number),
                previous(byte, number),
            )
        }
        Function::Hi => Ok(integer(i32::from(second_byte(number)))),
        Function::Lo => Ok(integer(i32::from(first_byte(number)))),
        Function::Swap => Ok(integer(swapped(short_type(number), number))),
        Function::UpCase => Ok(character(upper(first_byte(number)))),
        Function::Length => Ok(integer(i32::from(text_length(&operand.value)))),
    }
}

fn chosen(
    place: Place,
    number: u32,
    function: Option<Function>,
) -> Result<StandardFunction, Refusal>
    ensures { Gives same_one result (chosen place number function).run }
{
    match function {
        Some(function) => Ok(StandardFunction { function, number }),
        None => Err(Refusal::Because(broken(place, Rule::Constant))),
    }
}

fn function_entry(place: Place, entry: &Entry) -> Result<StandardFunction, Refusal>
    ensures { Gives same_one result (function_entry place entry.now).run }
{
    match entry {
        Entry::Std { number } => chosen(place, *number, function_of(*number)),
        Entry::Const { .. } | Entry::Ty { .. } | Entry::Var { .. } | Entry::Code { .. } => {
            Err(Refusal::Because(broken(place, Rule::Constant)))
        }
    }
}

#[tactic(auto, unfolding(crate::specs::constant_expressions::Functions::function_at))]
fn function_at(scope: &Scope, place: Place, name: &Name) -> Result<StandardFunction, Refusal>
    ensures { Gives same_one result (function_at scope.now place name.now).run }
{
    match scope.find(name) {
        None => Err(Refusal::Because(undeclared(place, feature_of(name)))),
        Some(Found::Named { entry, .. }) => function_entry(place, entry),
        Some(Found::Member { .. }) => Err(Refusal::Because(broken(place, Rule::Constant))),
    }
}

/// The function that stands before an argument, in a call at a place.
pub(crate) fn function_named(
    scope: &Scope,
    place: Place,
    callee: &Designator,
) -> Result<StandardFunction, Refusal>
    ensures { Gives same_one result (function_named scope.now place (view_designator callee.now)).run }
{
    match callee {
        Designator::Name(one) => function_at(scope, one.position.place, &one.name),
        Designator::Field { .. } | Designator::Index { .. } | Designator::Dereference { .. } => {
            Err(Refusal::Because(broken(place, Rule::Constant)))
        }
    }
}

fn is_taken(number: u32, sort: Sort) -> bool
    ensures { result ≡ is_taken (signature_of number) sort }
{
    match signature_of(number) {
        Some(one) => accepts_one(one.shape, sort),
        None => false,
    }
}

// The value of a function's call with one argument.
fn called_on(
    types: &Types,
    place: Place,
    chosen: StandardFunction,
    operand: &Constant,
) -> Result<Constant, Refusal>
    ensures { Gives itself result (called_with types.now.types place chosen (operand.now ∷ [])).run }
{
    let sort = sort_of_constant(types, operand.ty, &operand.value);
    if !is_taken(chosen.number, sort) {
        return Err(Refusal::Because(broken(place, Rule::Called)));
    }
    let own = sort_of_type(types, operand.ty);
    applied(types, place, chosen.function, own, operand)
}

/// The value of a function's call at a place.
pub(crate) fn called_with(
    types: &Types,
    place: Place,
    chosen: StandardFunction,
    operands: &[Constant],
) -> Result<Constant, Refusal>
    ensures { Gives itself result (called_with types.now.types place chosen operands.now).run }
{
    match operands {
        [operand] => called_on(types, place, chosen, operand),
        _ => Err(Refusal::Because(broken(place, Rule::Called))),
    }
}
