//! The literals of trees, in their order: strings with their lengths, and sets of 32 bytes. They are put behind the data of a unit
//! that are there.

ghost use Rattle.std.specs.Prelude.{◌≡◌, ◌++◌, [], ◌∷◌, OnOk, IfOk, map};
ghost use Rattle.std.specs.Option.{option_map};
ghost use Rattle.typed_tree.specs.Expressions.{view_expr, view_place, view_elements, view_args, view_receiver, view_boxed};
ghost use Rattle.typed_tree.specs.Statements.{view_stmt, view_stmts, view_arms, view_written, view_taken};
ghost use Rattle.flat_code.specs.Plain.{view_datum};
ghost use Rattle.lower_places.specs.Data.{string_datum, set_datum, literals_of_value, literals_of, literals_of_place, literals_of_receiver, literals_of_elements, literals_of_arguments, literals_of_width, literals_of_written, literals_of_taken, literals_in, literals_in_all, literals_in_arms};

use common_values::sets::set_bytes;
use common_values::strings::cut;
use flat_code::{FlatData, FlatDatum};
use std::alloc::{AllocError, Global};
use type_layout::Bytes;
use typed_tree::{Arg, Arm, Expr, PlaceExpr, ReadItem, SetElement, Stmt, Value, WriteItem};

/// The most bytes of a string.
const LONGEST: u8 = 255;

fn string_datum(alloc: Global, text: &[u8]) -> Result<FlatDatum, AllocError>
    ensures { IfOk result (λ datum. view_datum datum ≡ string_datum text.now) }
{
    let kept = cut(LONGEST, text);
    let Ok(length) = u8::try_from(kept.len()) else {
        return Err(AllocError);
    };
    let mut first = Bytes::new(alloc);
    first.push(length)?;
    first.extend_from_slice(kept)?;
    let size = 1 + u32::from(length);
    Ok(FlatDatum { size, first })
}

fn set_datum(alloc: Global, elements: &[u8]) -> Result<FlatDatum, AllocError>
    ensures { IfOk result (λ datum. view_datum datum ≡ set_datum elements.now) }
{
    let first = Bytes::from_vec(set_bytes(alloc, 0, 255, elements)?);
    Ok(FlatDatum { size: 32, first })
}

fn add_datum(made: &mut FlatData, datum: FlatDatum) -> Result<(), AllocError>
    ensures { OnOk result (map view_datum made.new ≡ map view_datum made.old ++ view_datum datum ∷ []) }
{
    made.push(datum)
}

fn add_value(alloc: Global, made: &mut FlatData, value: &Value) -> Result<(), AllocError>
    ensures { OnOk result (map view_datum made.new ≡ map view_datum made.old ++ literals_of_value value.now) }
{
    match value {
        Value::Number(_) | Value::Nil => Ok(()),
        Value::Chars(text) => add_datum(made, string_datum(alloc, text.as_slice())?),
        Value::Elements(elements) => add_datum(made, set_datum(alloc, elements.as_slice())?),
    }
}

#[cycle(literals)]
fn add_expr(alloc: Global, made: &mut FlatData, expr: &Expr) -> Result<(), AllocError>
    ensures { OnOk result (map view_datum made.new ≡ map view_datum made.old ++ literals_of (view_expr expr.now)) }
{
    match expr {
        Expr::Const { value, .. } => add_value(alloc, made, value),
        Expr::RoutineValue { .. } => Ok(()),
        Expr::Load { place, .. } => add_place(alloc, made, place),
        Expr::Unary { operand, .. } | Expr::Convert { operand, .. } | Expr::Range { operand, .. } =>
            add_expr(alloc, made, operand),
        Expr::Binary { left, right, .. } => {
            add_expr(alloc, made, left)?;
            add_expr(alloc, made, right)
        }
        Expr::SetOf { elements, .. } => add_elements(alloc, made, elements.as_slice()),
        Expr::Call { own, args, .. } => {
            add_receiver(alloc, made, own)?;
            add_args(alloc, made, args.as_slice())
        }
        Expr::CallVirtual { own, args, .. } => {
            add_place(alloc, made, own)?;
            add_args(alloc, made, args.as_slice())
        }
        Expr::CallThrough { place, args, .. } => {
            add_place(alloc, made, place)?;
            add_args(alloc, made, args.as_slice())
        }
        Expr::Std { args, .. } => add_args(alloc, made, args.as_slice()),
        Expr::Make { args, .. } => add_args(alloc, made, args.as_slice()),
    }
}

#[cycle(literals)]
fn add_place(alloc: Global, made: &mut FlatData, place: &PlaceExpr) -> Result<(), AllocError>
    ensures { OnOk result (map view_datum made.new ≡ map view_datum made.old ++ literals_of_place (view_place place.now)) }
{
    match place {
        PlaceExpr::Var(_) => Ok(()),
        PlaceExpr::Deref { pointer } => add_expr(alloc, made, pointer),
        PlaceExpr::Index { place, index, .. } => {
            add_place(alloc, made, place)?;
            add_expr(alloc, made, index)
        }
        PlaceExpr::FieldOf { place, .. } => add_place(alloc, made, place),
    }
}

#[cycle(literals)]
fn add_receiver(
    alloc: Global,
    made: &mut FlatData,
    own: &Option<Box<PlaceExpr>>,
) -> Result<(), AllocError>
    ensures { OnOk result (map view_datum made.new ≡ map view_datum made.old ++ literals_of_receiver (view_receiver own.now)) }
{
    match own {
        None => Ok(()),
        Some(place) => add_place(alloc, made, place),
    }
}

#[cycle(literals)]
fn add_elements(
    alloc: Global,
    made: &mut FlatData,
    elements: &[SetElement],
) -> Result<(), AllocError>
    ensures { OnOk result (map view_datum made.new ≡ map view_datum made.old ++ literals_of_elements (view_elements elements.now)) }
{
    for element in elements {
        match element {
            SetElement::One(one) => add_expr(alloc, made, one)?,
            SetElement::Span(low, high) => {
                add_expr(alloc, made, low)?;
                add_expr(alloc, made, high)?;
            }
        }
    }
    Ok(())
}

#[cycle(literals)]
fn add_args(alloc: Global, made: &mut FlatData, args: &[Arg]) -> Result<(), AllocError>
    ensures { OnOk result (map view_datum made.new ≡ map view_datum made.old ++ literals_of_arguments (view_args args.now)) }
{
    for arg in args {
        match arg {
            Arg::Value(value) => add_expr(alloc, made, value)?,
            Arg::Place(place) => add_place(alloc, made, place)?,
        }
    }
    Ok(())
}

fn add_width(
    alloc: Global,
    made: &mut FlatData,
    width: &Option<Box<Expr>>,
) -> Result<(), AllocError>
    ensures { OnOk result (map view_datum made.new ≡ map view_datum made.old ++ literals_of_width (option_map view_boxed width.now)) }
{
    match width {
        None => Ok(()),
        Some(width) => add_expr(alloc, made, width),
    }
}

fn add_written(alloc: Global, made: &mut FlatData, items: &[WriteItem]) -> Result<(), AllocError>
    ensures { OnOk result (map view_datum made.new ≡ map view_datum made.old ++ literals_of_written (map view_written items.now)) }
{
    for item in items {
        add_expr(alloc, made, &item.value)?;
        add_width(alloc, made, &item.width)?;
    }
    Ok(())
}

fn add_taken(alloc: Global, made: &mut FlatData, items: &[ReadItem]) -> Result<(), AllocError>
    ensures { OnOk result (map view_datum made.new ≡ map view_datum made.old ++ literals_of_taken (map view_taken items.now)) }
{
    for item in items {
        add_place(alloc, made, &item.place)?;
    }
    Ok(())
}

/// Adds the literals of a statement.
#[cycle(statement_literals)]
pub fn add_stmt(alloc: Global, made: &mut FlatData, stmt: &Stmt) -> Result<(), AllocError>
    ensures { OnOk result (map view_datum made.new ≡ map view_datum made.old ++ literals_in (view_stmt stmt.now)) }
{
    match stmt {
        Stmt::Assign { place, value } => {
            add_place(alloc, made, place)?;
            add_expr(alloc, made, value)
        }
        Stmt::CopyAll { to, from } => {
            add_place(alloc, made, to)?;
            add_place(alloc, made, from)
        }
        Stmt::Run { call } => add_expr(alloc, made, call),
        Stmt::If { condition, yes, no } => {
            add_expr(alloc, made, condition)?;
            add_stmt(alloc, made, yes)?;
            add_stmt(alloc, made, no)
        }
        Stmt::While { condition, body } => {
            add_expr(alloc, made, condition)?;
            add_stmt(alloc, made, body)
        }
        Stmt::Repeat { body, condition } => {
            add_stmt(alloc, made, body)?;
            add_expr(alloc, made, condition)
        }
        Stmt::Block { statements } => add_stmts(alloc, made, statements.as_slice()),
        Stmt::Case {
            selector,
            arms,
            other,
        } => {
            add_expr(alloc, made, selector)?;
            add_arms(alloc, made, arms.as_slice())?;
            add_stmt(alloc, made, other)
        }
        Stmt::For { from, to, body, .. } => {
            add_expr(alloc, made, from)?;
            add_expr(alloc, made, to)?;
            add_stmt(alloc, made, body)
        }
        Stmt::With { place, body } => {
            add_place(alloc, made, place)?;
            add_stmt(alloc, made, body)
        }
        Stmt::WriteItems { items, .. } => add_written(alloc, made, items.as_slice()),
        Stmt::ReadItems { items, .. } => add_taken(alloc, made, items.as_slice()),
        Stmt::Halt { code } => add_expr(alloc, made, code),
        Stmt::Exit => Ok(()),
        Stmt::Unmake { pointer, args, .. } => {
            add_expr(alloc, made, pointer)?;
            add_args(alloc, made, args.as_slice())
        }
    }
}

#[cycle(statement_literals)]
fn add_stmts(alloc: Global, made: &mut FlatData, statements: &[Stmt]) -> Result<(), AllocError>
    ensures { OnOk result (map view_datum made.new ≡ map view_datum made.old ++ literals_in_all (view_stmts statements.now)) }
{
    for stmt in statements {
        add_stmt(alloc, made, stmt)?;
    }
    Ok(())
}

#[cycle(statement_literals)]
fn add_arms(alloc: Global, made: &mut FlatData, arms: &[Arm]) -> Result<(), AllocError>
    ensures { OnOk result (map view_datum made.new ≡ map view_datum made.old ++ literals_in_arms (view_arms arms.now)) }
{
    for arm in arms {
        add_stmt(alloc, made, &arm.body)?;
    }
    Ok(())
}
