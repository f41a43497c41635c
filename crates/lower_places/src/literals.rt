//! How many literals trees have: a string or a set each, in the order in which the trees name them.

ghost use Rattle.std.specs.Prelude.{◌≡◌, map};
ghost use Rattle.std.specs.Option.{option_map};
ghost use Rattle.typed_tree.specs.Expressions.{NoElements, NoArguments, view_expr, view_place, view_receiver, view_element, view_elements, view_arg, view_args, view_boxed};
ghost use Rattle.typed_tree.specs.Statements.{view_stmt, view_stmts, view_arms, view_written, view_taken};
ghost use Rattle.lower_places.specs.Data.{counted, literals_of_value, literals_of, literals_of_place, literals_of_receiver, literals_of_elements, literals_of_arguments, literals_of_width, literals_of_written, literals_of_taken, literals_in, literals_in_all, literals_in_arms};

use typed_tree::{Arg, Arm, Expr, PlaceExpr, ReadItem, SetElement, Stmt, Value, WriteItem};

fn literals_of_value(value: &Value) -> u32
    ensures { result ≡ counted (literals_of_value value.now) }
{
    match value {
        Value::Number(_) | Value::Nil => 0,
        Value::Chars(_) | Value::Elements(_) => 1,
    }
}

/// The literals of an expression.
#[cycle(literals)]
pub fn literals_of_expr(expr: &Expr) -> u32
    ensures { result ≡ counted (literals_of (view_expr expr.now)) }
{
    match expr {
        Expr::Const { value, .. } => literals_of_value(value),
        Expr::RoutineValue { .. } => 0,
        Expr::Load { place, .. } => literals_of_place(place),
        Expr::Unary { operand, .. } | Expr::Convert { operand, .. } => literals_of_expr(operand),
        Expr::Binary { left, right, .. } => {
            literals_of_expr(left).saturating_add(literals_of_expr(right))
        }
        Expr::Range { operand, .. } => literals_of_expr(operand),
        Expr::SetOf { elements, .. } => literals_of_elements(elements.as_slice()),
        Expr::Call { own, args, .. } => {
            literals_of_receiver(own).saturating_add(literals_of_args(args.as_slice()))
        }
        Expr::CallVirtual { own, args, .. } => {
            literals_of_place(own).saturating_add(literals_of_args(args.as_slice()))
        }
        Expr::CallThrough { place, args, .. } => {
            literals_of_place(place).saturating_add(literals_of_args(args.as_slice()))
        }
        Expr::Std { args, .. } => literals_of_args(args.as_slice()),
        Expr::Make { args, .. } => literals_of_args(args.as_slice()),
    }
}

/// The literals of a place.
#[cycle(literals)]
pub fn literals_of_place(place: &PlaceExpr) -> u32
    ensures { result ≡ counted (literals_of_place (view_place place.now)) }
{
    match place {
        PlaceExpr::Var(_) => 0,
        PlaceExpr::Deref { pointer } => literals_of_expr(pointer),
        PlaceExpr::Index { place, index, .. } => {
            literals_of_place(place).saturating_add(literals_of_expr(index))
        }
        PlaceExpr::FieldOf { place, .. } => literals_of_place(place),
    }
}

/// The literals of an instance, if there is one.
#[cycle(literals)]
pub fn literals_of_receiver(own: &Option<Box<PlaceExpr>>) -> u32
    ensures { result ≡ counted (literals_of_receiver (view_receiver own.now)) }
{
    match own {
        None => 0,
        Some(place) => literals_of_place(place),
    }
}

/// The literals of what a set constructor lists.
#[cycle(literals)]
pub fn literals_of_element(element: &SetElement) -> u32
    ensures { result ≡ counted (literals_of_elements (view_element element.now NoElements)) }
{
    match element {
        SetElement::One(one) => literals_of_expr(one),
        SetElement::Span(low, high) => {
            literals_of_expr(low).saturating_add(literals_of_expr(high))
        }
    }
}

#[cycle(literals)]
#[tactic(auto, using(crate::proofs::LiteralSteps::element_step))]
fn literals_of_elements(elements: &[SetElement]) -> u32
    ensures { result ≡ counted (literals_of_elements (view_elements elements.now)) }
{
    let mut sum = 0u32;
    for element in elements {
        sum = sum.saturating_add(literals_of_element(element));
    }
    sum
}

/// The literals of an argument.
#[cycle(literals)]
pub fn literals_of_arg(arg: &Arg) -> u32
    ensures { result ≡ counted (literals_of_arguments (view_arg arg.now NoArguments)) }
{
    match arg {
        Arg::Value(value) => literals_of_expr(value),
        Arg::Place(place) => literals_of_place(place),
    }
}

/// The literals of arguments.
#[cycle(literals)]
#[tactic(auto, using(crate::proofs::LiteralSteps::arg_step))]
pub fn literals_of_args(args: &[Arg]) -> u32
    ensures { result ≡ counted (literals_of_arguments (view_args args.now)) }
{
    let mut sum = 0u32;
    for arg in args {
        sum = sum.saturating_add(literals_of_arg(arg));
    }
    sum
}

fn literals_of_width(width: &Option<Box<Expr>>) -> u32
    ensures { result ≡ counted (literals_of_width (option_map view_boxed width.now)) }
{
    match width {
        None => 0,
        Some(width) => literals_of_expr(width),
    }
}

fn literals_of_written(items: &[WriteItem]) -> u32
    ensures { result ≡ counted (literals_of_written (map view_written items.now)) }
{
    let mut sum = 0u32;
    for item in items {
        sum = sum
            .saturating_add(literals_of_expr(&item.value))
            .saturating_add(literals_of_width(&item.width));
    }
    sum
}

fn literals_of_taken(items: &[ReadItem]) -> u32
    ensures { result ≡ counted (literals_of_taken (map view_taken items.now)) }
{
    let mut sum = 0u32;
    for item in items {
        sum = sum.saturating_add(literals_of_place(&item.place));
    }
    sum
}

/// The literals of a statement.
#[cycle(statement_literals)]
pub fn literals_of_stmt(stmt: &Stmt) -> u32
    ensures { result ≡ counted (literals_in (view_stmt stmt.now)) }
{
    match stmt {
        Stmt::Assign { place, value } => {
            literals_of_place(place).saturating_add(literals_of_expr(value))
        }
        Stmt::CopyAll { to, from } => {
            literals_of_place(to).saturating_add(literals_of_place(from))
        }
        Stmt::Run { call } => literals_of_expr(call),
        Stmt::If { condition, yes, no } => {
            literals_of_expr(condition)
                .saturating_add(literals_of_stmt(yes))
                .saturating_add(literals_of_stmt(no))
        }
        Stmt::While { condition, body } => {
            literals_of_expr(condition).saturating_add(literals_of_stmt(body))
        }
        Stmt::Repeat { body, condition } => {
            literals_of_stmt(body).saturating_add(literals_of_expr(condition))
        }
        Stmt::Block { statements } => literals_of_stmts(statements.as_slice()),
        Stmt::Case {
            selector,
            arms,
            other,
        } => {
            literals_of_expr(selector)
                .saturating_add(literals_of_arms(arms.as_slice()))
                .saturating_add(literals_of_stmt(other))
        }
        Stmt::For { from, to, body, .. } => {
            literals_of_expr(from)
                .saturating_add(literals_of_expr(to))
                .saturating_add(literals_of_stmt(body))
        }
        Stmt::With { place, body } => {
            literals_of_place(place).saturating_add(literals_of_stmt(body))
        }
        Stmt::WriteItems { items, .. } => literals_of_written(items.as_slice()),
        Stmt::ReadItems { items, .. } => literals_of_taken(items.as_slice()),
        Stmt::Halt { code } => literals_of_expr(code),
        Stmt::Exit => 0,
        Stmt::Unmake { pointer, args, .. } => {
            literals_of_expr(pointer).saturating_add(literals_of_args(args.as_slice()))
        }
    }
}

#[cycle(statement_literals)]
fn literals_of_stmts(statements: &[Stmt]) -> u32
    ensures { result ≡ counted (literals_in_all (view_stmts statements.now)) }
{
    let mut sum = 0u32;
    for stmt in statements {
        sum = sum.saturating_add(literals_of_stmt(stmt));
    }
    sum
}

#[cycle(statement_literals)]
fn literals_of_arms(arms: &[Arm]) -> u32
    ensures { result ≡ counted (literals_in_arms (view_arms arms.now)) }
{
    let mut sum = 0u32;
    for arm in arms {
        sum = sum.saturating_add(literals_of_stmt(&arm.body));
    }
    sum
}
