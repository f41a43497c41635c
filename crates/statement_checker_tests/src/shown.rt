//! Typed statements in short.

use type_layout::TypeId;
use typed_tree::{
    Arm, Destructor, Expr, LabelRange, PlaceExpr, ReadItem, Stmt, Variable, WriteItem,
};
use typing_samples::{
    Line, put, put_numbered, show_args, show_expr, show_place, show_routine, show_slot, show_type,
    show_variable,
};

/// One of two texts.
fn put_either(out: &mut Line, is_first: bool, first: &str, second: &str) {
    if is_first {
        put(out, first);
    } else {
        put(out, second);
    }
}

/// An expression between two texts.
fn show_between(out: &mut Line, before: &str, expr: &Expr, behind: &str) {
    put(out, before);
    show_expr(out, expr);
    put(out, behind);
}

/// A place between two texts.
fn place_between(out: &mut Line, before: &str, place: &PlaceExpr, behind: &str) {
    put(out, before);
    show_place(out, place);
    put(out, behind);
}

fn show_width(out: &mut Line, width: &Option<Box<Expr>>) {
    match width {
        Some(width) => show_between(out, " : ", width, ")"),
        None => put(out, ")"),
    }
}

fn show_items(out: &mut Line, items: &[WriteItem], line: bool) {
    put_either(out, line, "writeln", "write");
    for item in items {
        show_between(out, " (", &item.value, "");
        show_width(out, &item.width);
    }
}

fn show_taken(out: &mut Line, items: &[ReadItem], line: bool) {
    put_either(out, line, "readln", "read");
    for item in items {
        put_either(out, item.checked, " !", " ");
        place_between(out, "", &item.place, ":");
        show_type(out, "", item.ty);
    }
}

fn show_labels(out: &mut Line, labels: &[LabelRange]) {
    for label in labels {
        put_numbered(out, " ", i64::from(label.low));
        put_numbered(out, "..", i64::from(label.high));
    }
}

fn show_assign(out: &mut Line, place: &PlaceExpr, value: &Expr) {
    show_place(out, place);
    show_between(out, " := ", value, "");
}

fn show_copy(out: &mut Line, to: &PlaceExpr, from: &PlaceExpr) {
    show_place(out, to);
    place_between(out, " := all ", from, "");
}

/// What a `for` counts by; tests are marked.
fn show_counter(out: &mut Line, checked: bool, variable: Variable, ty: TypeId) {
    put_either(out, checked, "for! ", "for ");
    show_variable(out, variable);
    show_type(out, ":", ty);
}

fn show_destructor(out: &mut Line, destructor: Destructor) {
    match destructor {
        Destructor::Routine(routine) => show_routine(out, " by m", routine),
        Destructor::Slot { slot, checked } => show_slot(out, " by v", slot, checked),
    }
}

/// The bounds of a `for`.
fn show_bounds(out: &mut Line, from: &Expr, down: bool, to: &Expr) {
    show_between(out, " := ", from, "");
    put_either(out, down, " downto ", " to ");
    show_between(out, "", to, " do ");
}

#[cycle(shown_statements)]
fn show_all(out: &mut Line, statements: &[Stmt]) {
    put(out, "{");
    for statement in statements {
        show(out, statement);
        put(out, ";");
    }
    put(out, "}");
}

#[cycle(shown_statements)]
fn show_arms(out: &mut Line, arms: &[Arm]) {
    for arm in arms {
        show_labels(out, arm.labels.as_slice());
        put(out, " -> ");
        show(out, &arm.body);
    }
}

/// A statement in short.
#[cycle(shown_statements)]
pub(crate) fn show(out: &mut Line, statement: &Stmt) {
    match statement {
        Stmt::Assign { place, value } => show_assign(out, place, value),
        Stmt::CopyAll { to, from } => show_copy(out, to, from),
        Stmt::Run { call } => show_between(out, "run ", call, ""),
        Stmt::If { condition, yes, no } => {
            show_between(out, "if ", condition, " then ");
            show(out, yes);
            put(out, " else ");
            show(out, no);
        }
        Stmt::While { condition, body } => {
            show_between(out, "while ", condition, " do ");
            show(out, body);
        }
        Stmt::Repeat { body, condition } => {
            put(out, "repeat ");
            show(out, body);
            show_between(out, " until ", condition, "");
        }
        Stmt::Block { statements } => show_all(out, statements.as_slice()),
        Stmt::Case {
            selector,
            arms,
            other,
        } => {
            show_between(out, "case ", selector, " of");
            show_arms(out, arms.as_slice());
            put(out, " else ");
            show(out, other);
        }
        Stmt::For {
            variable,
            ty,
            from,
            to,
            down,
            checked,
            body,
        } => {
            show_counter(out, *checked, *variable, *ty);
            show_bounds(out, from, *down, to);
            show(out, body);
        }
        Stmt::With { place, body } => {
            place_between(out, "with ", place, " do ");
            show(out, body);
        }
        Stmt::WriteItems { items, line } => show_items(out, items.as_slice(), *line),
        Stmt::ReadItems { items, line } => show_taken(out, items.as_slice(), *line),
        Stmt::Halt { code } => show_between(out, "halt ", code, ""),
        Stmt::Exit => put(out, "exit"),
        Stmt::Unmake {
            pointer,
            destructor,
            args,
        } => {
            show_between(out, "end ", pointer, "");
            show_destructor(out, *destructor);
            show_args(out, args.as_slice());
        }
    }
}
