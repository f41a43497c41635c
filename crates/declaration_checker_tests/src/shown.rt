//! What declarations give, in short.
//!
//! `var` stands before the types of the globals, and `=` behind the type of one that begins with a value. A routine is its kind and
//! name, `near` or `far`, its numbers of parameters and of variables of its own with `+` between them, `of` with the type that it is
//! a method of, `in` with the number of the routine round it, and `:=` with each variable that a statement of its block assigns to:
//! level and number, then the numbers of fields. One whose block was not met is `open`.

use tp_check_decl::routines::{Draft, Made, Slot};
use type_layout::Kind;
use typed_tree::{Global, PlaceExpr, Stmt, Variable};
use typing_rules::{Refusal, error_for};
use typing_samples::{Line, part, put, put_bytes, put_count, put_error};

fn show_globals(out: &mut Line, globals: &[Global]) {
    if globals.is_empty() {
        return;
    }
    put(out, "var");
    for one in globals {
        put_count(out, " ", u64::from(one.ty.0));
        if one.first.is_some() {
            put(out, "=");
        }
    }
    put(out, ";");
}

fn show_kind(out: &mut Line, kind: Kind) {
    match kind {
        Kind::Procedure => put(out, "procedure "),
        Kind::Function => put(out, "function "),
        Kind::Constructor => put(out, "constructor "),
        Kind::Destructor => put(out, "destructor "),
    }
}

fn show_distance(out: &mut Line, far: bool) {
    if far {
        put(out, " far ");
    } else {
        put(out, " near ");
    }
}

// A number behind a word, if there is one.
fn show_some(out: &mut Line, word: &str, number: Option<u32>) {
    if let Some(number) = number {
        put_count(out, word, u64::from(number));
    }
}

fn show_variable(out: &mut Line, one: Variable) {
    put_count(out, " :=", u64::from(one.level));
    put_count(out, ".", u64::from(one.number));
}

// A variable, with the fields that are selected of it.
fn show_target(out: &mut Line, place: &PlaceExpr) {
    match place {
        PlaceExpr::Var(one) => show_variable(out, *one),
        PlaceExpr::FieldOf { place, number } => {
            show_target(out, place);
            put_count(out, ".", u64::from(*number));
        }
        PlaceExpr::Deref { .. } | PlaceExpr::Index { .. } => put(out, " :=?"),
    }
}

fn show_targets(out: &mut Line, body: &Stmt) {
    if let Stmt::Block { statements } = body {
        for one in statements.as_slice() {
            if let Stmt::Assign { place, .. } = one {
                show_target(out, place);
            }
        }
    }
}

fn locals_of(made: &Option<Made>) -> usize {
    match made {
        Some(made) => made.locals.len(),
        None => 0,
    }
}

fn show_made(out: &mut Line, made: &Option<Made>) {
    match made {
        Some(made) => show_targets(out, &made.body),
        None => put(out, " open"),
    }
}

fn show_slot(out: &mut Line, slot: &Slot) {
    let first = &slot.first;
    part(out);
    show_kind(out, first.header.kind);
    put_bytes(out, first.name.as_bytes());
    show_distance(out, first.far);
    put_count(out, "", first.header.params.len() as u64);
    put_count(out, "+", locals_of(&slot.made) as u64);
    show_some(out, " of ", first.owner.map(|owner| owner.0));
    show_some(out, " in ", first.outer);
    show_made(out, &slot.made);
    put(out, ";");
}

fn show_draft(out: &mut Line, draft: &Draft) {
    show_globals(out, draft.globals.as_slice());
    for slot in draft.slots.as_slice() {
        show_slot(out, slot);
    }
}

/// What declarations were answered.
pub(crate) fn show(out: &mut Line, answer: Result<(), Refusal>, draft: &Draft) {
    match answer {
        Ok(()) => show_draft(out, draft),
        Err(refusal) => put_error(out, &error_for(refusal)),
    }
}
