//! Statements.

use crate::branches::{branched, literals_of_arms};
use crate::copies::lower_copy;
use crate::counters::Counter;
use crate::heap::lower_unmake;
use crate::items::{lower_read, lower_write};
use crate::loops::{Counting, counted, repeated, while_held};
use crate::procedures::lower_procedure;
use flat_code::flat_builders::{then, when};
use flat_code::{FlatList, FlatStmt};
use lower_expr::{lower_address, lower_expr, lower_place};
use lower_places::{Held, Scene, Spot, literals_of_expr, literals_of_place, literals_of_stmt};
use lower_values::{Form, form_of, low_word, single, store, word_in};
use std::alloc::AllocError;
use typed_tree::{Arm, Expr, PlaceExpr, Stmt, is_var};

/// The number of the effect of the machine that ends a run.
const END_RUN: u16 = 2;

/// An assignment. Where the place isn't a variable, it is found first, with a pointer in the slot of the spot.
fn lower_assign(
    scene: &Scene,
    place: &PlaceExpr,
    value: &Expr,
    spot: Spot,
) -> Result<FlatList, AllocError> {
    let (code, reach) = lower_place(scene, place, spot)?;
    let taken = if is_var(place) { 0 } else { 4 };
    let behind = spot.above(taken).after(literals_of_place(place));
    let code = then(code, lower_expr(scene, value, behind)?)?;
    let shape = scene.sort_of_place(place)?.shape()?;
    let literal = matches!(form_of(scene, value)?, Form::Literal);
    then(code, store(scene, reach, shape, behind.slot, literal)?)
}

fn lower_run(scene: &Scene, call: &Expr, spot: Spot) -> Result<FlatList, AllocError> {
    match call {
        Expr::Std {
            ty: None,
            number,
            args,
        } => lower_procedure(scene, *number, args.as_slice(), spot),
        _ => lower_expr(scene, call, spot),
    }
}

/// Either of two lists, by the truth value in a slot that some code leaves there.
fn chosen(
    scene: &Scene,
    test: FlatList,
    taken: FlatList,
    other: FlatList,
    slot: u32,
) -> Result<FlatList, AllocError> {
    let word = word_in(scene, slot)?;
    then(test, single(scene.alloc, when(word, taken, other))?)
}

fn lower_halt(scene: &Scene, code: &Expr, spot: Spot) -> Result<FlatList, AllocError> {
    let list = lower_expr(scene, code, spot)?;
    let args = vec![in scene.alloc; low_word(scene, form_of(scene, code)?, spot.slot)?]?;
    let end = FlatStmt::Runtime {
        number: END_RUN,
        args,
        result: None,
    };
    then(list, single(scene.alloc, end)?)
}

/// The places that the open `with`s hold, with one more, to which a pointer lies in a slot.
fn opened<'a>(
    scene: &Scene<'a>,
    place: &PlaceExpr,
    slot: u32,
) -> Result<Vec<Held<'a>>, AllocError> {
    let mut withs = Vec::from_slice(scene.alloc, scene.withs)?;
    let sort = scene.sort_of_place(place)?;
    withs.push(Held { slot, sort })?;
    Ok(withs)
}

/// Where the branches of a `case` begin.
fn behind_selector(scene: &Scene, selector: &Expr, spot: Spot) -> Result<Spot, AllocError> {
    let bytes = form_of(scene, selector)?.bytes();
    Ok(spot.above(bytes).after(literals_of_expr(selector)))
}

/// A `case` by the bodies of its branches, and what is done where none has a label for its number.
fn cased(
    scene: &Scene,
    selector: &Expr,
    arms: &[Arm],
    bodies: Vec<FlatList>,
    other: FlatList,
    spot: Spot,
) -> Result<FlatList, AllocError> {
    let code = lower_expr(scene, selector, spot)?;
    let form = form_of(scene, selector)?;
    then(code, branched(scene, form, spot.slot, arms, bodies, other)?)
}

/// A statement that has no others in it.
fn lower_simple(scene: &Scene, stmt: &Stmt, spot: Spot) -> Result<FlatList, AllocError> {
    match stmt {
        Stmt::Assign { place, value } => lower_assign(scene, place, value, spot),
        Stmt::CopyAll { to, from } => lower_copy(scene, to, from, spot),
        Stmt::Run { call } => lower_run(scene, call, spot),
        Stmt::WriteItems { items, line } => lower_write(scene, items.as_slice(), *line, spot),
        Stmt::ReadItems { items, line } => lower_read(scene, items.as_slice(), *line, spot),
        Stmt::Halt { code } => lower_halt(scene, code, spot),
        Stmt::Exit => single(scene.alloc, FlatStmt::Return),
        Stmt::Unmake {
            pointer,
            destructor,
            args,
        } => lower_unmake(scene, pointer, *destructor, args.as_slice(), spot),
        _ => Err(AllocError),
    }
}

/// What a statement does, as flat code. Its slots begin at a spot, and its literals stand behind those that stand before it.
#[cycle(statements)]
pub fn lower_stmt(scene: &Scene, stmt: &Stmt, spot: Spot) -> Result<FlatList, AllocError> {
    match stmt {
        Stmt::If { condition, yes, no } => {
            let test = lower_expr(scene, condition, spot)?;
            let behind = spot.after(literals_of_expr(condition));
            let taken = lower_stmt(scene, yes, behind)?;
            let other = lower_stmt(scene, no, behind.after(literals_of_stmt(yes)))?;
            chosen(scene, test, taken, other, spot.slot)
        }
        Stmt::While { condition, body } => {
            let test = lower_expr(scene, condition, spot)?;
            let turn = lower_stmt(scene, body, spot.after(literals_of_expr(condition)))?;
            while_held(scene, test, turn, spot.slot)
        }
        Stmt::Repeat { body, condition } => {
            let turn = lower_stmt(scene, body, spot)?;
            let test = lower_expr(scene, condition, spot.after(literals_of_stmt(body)))?;
            repeated(scene, turn, test, spot.slot)
        }
        Stmt::Block { statements } => lower_block(scene, statements.as_slice(), spot),
        Stmt::Case {
            selector,
            arms,
            other,
        } => {
            let behind = behind_selector(scene, selector, spot)?;
            let bodies = lower_bodies(scene, arms.as_slice(), behind)?;
            let next = behind.after(literals_of_arms(arms.as_slice()));
            let last = lower_stmt(scene, other, next)?;
            cased(scene, selector, arms.as_slice(), bodies, last, spot)
        }
        Stmt::For {
            variable,
            ty,
            from,
            to,
            down,
            checked,
            body,
        } => {
            let counting = Counting {
                counter: Counter::of(scene, *variable, *ty)?,
                down: *down,
                checked: *checked,
            };
            lower_for(scene, body, counting, from, to, spot)
        }
        Stmt::With { place, body } => lower_with(scene, body, place, spot),
        _ => lower_simple(scene, stmt, spot),
    }
}

/// A `for`. Its first value lies in the slot of the spot, and its last one in the next.
#[cycle(statements)]
fn lower_for(
    scene: &Scene,
    body: &Stmt,
    counting: Counting,
    from: &Expr,
    to: &Expr,
    spot: Spot,
) -> Result<FlatList, AllocError> {
    let bytes = counting.counter.form().bytes();
    let next = spot.above(bytes).after(literals_of_expr(from));
    let first = lower_expr(scene, from, spot)?;
    let last = lower_expr(scene, to, next)?;
    let turn = lower_stmt(scene, body, next.after(literals_of_expr(to)))?;
    counted(scene, counting, then(first, last)?, turn, spot.slot)
}

/// A `with`. A pointer to its place lies in the slot of the spot.
#[cycle(statements)]
fn lower_with(
    scene: &Scene,
    body: &Stmt,
    place: &PlaceExpr,
    spot: Spot,
) -> Result<FlatList, AllocError> {
    let code = lower_address(scene, place, spot)?;
    let withs = opened(scene, place, spot.slot)?;
    let inside = Scene {
        withs: withs.as_slice(),
        ..*scene
    };
    let behind = spot.above(4).after(literals_of_place(place));
    then(code, lower_stmt(&inside, body, behind)?)
}

#[cycle(statements)]
fn lower_block(scene: &Scene, statements: &[Stmt], spot: Spot) -> Result<FlatList, AllocError> {
    let mut code = Vec::new(scene.alloc);
    let mut at = spot;
    for stmt in statements {
        code = then(code, lower_stmt(scene, stmt, at)?)?;
        at = at.after(literals_of_stmt(stmt));
    }
    Ok(code)
}

/// The bodies of the branches of a `case`, one behind another.
#[cycle(statements)]
fn lower_bodies(scene: &Scene, arms: &[Arm], spot: Spot) -> Result<Vec<FlatList>, AllocError> {
    let mut bodies = Vec::new(scene.alloc);
    let mut at = spot;
    for arm in arms {
        bodies.push(lower_stmt(scene, &arm.body, at)?)?;
        at = at.after(literals_of_stmt(&arm.body));
    }
    Ok(bodies)
}
