//! Expressions, places and arguments, part by part.

use crate::calls::{call, made_block};
use crate::standard::standard;
use flat_code::flat_builders::{set, then};
use flat_code::{FlatExpr, FlatList, FlatStmt};
use lower_places::{
    Reach, Scene, Spot, literals_of_arg, literals_of_element, literals_of_expr, literals_of_place,
    literals_of_receiver,
};
use lower_values::{
    Form, binary, converted, early, emptied, form_of, high_number, indexed, inside, length_at,
    length_of, load, number, pair, point, ranged, single, slot_of_arg, slot_place, through, unary,
    with_element, with_span,
};
use std::alloc::AllocError;
use type_layout::TypeId;
use typed_tree::standard::LENGTH;
use typed_tree::{Arg, Expr, PlaceExpr, SetElement, Value};

// ---- constants

fn number_constant(scene: &Scene, ty: TypeId, z: i32, slot: u32) -> Result<FlatList, AllocError> {
    let alloc = scene.alloc;
    let high = scene.slot_at(slot, 2)?;
    match Form::of(scene.shape(ty)?) {
        Form::Word(_) => single(alloc, set(high, number(z))),
        _ => pair(
            alloc,
            set(scene.slot_at(slot, 4)?, number(z)),
            set(high, high_number(z)),
        ),
    }
}

fn constant(scene: &Scene, ty: TypeId, value: &Value, spot: Spot) -> Result<FlatList, AllocError> {
    let alloc = scene.alloc;
    match value {
        Value::Number(z) => number_constant(scene, ty, *z, spot.slot),
        Value::Chars(_) => point(scene, Reach::At(scene.literal(spot.literal)?), spot.slot),
        Value::Nil => pair(
            alloc,
            set(scene.slot_at(spot.slot, 4)?, FlatExpr::Number(0)),
            set(scene.slot_at(spot.slot, 2)?, FlatExpr::Number(0)),
        ),
        Value::Elements(_) => {
            let copy = FlatStmt::Copy {
                to: slot_place(scene, spot.slot, 32)?,
                from: scene.literal(spot.literal)?,
                bytes: 32,
            };
            single(alloc, copy)
        }
    }
}

// ---- what is done to parts that are there

// An operator, a conversion or a test, behind its operand.
fn operation(
    scene: &Scene,
    expr: &Expr,
    operand: &Expr,
    slot: u32,
) -> Result<FlatList, AllocError> {
    let form = form_of(scene, operand)?;
    match expr {
        Expr::Unary { ty, op, .. } => { unary(scene, *op, form, Form::of(scene.shape(*ty)?), slot) }
        Expr::Convert { ty, .. } => converted(scene, form, Form::of(scene.shape(*ty)?), slot),
        Expr::Range { low, high, .. } => ranged(scene, form, *low, *high, slot),
        _ => Err(AllocError),
    }
}

// Where the right side of an operator begins.
fn behind(scene: &Scene, left: &Expr, early: bool, spot: Spot) -> Result<Spot, AllocError> {
    let after = spot.after(literals_of_expr(left));
    if early {
        Ok(after)
    } else {
        Ok(after.above(form_of(scene, left)?.bytes()))
    }
}

// An operator behind its operands.
fn operated(
    scene: &Scene,
    expr: &Expr,
    first: FlatList,
    second: FlatList,
    slot: u32,
) -> Result<FlatList, AllocError> {
    let Expr::Binary {
        ty,
        op,
        left,
        right,
        early: is_early,
    } = expr
    else {
        return Err(AllocError);
    };
    if *is_early {
        return early(scene, *op, first, second, slot);
    }
    let stored = Form::of(scene.shape(*ty)?);
    let left = form_of(scene, left)?;
    let right = form_of(scene, right)?;
    let done = binary(scene, *op, left, right, stored, slot)?;
    then(first, then(second, done)?)
}

// Where the arguments of a call begin.
fn behind_receiver(own: &Option<Box<PlaceExpr>>, spot: Spot) -> Spot {
    let after = spot.after(literals_of_receiver(own));
    if own.is_some() { after.above(4) } else { after }
}

// The far pointer in a slot goes on from an array or a string to the element of the index behind it.
fn element(
    scene: &Scene,
    place: &PlaceExpr,
    index: &Expr,
    checked: bool,
    slot: u32,
) -> Result<FlatList, AllocError> {
    let (low, high, element) = scene.sort_of_place(place)?.elements()?;
    let form = form_of(scene, index)?;
    indexed(scene, (low, high), element.size(), form, checked, slot)
}

// What is found by the far pointer in a slot.
fn with_through(scene: &Scene, code: FlatList, slot: u32) -> Result<(FlatList, Reach), AllocError> {
    Ok((code, through(scene, slot)?))
}

// A far pointer to what was found.
fn pointed(scene: &Scene, found: (FlatList, Reach), slot: u32) -> Result<FlatList, AllocError> {
    let (code, reach) = found;
    then(code, point(scene, reach, slot)?)
}

// ---- trees

/// Code that leaves the value of an expression in a slot: where evaluation begins, in front of the literals and above the
/// slots that come before.
#[cycle(lowering)]
pub fn lower_expr(scene: &Scene, expr: &Expr, spot: Spot) -> Result<FlatList, AllocError> {
    match expr {
        Expr::Const { ty, value } => constant(scene, *ty, value, spot),
        Expr::RoutineValue { routine, .. } => {
            let to = slot_place(scene, spot.slot, 4)?;
            let routine = *routine;
            single(scene.alloc, FlatStmt::StoreRoutine { to, routine })
        }
        Expr::Load { ty, place } => {
            let (code, reach) = lower_place(scene, place, spot)?;
            then(code, load(scene, reach, scene.shape(*ty)?, spot.slot)?)
        }
        Expr::Unary { operand, .. } | Expr::Convert { operand, .. } | Expr::Range { operand, .. } =>
            {
                let code = lower_expr(scene, operand, spot)?;
                then(code, operation(scene, expr, operand, spot.slot)?)
            }
        Expr::Binary {
            left,
            right,
            early,
            ..
        } => {
            let first = lower_expr(scene, left, spot)?;
            let second = lower_expr(scene, right, behind(scene, left, *early, spot)?)?;
            operated(scene, expr, first, second, spot.slot)
        }
        Expr::SetOf { elements, .. } => {
            let code = emptied(scene, spot.slot)?;
            then(
                code,
                lower_elements(scene, elements.as_slice(), spot.slot, spot.above(32))?,
            )
        }
        Expr::Call { own, args, .. } => {
            let code = lower_receiver(scene, own, spot)?;
            let given = lower_args(scene, args.as_slice(), behind_receiver(own, spot))?;
            then(code, then(given, call(scene, expr, spot.slot)?)?)
        }
        Expr::CallVirtual {
            own: place,
            args,
            ..
        }
        | Expr::CallThrough { place, args, .. } => {
            let code = lower_address(scene, place, spot)?;
            let next = spot.above(4).after(literals_of_place(place));
            let given = lower_args(scene, args.as_slice(), next)?;
            then(code, then(given, call(scene, expr, spot.slot)?)?)
        }
        Expr::Std {
            number: LENGTH,
            args,
            ..
        } => lower_length(scene, args.as_slice(), spot),
        Expr::Std { ty, number, args } => {
            let given = lower_args(scene, args.as_slice(), spot)?;
            then(
                given,
                standard(scene, *ty, *number, args.as_slice(), spot.slot)?,
            )
        }
        Expr::Make { ty, args, .. } => {
            let code = made_block(scene, &scene.sort(*ty).target()?, spot.slot)?;
            let given = lower_args(scene, args.as_slice(), spot.above(4))?;
            then(code, then(given, call(scene, expr, spot.slot)?)?)
        }
    }
}

/// Code that finds a place, with slots from one on, and how its bytes are reached then. A variable takes no code.
#[cycle(lowering)]
pub fn lower_place(
    scene: &Scene,
    place: &PlaceExpr,
    spot: Spot,
) -> Result<(FlatList, Reach), AllocError> {
    match place {
        PlaceExpr::Var(variable) => Ok((Vec::new(scene.alloc), scene.reach_of(*variable)?)),
        PlaceExpr::Deref { pointer } => {
            with_through(scene, lower_expr(scene, pointer, spot)?, spot.slot)
        }
        PlaceExpr::Index {
            place,
            index,
            checked,
        } => {
            let code = lower_address(scene, place, spot)?;
            let next = spot.above(4).after(literals_of_place(place));
            let number = lower_expr(scene, index, next)?;
            let moved = element(scene, place, index, *checked, spot.slot)?;
            with_through(scene, then(code, then(number, moved)?)?, spot.slot)
        }
        PlaceExpr::FieldOf { place, number } => {
            let (code, reach) = lower_place(scene, place, spot)?;
            let offset = scene.sort_of_place(place)?.offset(*number)?;
            let (fetched, field) = inside(scene, reach, offset, spot.slot)?;
            Ok((then(code, fetched)?, field))
        }
    }
}

/// Code that leaves a far pointer to a place in a slot of 4 bytes.
#[cycle(lowering)]
pub fn lower_address(scene: &Scene, place: &PlaceExpr, spot: Spot) -> Result<FlatList, AllocError> {
    pointed(scene, lower_place(scene, place, spot)?, spot.slot)
}

#[cycle(lowering)]
fn lower_receiver(
    scene: &Scene,
    own: &Option<Box<PlaceExpr>>,
    spot: Spot,
) -> Result<FlatList, AllocError> {
    match own {
        None => Ok(Vec::new(scene.alloc)),
        Some(place) => lower_address(scene, place, spot),
    }
}

// Length of a variable reads the length of its string alone.
#[cycle(lowering)]
fn lower_length(scene: &Scene, args: &[Arg], spot: Spot) -> Result<FlatList, AllocError> {
    match args {
        [Arg::Value(Expr::Load { place, .. })] => {
            let (code, reach) = lower_place(scene, place, spot)?;
            then(code, length_at(scene, reach, spot.slot)?)
        }
        [Arg::Value(text)] => {
            let code = lower_expr(scene, text, spot)?;
            then(code, length_of(scene, form_of(scene, text)?, spot.slot)?)
        }
        _ => Err(AllocError),
    }
}

#[cycle(lowering)]
fn lower_arg(scene: &Scene, arg: &Arg, spot: Spot) -> Result<FlatList, AllocError> {
    match arg {
        Arg::Value(value) => lower_expr(scene, value, spot),
        Arg::Place(place) => lower_address(scene, place, spot),
    }
}

// Where the next argument begins.
fn behind_arg(scene: &Scene, arg: &Arg, spot: Spot) -> Spot {
    spot.above(slot_of_arg(&scene.unit.types, arg))
        .after(literals_of_arg(arg))
}

/// Code that leaves arguments in slots one behind the other: values, and far pointers to places.
#[cycle(lowering)]
pub fn lower_args(scene: &Scene, args: &[Arg], spot: Spot) -> Result<FlatList, AllocError> {
    let mut code = Vec::new(scene.alloc);
    let mut at = spot;
    for arg in args {
        code = then(code, lower_arg(scene, arg, at)?)?;
        at = behind_arg(scene, arg, at);
    }
    Ok(code)
}

#[cycle(lowering)]
fn lower_element(
    scene: &Scene,
    element: &SetElement,
    set: u32,
    spot: Spot,
) -> Result<FlatList, AllocError> {
    match element {
        SetElement::One(one) => {
            let code = lower_expr(scene, one, spot)?;
            then(
                code,
                with_element(scene, set, form_of(scene, one)?, spot.slot)?,
            )
        }
        SetElement::Span(low, high) => {
            let first = lower_expr(scene, low, spot)?;
            let second = lower_expr(scene, high, behind(scene, low, false, spot)?)?;
            let forms = (form_of(scene, low)?, form_of(scene, high)?);
            let added = with_span(scene, set, forms.0, forms.1, spot.slot)?;
            then(first, then(second, added)?)
        }
    }
}

#[cycle(lowering)]
fn lower_elements(
    scene: &Scene,
    elements: &[SetElement],
    set: u32,
    spot: Spot,
) -> Result<FlatList, AllocError> {
    let mut code = Vec::new(scene.alloc);
    let mut at = spot;
    for element in elements {
        code = then(code, lower_element(scene, element, set, at)?)?;
        at = at.after(literals_of_element(element));
    }
    Ok(code)
}
