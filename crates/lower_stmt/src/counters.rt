//! The variable of a `for`: how it is compared, tested and stepped.

ghost use Rattle.std.specs.Prelude.{◌≡◌, IfOk};
ghost use Rattle.flat_code.specs.Tree.{Code, Do};
ghost use Rattle.flat_code.specs.View.{view_expr, view_list, view_stmt};
ghost use Rattle.lower_places.specs.Reaches.{scratch_address};
ghost use Rattle.lower_places.specs.declared.sorts.Shape.TheVariants as shape;
ghost use Rattle.lower_stmt.specs.Counters.{form_of_host, less_of, less_code, less_word, is_open, long_tested, bounds_tested, last_code, last_word, long_stepped, stepped};

use crate::words::compute;
use flat_code::flat_builders::{op, then, when};
use flat_code::{Address, FlatExpr, FlatList, FlatOp, FlatStmt};
use lower_places::{Reach, Scene, Shape, further};
use lower_values::{
    Form, high_in, high_number, low_in, number, runtime, single, slot_place, word_in,
};
use runtime_units::numbers::RuntimeRoutine;
use std::alloc::AllocError;
use type_layout::{Host, TypeId};
use typed_tree::Variable;

/// Where the variable of a `for` lies, what stores it, and the bounds of its type.
#[derive(Clone, Copy)]
pub struct Counter {
    pub at: Address,
    pub host: Host,
    pub low: i32,
    pub high: i32,
}

impl Counter {
    /// That of a variable of the routine's own or of the unit, by its type.
    pub fn of(scene: &Scene, variable: Variable, ty: TypeId) -> Result<Counter, AllocError> {
        match (scene.reach_of(variable)?, scene.shape(ty)?) {
            (Reach::At(at), Shape::Number { host, low, high }) => Ok(Counter {
                at,
                host,
                low,
                high,
            }),
            _ => Err(AllocError),
        }
    }

    /// How its values lie in slots.
    pub fn form(self) -> Form
        ensures { result ≡ form_of_host self.host }
    {
        if self.host.width() <= 2 {
            Form::Word(self.host)
        } else {
            Form::Long
        }
    }

    /// How it is stored.
    pub fn shape(self) -> Shape
        ensures { result ≡ shape.Number self.host self.low self.high }
    {
        let Counter {
            host,
            low,
            high,
            ..
        } = self;
        Shape::Number { host, low, high }
    }
}

/// How words of a host are compared.
fn less_of(host: Host) -> FlatOp
    ensures { result ≡ less_of host }
{
    if host.least() < 0 {
        FlatOp::Less
    } else {
        FlatOp::Below
    }
}

/// Code behind which a word is not 0 where the number in one slot is less than that in another one, and that word.
pub fn less(
    scene: &Scene,
    form: Form,
    one: u32,
    other: u32,
) -> Result<(FlatList, FlatExpr), AllocError>
    ensures code { IfOk result (λ tested. view_list tested.0.items ≡ less_code scene.now.locals form one other (scratch_address scene.now.unit.now 0)) }
    ensures word { IfOk result (λ tested. view_expr tested.1 ≡ less_word scene.now.locals form one other (scratch_address scene.now.unit.now 0)) }
{
    let alloc = scene.alloc;
    match form {
        Form::Long => {
            let args = vec![in alloc;
                low_in(scene, one)?,
                high_in(scene, one)?,
                low_in(scene, other)?,
                high_in(scene, other)?,
            ]?;
            let scratch = scene.scratch(0)?;
            let code = single(alloc, compute(RuntimeRoutine::Less, args, scratch, 2))?;
            Ok((code, FlatExpr::Word(scratch)))
        }
        Form::Word(host) => {
            let (word, next) = (word_in(scene, one)?, word_in(scene, other)?);
            let test = op(alloc, less_of(host), word, next)?;
            Ok((Vec::new(alloc), test))
        }
        _ => Err(AllocError),
    }
}

/// Whether bounds leave out no value of a host.
fn is_open(host: Host, low: i32, high: i32) -> bool
    ensures { result ≡ is_open host low high }
{
    low <= host.least() && host.greatest() <= high
}

/// Error 201 where the LongInt in a slot lies outside of bounds.
fn long_tested(scene: &Scene, low: i32, high: i32, slot: u32) -> Result<FlatStmt, AllocError>
    ensures { IfOk result (λ stmt. (next : Code) → view_stmt stmt next ≡ Do (long_tested scene.now.locals low high slot) next) }
{
    let args = vec![in scene.alloc;
        low_in(scene, slot)?,
        high_in(scene, slot)?,
        number(low),
        high_number(low),
        number(high),
        high_number(high),
    ]?;
    Ok(runtime(RuntimeRoutine::Range, args))
}

/// Error 201 where the number in one slot lies below bounds, or that in another one, which isn't less, above them.
pub fn bounds_tested(
    scene: &Scene,
    counter: Counter,
    least: u32,
    greatest: u32,
) -> Result<FlatList, AllocError>
    ensures { IfOk result (λ list. view_list list.items ≡ bounds_tested scene.now.locals counter.host counter.low counter.high least greatest) }
{
    let alloc = scene.alloc;
    let Counter {
        host,
        low,
        high,
        ..
    } = counter;
    if is_open(host, low, high) {
        return Ok(Vec::new(alloc));
    }
    if host.width() == 4 {
        let first = single(alloc, long_tested(scene, low, high, least)?)?;
        let second = single(alloc, long_tested(scene, low, high, greatest)?)?;
        return then(first, second);
    }
    let under = op(alloc, less_of(host), word_in(scene, least)?, number(low))?;
    let over = op(
        alloc,
        less_of(host),
        number(high),
        word_in(scene, greatest)?,
    )?;
    let outside = op(alloc, FlatOp::Or, under, over)?;
    let error = single(alloc, FlatStmt::Error(201))?;
    single(alloc, when(outside, error, Vec::new(alloc)))
}

/// Code behind which a word is not 0 where the variable has the value in a slot, and that word.
pub fn is_last(
    scene: &Scene,
    counter: Counter,
    slot: u32,
) -> Result<(FlatList, FlatExpr), AllocError>
    ensures code { IfOk result (λ tested. view_list tested.0.items ≡ last_code scene.now.locals counter.host counter.at slot (scratch_address scene.now.unit.now 0)) }
    ensures word { IfOk result (λ tested. view_expr tested.1 ≡ last_word scene.now.locals counter.host counter.at slot (scratch_address scene.now.unit.now 0)) }
{
    let alloc = scene.alloc;
    let Counter { at, host, .. } = counter;
    if host.width() == 4 {
        let args = vec![in alloc;
            FlatExpr::Word(at),
            FlatExpr::Word(further(at, 2)?),
            low_in(scene, slot)?,
            high_in(scene, slot)?,
        ]?;
        let scratch = scene.scratch(0)?;
        let code = single(alloc, compute(RuntimeRoutine::Equal, args, scratch, 2))?;
        return Ok((code, FlatExpr::Word(scratch)));
    }
    let last = slot_place(scene, slot, 2)?;
    let (value, end) = if host.width() == 1 {
        (FlatExpr::Byte(at), FlatExpr::Byte(last))
    } else {
        (FlatExpr::Word(at), FlatExpr::Word(last))
    };
    let test = op(alloc, FlatOp::Equal, value, end)?;
    Ok((Vec::new(alloc), test))
}

/// The LongInt at a place goes one step on.
fn long_stepped(scene: &Scene, at: Address, down: bool) -> Result<FlatStmt, AllocError>
    ensures { IfOk result (λ stmt. (next : Code) → view_stmt stmt next ≡ Do (long_stepped at down) next) }
{
    let by = if down { -1 } else { 1 };
    let args = vec![in scene.alloc;
        FlatExpr::Word(at),
        FlatExpr::Word(further(at, 2)?),
        number(by),
        high_number(by),
    ]?;
    Ok(compute(RuntimeRoutine::Sum, args, at, 4))
}

/// The variable goes one step on.
pub fn stepped(scene: &Scene, counter: Counter, down: bool) -> Result<FlatStmt, AllocError>
    ensures { IfOk result (λ stmt. (next : Code) → view_stmt stmt next ≡ Do (stepped counter.host counter.at down) next) }
{
    let Counter { at: to, host, .. } = counter;
    let operator = if down { FlatOp::Sub } else { FlatOp::Add };
    if host.width() == 4 {
        long_stepped(scene, to, down)
    } else if host.width() == 1 {
        let value = op(scene.alloc, operator, FlatExpr::Byte(to), number(1))?;
        Ok(FlatStmt::StoreByte { to, value })
    } else {
        let value = op(scene.alloc, operator, FlatExpr::Word(to), number(1))?;
        Ok(FlatStmt::StoreWord { to, value })
    }
}
