//! Standard functions of one value, behind it.

ghost use Rattle.std.specs.Prelude.{◌≡◌, IfOk};
ghost use Rattle.typed_tree.specs.Expressions.{view_expr as view_tree};
ghost use Rattle.flat_code.specs.View.{view_expr, view_list};
ghost use Rattle.lower_values.specs.Forms.{low_word};
ghost use Rattle.lower_values.specs.ValueFunctions.{of_number, of_word, absolute_word, absolute_long, with_one, of_long, word_of, given_word, of_low_word, asked, upper, of_value};

use crate::conversions::fitted;
use crate::forms::{Form, form_of, high_in, low_in, low_word, two_longs, word_in};
use crate::long_operators::{long_negation, long_result};
use crate::nodes::{kept, pair, single, with_result};
use crate::text_functions::length_of;
use flat_code::flat_builders::{op, set, then, when};
use flat_code::{FlatExpr, FlatList, FlatOp};
use lower_places::Scene;
use runtime_units::numbers::RuntimeRoutine;
use std::alloc::AllocError;
use type_layout::Host;
use typed_tree::Expr;
use typed_tree::standard::{ABS, CHR, HI, LENGTH, LO, ODD, ORD, PRED, SQR, SUCC, SWAP, UP_CASE};

// ---- functions of a number

// What a function of an ordinal in a slot gives, once that has the width of the result.
fn of_number(scene: &Scene, number: u32, stored: Form, slot: u32) -> Result<FlatList, AllocError>
    ensures { IfOk result (λ list. view_list list.items ≡ of_number scene.now.locals number stored slot) }
{
    match (stored, number) {
        (_, ORD) => Ok(Vec::new(scene.alloc)),
        (Form::Word(host), _) => of_word(scene, number, host, slot),
        (Form::Long, _) => of_long(scene, number, slot),
        _ => Err(AllocError),
    }
}

fn of_word(scene: &Scene, number: u32, host: Host, slot: u32) -> Result<FlatList, AllocError>
    ensures { IfOk result (λ list. view_list list.items ≡ of_word scene.now.locals number host slot) }
{
    let alloc = scene.alloc;
    let at = scene.slot_at(slot, 2)?;
    let one = word_in(scene, slot)?;
    let value = match number {
        ABS => return absolute_word(scene, host, slot),
        SQR => op(alloc, FlatOp::Mul, one, word_in(scene, slot)?)?,
        SUCC => op(alloc, FlatOp::Add, one, FlatExpr::Number(1))?,
        PRED => op(alloc, FlatOp::Sub, one, FlatExpr::Number(1))?,
        _ => return Err(AllocError),
    };
    single(alloc, set(at, kept(alloc, host, value)?))
}

fn absolute_word(scene: &Scene, host: Host, slot: u32) -> Result<FlatList, AllocError>
    ensures { IfOk result (λ list. view_list list.items ≡ absolute_word scene.now.locals host slot) }
{
    let alloc = scene.alloc;
    if host.least() == 0 {
        return Ok(Vec::new(alloc));
    }
    let negative = op(
        alloc,
        FlatOp::Less,
        word_in(scene, slot)?,
        FlatExpr::Number(0),
    )?;
    let value = op(
        alloc,
        FlatOp::Sub,
        FlatExpr::Number(0),
        word_in(scene, slot)?,
    )?;
    let turned = set(scene.slot_at(slot, 2)?, kept(alloc, host, value)?);
    single(
        alloc,
        when(negative, single(alloc, turned)?, Vec::new(alloc)),
    )
}

fn absolute_long(scene: &Scene, slot: u32) -> Result<FlatList, AllocError>
    ensures { IfOk result (λ list. view_list list.items ≡ absolute_long scene.now.locals slot) }
{
    let alloc = scene.alloc;
    let negative = op(
        alloc,
        FlatOp::Less,
        high_in(scene, slot)?,
        FlatExpr::Number(0),
    )?;
    single(
        alloc,
        when(negative, long_negation(scene, slot)?, Vec::new(alloc)),
    )
}

// A routine of the runtime on the LongInt in a slot and 1.
fn with_one(scene: &Scene, routine: RuntimeRoutine, slot: u32) -> Result<FlatList, AllocError>
    ensures { IfOk result (λ list. view_list list.items ≡ with_one scene.now.locals routine slot) }
{
    let args = vec![in scene.alloc;
        low_in(scene, slot)?,
        high_in(scene, slot)?,
        FlatExpr::Number(1),
        FlatExpr::Number(0),
    ]?;
    long_result(scene, routine, args, slot)
}

fn of_long(scene: &Scene, number: u32, slot: u32) -> Result<FlatList, AllocError>
    ensures { IfOk result (λ list. view_list list.items ≡ of_long scene.now.locals number slot) }
{
    match number {
        ABS => absolute_long(scene, slot),
        SQR => {
            let args = two_longs(scene, slot, slot)?;
            long_result(scene, RuntimeRoutine::Product, args, slot)
        }
        SUCC => with_one(scene, RuntimeRoutine::Sum, slot),
        PRED => with_one(scene, RuntimeRoutine::Difference, slot),
        _ => Err(AllocError),
    }
}

// ---- functions of the low word of a number

fn word_of(scene: &Scene, number: u32, form: Form, slot: u32) -> Result<FlatExpr, AllocError>
    ensures { IfOk result (λ expr. view_expr expr ≡ word_of number (low_word scene.now.locals form slot)) }
{
    let alloc = scene.alloc;
    let low = low_word(scene, form, slot)?;
    match number {
        ODD => op(alloc, FlatOp::And, low, FlatExpr::Number(1)),
        CHR | LO => op(alloc, FlatOp::And, low, FlatExpr::Number(255)),
        HI => op(alloc, FlatOp::Shr, low, FlatExpr::Number(8)),
        SWAP => {
            let upper = op(alloc, FlatOp::Shl, low, FlatExpr::Number(8))?;
            let again = low_word(scene, form, slot)?;
            let lower = op(alloc, FlatOp::Shr, again, FlatExpr::Number(8))?;
            op(alloc, FlatOp::Or, upper, lower)
        }
        _ => Err(AllocError),
    }
}

/// A word that is no negative number goes to a slot.
pub fn given_word(
    scene: &Scene,
    value: FlatExpr,
    stored: Form,
    slot: u32,
) -> Result<FlatList, AllocError>
    ensures { IfOk result (λ list. view_list list.items ≡ given_word scene.now.locals (view_expr value) stored slot) }
{
    let alloc = scene.alloc;
    let high = scene.slot_at(slot, 2)?;
    match stored {
        Form::Word(host) => single(alloc, set(high, kept(alloc, host, value)?)),
        Form::Long => pair(
            alloc,
            set(scene.slot_at(slot, 4)?, value),
            set(high, FlatExpr::Number(0)),
        ),
        _ => Err(AllocError),
    }
}

fn of_low_word(
    scene: &Scene,
    number: u32,
    form: Form,
    stored: Form,
    slot: u32,
) -> Result<FlatList, AllocError>
    ensures { IfOk result (λ list. view_list list.items ≡ of_low_word scene.now.locals number form stored slot) }
{
    let value = word_of(scene, number, form, slot)?;
    given_word(scene, value, stored, slot)
}

// ---- the others

/// A routine of the runtime without arguments gives a word to a slot.
pub fn asked(scene: &Scene, routine: RuntimeRoutine, slot: u32) -> Result<FlatList, AllocError>
    ensures { IfOk result (λ list. view_list list.items ≡ asked scene.now.locals routine slot) }
{
    let at = scene.slot_at(slot, 2)?;
    single(
        scene.alloc,
        with_result(routine, Vec::new(scene.alloc), at, 2),
    )
}

fn upper(scene: &Scene, slot: u32) -> Result<FlatList, AllocError>
    ensures { IfOk result (λ list. view_list list.items ≡ upper scene.now.locals slot) }
{
    let args = vec![in scene.alloc; word_in(scene, slot)?]?;
    let at = scene.slot_at(slot, 2)?;
    single(
        scene.alloc,
        with_result(RuntimeRoutine::UpCase, args, at, 2),
    )
}

/// What a standard function, by its number, gives of one ordinal or string; it comes to the slot of that.
pub fn of_value(
    scene: &Scene,
    number: u32,
    value: &Expr,
    stored: Form,
    slot: u32,
) -> Result<FlatList, AllocError>
    ensures { IfOk result (λ list. view_list list.items ≡ of_value scene.now.locals scene.now.unit.now.types.types number (view_tree value.now) stored slot) }
{
    let form = form_of(scene, value)?;
    match number {
        UP_CASE => upper(scene, slot),
        LENGTH => length_of(scene, form, slot),
        ODD | CHR | HI | LO | SWAP => of_low_word(scene, number, form, stored, slot),
        _ => then(
            fitted(scene, form, stored, slot)?,
            of_number(scene, number, stored, slot)?,
        ),
    }
}
