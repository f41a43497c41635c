//! Ordinals that are converted, and tests of their bounds.

ghost use Rattle.std.specs.Prelude.{◌≡◌, IfOk};
ghost use Rattle.flat_code.specs.View.{view_list};
ghost use Rattle.lower_values.specs.Nodes.{is_signed};
ghost use Rattle.lower_values.specs.Conversions.{widened, spelled, converted, fitted, error, tested_word, least_word, greatest_word, less_word, ranged_word, ranged_long, ranged};

use crate::forms::{Form, high_in, low_in, word_in};
use crate::nodes::{extension, high_number, kept, number, single, with_result};
use flat_code::flat_builders::{op, set, when};
use flat_code::{Address, FlatExpr, FlatList, FlatOp, FlatStmt};
use lower_places::Scene;
use runtime_units::numbers::RuntimeRoutine;
use std::alloc::{AllocError, Global};
use type_layout::Host;

// A word becomes a LongInt.
fn widened(scene: &Scene, host: Host, slot: u32) -> Result<FlatList, AllocError>
    ensures { IfOk result (λ list. view_list list.items ≡ widened scene.now.locals host slot) }
{
    let alloc = scene.alloc;
    let low = scene.slot_at(slot, 4)?;
    let high = scene.slot_at(slot, 2)?;
    let above = extension(alloc, host, word_in(scene, slot)?)?;
    Ok(vec![in alloc; set(low, word_in(scene, slot)?), set(high, above)]?)
}

// A character becomes a string.
fn spelled(scene: &Scene, slot: u32) -> Result<FlatList, AllocError>
    ensures { IfOk result (λ list. view_list list.items ≡ spelled scene.now.locals slot) }
{
    let at = scene.slot_at(slot, 256)?;
    let first = at.checked_add(1).ok_or(AllocError)?;
    let length = FlatStmt::StoreByte {
        to: Address::Local(at),
        value: FlatExpr::Number(1),
    };
    let byte = FlatStmt::StoreByte {
        to: Address::Local(first),
        value: word_in(scene, slot)?,
    };
    Ok(vec![in scene.alloc; length, byte]?)
}

/// The ordinal in a slot is kept by the low bytes of what stores another type, or a Char becomes a string.
pub fn converted(scene: &Scene, from: Form, to: Form, slot: u32) -> Result<FlatList, AllocError>
    ensures { IfOk result (λ list. view_list list.items ≡ converted scene.now.locals from to slot) }
{
    let alloc = scene.alloc;
    match (from, to) {
        (Form::Word(_), Form::Word(host)) => {
            if host.width() == 2 {
                return Ok(Vec::new(alloc));
            }
            let value = kept(alloc, host, word_in(scene, slot)?)?;
            single(alloc, set(scene.slot_at(slot, 2)?, value))
        }
        (Form::Word(host), Form::Long) => widened(scene, host, slot),
        (Form::Long, Form::Word(host)) => {
            let value = kept(alloc, host, low_in(scene, slot)?)?;
            single(alloc, set(scene.slot_at(slot, 2)?, value))
        }
        (Form::Long, Form::Long) => Ok(Vec::new(alloc)),
        (Form::Word(_), Form::Text) => spelled(scene, slot),
        _ => Err(AllocError),
    }
}

/// The ordinal in a slot goes on in a slot of another width, where one is wanted.
pub fn fitted(scene: &Scene, from: Form, to: Form, slot: u32) -> Result<FlatList, AllocError>
    ensures { IfOk result (λ list. view_list list.items ≡ fitted scene.now.locals from to slot) }
{
    match (from, to) {
        (Form::Word(_), Form::Word(_)) | (Form::Long, Form::Long) => Ok(Vec::new(scene.alloc)),
        _ => converted(scene, from, to, slot),
    }
}

fn error(alloc: Global, code: u16) -> Result<FlatList, AllocError>
    ensures { IfOk result (λ list. view_list list.items ≡ error code) }
{
    single(alloc, FlatStmt::Error(code))
}

// Error 201 unless a word, by its sign, lies within bounds that are words of it.
fn tested_word(
    scene: &Scene,
    less: FlatOp,
    low: i32,
    high: i32,
    slot: u32,
) -> Result<FlatList, AllocError>
    ensures { IfOk result (λ list. view_list list.items ≡ tested_word scene.now.locals less low high slot) }
{
    let alloc = scene.alloc;
    let below = op(alloc, less, word_in(scene, slot)?, number(low))?;
    let above = op(alloc, less, number(high), word_in(scene, slot)?)?;
    let outside = op(alloc, FlatOp::Or, below, above)?;
    single(alloc, when(outside, error(alloc, 201)?, Vec::new(alloc)))
}

// The least and the greatest number that a word of a host stands for, and how two such words are compared.
fn words_of(host: Host) -> (i32, i32, FlatOp)
    ensures { result ≡ (least_word (is_signed host), greatest_word (is_signed host), less_word (is_signed host)) }
{
    if host.least() < 0 {
        (-32_768, 32_767, FlatOp::Less)
    } else {
        (0, 65_535, FlatOp::Below)
    }
}

fn ranged_word(
    scene: &Scene,
    host: Host,
    low: i32,
    high: i32,
    slot: u32,
) -> Result<FlatList, AllocError>
    ensures { IfOk result (λ list. view_list list.items ≡ ranged_word scene.now.locals host low high slot) }
{
    let (least, greatest, less) = words_of(host);
    if low > greatest || high < least {
        return error(scene.alloc, 201);
    }
    tested_word(scene, less, low.max(least), high.min(greatest), slot)
}

fn ranged_long(scene: &Scene, low: i32, high: i32, slot: u32) -> Result<FlatList, AllocError>
    ensures { IfOk result (λ list. view_list list.items ≡ ranged_long scene.now.locals low high slot) }
{
    let args = vec![in scene.alloc;
        low_in(scene, slot)?,
        high_in(scene, slot)?,
        number(low),
        high_number(low),
        number(high),
        high_number(high),
    ]?;
    let at = scene.slot_at(slot, 4)?;
    single(scene.alloc, with_result(RuntimeRoutine::Range, args, at, 4))
}

/// Error 201 unless the ordinal in a slot lies within bounds.
pub fn ranged(
    scene: &Scene,
    form: Form,
    low: i32,
    high: i32,
    slot: u32,
) -> Result<FlatList, AllocError>
    ensures { IfOk result (λ list. view_list list.items ≡ ranged scene.now.locals form low high slot) }
{
    match form {
        Form::Word(host) => ranged_word(scene, host, low, high, slot),
        Form::Long => ranged_long(scene, low, high, slot),
        _ => Err(AllocError),
    }
}
