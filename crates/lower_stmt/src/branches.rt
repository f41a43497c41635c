//! `case`.

ghost use Rattle.std.specs.Prelude.{◌≡◌, IfOk};
ghost use Rattle.flat_code.specs.View.{view_expr, view_list};
ghost use Rattle.lower_places.specs.Reaches.{scratch_address};
ghost use Rattle.lower_values.specs.Nodes.{is_signed};
ghost use Rattle.lower_values.specs.Conversions.{least_word, greatest_word};
ghost use Rattle.lower_stmt.specs.Branches.{within, covers, covers_further, covers_any, between, between_further, between_any, tested_code, tested_word, branch};

use crate::words::compute;
use flat_code::flat_builders::{op, then, when};
use flat_code::{FlatExpr, FlatList, FlatOp};
use lower_places::{Scene, literals_of_stmt};
use lower_values::{Form, high_in, high_number, low_in, not, number, single, word_in};
use runtime_units::numbers::RuntimeRoutine;
use std::alloc::AllocError;
use type_layout::Host;
use typed_tree::{Arm, LabelRange};

/// Not 0 where the word in a slot lies from one word of its host to another: how far it lies above the first one, on the circle of
/// words, is less than how many they are.
fn within(scene: &Scene, low: i32, high: i32, slot: u32) -> Result<FlatExpr, AllocError>
    ensures { IfOk result (λ test. view_expr test ≡ within scene.now.locals low high slot) }
{
    let alloc = scene.alloc;
    let word = word_in(scene, slot)?;
    if low == high {
        return op(alloc, FlatOp::Equal, word, number(low));
    }
    let count = high.checked_sub(low).ok_or(AllocError)?;
    let above = op(alloc, FlatOp::Sub, word, number(low))?;
    not(alloc, op(alloc, FlatOp::Below, number(count), above)?)
}

/// The least and the greatest number that a word of a host stands for.
fn words_of(host: Host) -> (i32, i32)
    ensures { result ≡ (least_word (is_signed host), greatest_word (is_signed host)) }
{
    if host.least() < 0 {
        (-32_768, 32_767)
    } else {
        (0, 65_535)
    }
}

/// Not 0 where the word in a slot is covered by a label.
fn covers(scene: &Scene, host: Host, label: LabelRange, slot: u32) -> Result<FlatExpr, AllocError>
    ensures { IfOk result (λ test. view_expr test ≡ covers scene.now.locals host label slot) }
{
    let (least, greatest) = words_of(host);
    if label.high < label.low || greatest < label.low || label.high < least {
        return Ok(FlatExpr::Number(0));
    }
    let (low, high) = (label.low.max(least), label.high.min(greatest));
    within(scene, low, high, slot)
}

/// Not 0 where a word is not, or where the word in a slot is covered by one of some labels.
fn covers_further(
    scene: &Scene,
    host: Host,
    test: FlatExpr,
    labels: &[LabelRange],
    slot: u32,
) -> Result<FlatExpr, AllocError>
    ensures { IfOk result (λ made. view_expr made ≡ covers_further scene.now.locals host (view_expr test) labels.now slot) }
{
    match labels {
        [] => Ok(test),
        [label, rest @ ..] => {
            let next = covers(scene, host, *label, slot)?;
            let test = op(scene.alloc, FlatOp::Or, test, next)?;
            covers_further(scene, host, test, rest, slot)
        }
    }
}

/// Not 0 where the word in a slot is covered by one of some labels.
fn covers_any(
    scene: &Scene,
    host: Host,
    labels: &[LabelRange],
    slot: u32,
) -> Result<FlatExpr, AllocError>
    ensures { IfOk result (λ test. view_expr test ≡ covers_any scene.now.locals host labels.now slot) }
{
    match labels {
        [] => Ok(FlatExpr::Number(0)),
        [label, rest @ ..] => {
            let test = covers(scene, host, *label, slot)?;
            covers_further(scene, host, test, rest, slot)
        }
    }
}

/// Leaves a word in the scratch that is not 0 where the LongInt in a slot is covered by a label.
fn between(scene: &Scene, label: LabelRange, slot: u32) -> Result<FlatList, AllocError>
    ensures { IfOk result (λ list. view_list list.items ≡ between scene.now.locals label slot (scratch_address scene.now.unit.now 0)) }
{
    let args = vec![in scene.alloc;
        low_in(scene, slot)?,
        high_in(scene, slot)?,
        number(label.low),
        high_number(label.low),
        number(label.high),
        high_number(label.high),
    ]?;
    let scratch = scene.scratch(0)?;
    single(
        scene.alloc,
        compute(RuntimeRoutine::Between, args, scratch, 2),
    )
}

/// Tries further labels where the word in the scratch is 0.
fn between_further(scene: &Scene, labels: &[LabelRange], slot: u32) -> Result<FlatList, AllocError>
    ensures { IfOk result (λ list. view_list list.items ≡ between_further scene.now.locals labels.now slot (scratch_address scene.now.unit.now 0)) }
{
    let alloc = scene.alloc;
    match labels {
        [] => Ok(Vec::new(alloc)),
        [label, rest @ ..] => {
            let found = FlatExpr::Word(scene.scratch(0)?);
            let next = between(scene, *label, slot)?;
            let tried = single(alloc, when(found, Vec::new(alloc), next))?;
            then(tried, between_further(scene, rest, slot)?)
        }
    }
}

/// Leaves a word in the scratch that is not 0 where the LongInt in a slot is covered by one of some labels.
fn between_any(scene: &Scene, labels: &[LabelRange], slot: u32) -> Result<FlatList, AllocError>
    ensures { IfOk result (λ list. view_list list.items ≡ between_any scene.now.locals labels.now slot (scratch_address scene.now.unit.now 0)) }
{
    match labels {
        [] => Ok(Vec::new(scene.alloc)),
        [label, rest @ ..] => {
            let first = between(scene, *label, slot)?;
            then(first, between_further(scene, rest, slot)?)
        }
    }
}

/// Code behind which a word is not 0 where the number in a slot is covered by one of some labels, and that word.
fn tested(
    scene: &Scene,
    form: Form,
    labels: &[LabelRange],
    slot: u32,
) -> Result<(FlatList, FlatExpr), AllocError>
    ensures code { IfOk result (λ tested. view_list tested.0.items ≡ tested_code scene.now.locals form labels.now slot (scratch_address scene.now.unit.now 0)) }
    ensures word { IfOk result (λ tested. view_expr tested.1 ≡ tested_word scene.now.locals form labels.now slot (scratch_address scene.now.unit.now 0)) }
{
    match form {
        Form::Word(host) => {
            let test = covers_any(scene, host, labels, slot)?;
            Ok((Vec::new(scene.alloc), test))
        }
        Form::Long => {
            let code = between_any(scene, labels, slot)?;
            let found = if labels.is_empty() {
                FlatExpr::Number(0)
            } else {
                FlatExpr::Word(scene.scratch(0)?)
            };
            Ok((code, found))
        }
        _ => Err(AllocError),
    }
}

/// A branch by its labels for the number in a slot, and what comes where none covers it.
fn branch(
    scene: &Scene,
    form: Form,
    slot: u32,
    labels: &[LabelRange],
    taken: FlatList,
    other: FlatList,
) -> Result<FlatList, AllocError>
    ensures { IfOk result (λ list. view_list list.items ≡ branch scene.now.locals form labels.now slot (scratch_address scene.now.unit.now 0) (view_list taken.items) (view_list other.items)) }
{
    let (code, test) = tested(scene, form, labels, slot)?;
    then(code, single(scene.alloc, when(test, taken, other))?)
}

/// Branches by their labels for the number in a slot, with the code of each, and what comes where none covers it.
pub fn branched(
    scene: &Scene,
    form: Form,
    slot: u32,
    arms: &[Arm],
    mut bodies: Vec<FlatList>,
    other: FlatList,
) -> Result<FlatList, AllocError> {
    match arms {
        [] => Ok(other),
        [rest @ .., arm] => {
            let taken = bodies.pop().ok_or(AllocError)?;
            let code = branch(scene, form, slot, arm.labels.as_slice(), taken, other)?;
            branched(scene, form, slot, rest, bodies, code)
        }
    }
}

/// The literals of all branches.
pub fn literals_of_arms(arms: &[Arm]) -> u32 {
    let mut sum = 0u32;
    for arm in arms {
        sum = sum.saturating_add(literals_of_stmt(&arm.body));
    }
    sum
}
