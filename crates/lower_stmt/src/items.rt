//! Write and Read.

ghost use Rattle.std.specs.Prelude.{◌≡◌, IfOk};
ghost use Rattle.type_layout.specs.Storage.{width_of};
ghost use Rattle.flat_code.specs.Tree.{Code, Do};
ghost use Rattle.flat_code.specs.View.{view_expr, view_list, view_stmt};
ghost use Rattle.lower_places.specs.Reaches.{scratch_address};
ghost use Rattle.lower_stmt.specs.Items.{number_written, word_written, text_written, written, line_end, kept_scratch, scratch_tested, number_read, char_read, text_read, ordinal_read, filled};

use crate::copies::found;
use crate::words::compute;
use flat_code::flat_builders::then;
use flat_code::{Address, FlatExpr, FlatExprs, FlatList, FlatStmt};
use lower_expr::lower_expr;
use lower_places::{Scene, Shape, Spot, literals_of_expr, literals_of_place};
use lower_values::{
    Form, form_of, high_number, long_words, low_word, number, pair, runtime, single, text_words,
    word_in,
};
use runtime_units::numbers::RuntimeRoutine;
use std::alloc::AllocError;
use type_layout::Host;
use typed_tree::{Expr, ReadItem, WriteItem};

/// Code that leaves the width of an item in a slot, and its word.
fn lower_width(
    scene: &Scene,
    width: &Option<Box<Expr>>,
    spot: Spot,
) -> Result<(FlatList, FlatExpr), AllocError> {
    match width {
        None => Ok((Vec::new(scene.alloc), FlatExpr::Number(0))),
        Some(width) => {
            let code = lower_expr(scene, width, spot)?;
            Ok((code, low_word(scene, form_of(scene, width)?, spot.slot)?))
        }
    }
}

/// Writes the number in a slot in a field of a width.
fn number_written(
    scene: &Scene,
    form: Form,
    width: FlatExpr,
    slot: u32,
) -> Result<FlatStmt, AllocError>
    ensures { IfOk result (λ stmt. (next : Code) → view_stmt stmt next ≡ Do (number_written scene.now.locals form (view_expr width) slot) next) }
{
    let (low, high) = long_words(scene, form, slot)?;
    let args = vec![in scene.alloc; low, high, width]?;
    Ok(runtime(RuntimeRoutine::WriteInteger, args))
}

/// Writes the word in a slot, a value of a host, in a field of a width.
fn word_written(
    scene: &Scene,
    host: Host,
    width: FlatExpr,
    slot: u32,
) -> Result<FlatStmt, AllocError>
    ensures { IfOk result (λ stmt. (next : Code) → view_stmt stmt next ≡ Do (word_written scene.now.locals host (view_expr width) slot) next) }
{
    match host {
        Host::Char => {
            let args = vec![in scene.alloc; word_in(scene, slot)?, width]?;
            Ok(runtime(RuntimeRoutine::WriteChar, args))
        }
        Host::Boolean => {
            let args = vec![in scene.alloc; word_in(scene, slot)?, width]?;
            Ok(runtime(RuntimeRoutine::WriteBoolean, args))
        }
        Host::ShortInt
        | Host::Byte
        | Host::Integer
        | Host::Word
        | Host::LongInt
        | Host::Enumeration => number_written(scene, Form::Word(host), width, slot),
    }
}

/// Writes the string in a slot in a field of a width.
fn text_written(
    scene: &Scene,
    form: Form,
    width: FlatExpr,
    slot: u32,
) -> Result<FlatStmt, AllocError>
    ensures { IfOk result (λ stmt. (next : Code) → view_stmt stmt next ≡ Do (text_written scene.now.locals form (view_expr width) slot) next) }
{
    let (segment, offset) = text_words(scene, form, slot)?;
    let args = vec![in scene.alloc; segment, offset, width]?;
    Ok(runtime(RuntimeRoutine::WriteString, args))
}

/// Writes what lies in a slot in a field of a width.
fn written(scene: &Scene, form: Form, width: FlatExpr, slot: u32) -> Result<FlatStmt, AllocError>
    ensures { IfOk result (λ stmt. (next : Code) → view_stmt stmt next ≡ Do (written scene.now.locals form (view_expr width) slot) next) }
{
    match form {
        Form::Word(host) => word_written(scene, host, width, slot),
        Form::Long => number_written(scene, form, width, slot),
        Form::Text | Form::Literal => text_written(scene, form, width, slot),
        Form::Set | Form::Far => Err(AllocError),
    }
}

fn lower_item(scene: &Scene, item: &WriteItem, spot: Spot) -> Result<FlatList, AllocError> {
    let form = form_of(scene, &item.value)?;
    let value = lower_expr(scene, &item.value, spot)?;
    let behind = spot
        .above(form.bytes())
        .after(literals_of_expr(&item.value));
    let (code, width) = lower_width(scene, &item.width, behind)?;
    let written = single(scene.alloc, written(scene, form, width, spot.slot)?)?;
    then(value, then(code, written)?)
}

fn literals_of_item(item: &WriteItem) -> u32 {
    let width = match &item.width {
        None => 0,
        Some(width) => literals_of_expr(width),
    };
    literals_of_expr(&item.value).saturating_add(width)
}

/// A routine of the runtime on the end of a line, where there is one.
fn line_end(scene: &Scene, routine: RuntimeRoutine, line: bool) -> Result<FlatList, AllocError>
    ensures { IfOk result (λ list. view_list list.items ≡ line_end routine line) }
{
    let alloc = scene.alloc;
    if line {
        single(alloc, runtime(routine, Vec::new(alloc)))
    } else {
        Ok(Vec::new(alloc))
    }
}

/// Write and WriteLn.
pub fn lower_write(
    scene: &Scene,
    items: &[WriteItem],
    line: bool,
    spot: Spot,
) -> Result<FlatList, AllocError> {
    let mut code = Vec::new(scene.alloc);
    let mut at = spot;
    for item in items {
        code = then(code, lower_item(scene, item, at)?)?;
        at = at.after(literals_of_item(item));
    }
    then(code, line_end(scene, RuntimeRoutine::WriteLine, line)?)
}

/// Error 201 where the LongInt in the scratch lies outside of bounds, if there are any.
fn scratch_tested(scene: &Scene, bounds: Option<(i32, i32)>) -> Result<FlatList, AllocError>
    ensures { IfOk result (λ list. view_list list.items ≡ scratch_tested (scratch_address scene.now.unit.now 0) (scratch_address scene.now.unit.now 2) bounds) }
{
    let Some((low, high)) = bounds else {
        return Ok(Vec::new(scene.alloc));
    };
    let args = vec![in scene.alloc;
        FlatExpr::Word(scene.scratch(0)?),
        FlatExpr::Word(scene.scratch(2)?),
        number(low),
        high_number(low),
        number(high),
        high_number(high),
    ]?;
    single(scene.alloc, runtime(RuntimeRoutine::Range, args))
}

/// The low bytes of what the scratch holds, to a place that has as many.
pub fn keep_scratch(scene: &Scene, width: u32, to: Address) -> Result<FlatStmt, AllocError>
    ensures { IfOk result (λ stmt. (next : Code) → view_stmt stmt next ≡ Do (kept_scratch width (scratch_address scene.now.unit.now 0) to) next) }
{
    let from = scene.scratch(0)?;
    if width == 1 {
        let value = FlatExpr::Byte(from);
        Ok(FlatStmt::StoreByte { to, value })
    } else if width == 2 {
        let value = FlatExpr::Word(from);
        Ok(FlatStmt::StoreWord { to, value })
    } else {
        Ok(FlatStmt::Copy { to, from, bytes: 4 })
    }
}

/// A number of the input, tested where it has to lie within bounds, to a place.
fn number_read(
    scene: &Scene,
    host: Host,
    bounds: Option<(i32, i32)>,
    to: Address,
) -> Result<FlatList, AllocError>
    ensures { IfOk result (λ list. view_list list.items ≡ number_read host bounds (scratch_address scene.now.unit.now 0) (scratch_address scene.now.unit.now 2) to) }
{
    let alloc = scene.alloc;
    let none = FlatExprs::new(alloc);
    let taken = compute(RuntimeRoutine::ReadNumber, none, scene.scratch(0)?, 4);
    let test = scratch_tested(scene, bounds)?;
    let stored = single(alloc, keep_scratch(scene, host.width(), to)?)?;
    then(single(alloc, taken)?, then(test, stored)?)
}

fn char_read(scene: &Scene, to: Address) -> Result<FlatList, AllocError>
    ensures { IfOk result (λ list. view_list list.items ≡ char_read (scratch_address scene.now.unit.now 0) to) }
{
    let none = FlatExprs::new(scene.alloc);
    pair(
        scene.alloc,
        compute(RuntimeRoutine::ReadChar, none, scene.scratch(0)?, 2),
        keep_scratch(scene, 1, to)?,
    )
}

fn text_read(scene: &Scene, max: u8, to: Address) -> Result<FlatList, AllocError>
    ensures { IfOk result (λ list. view_list list.items ≡ text_read max to) }
{
    let args = vec![in scene.alloc;
        FlatExpr::SegmentOf(to),
        FlatExpr::AddressOf(to),
        FlatExpr::Number(u16::from(max)),
    ]?;
    single(scene.alloc, runtime(RuntimeRoutine::ReadString, args))
}

/// Fills a place that is stored as a host.
fn ordinal_read(
    scene: &Scene,
    host: Host,
    bounds: Option<(i32, i32)>,
    to: Address,
) -> Result<FlatList, AllocError>
    ensures { IfOk result (λ list. view_list list.items ≡ ordinal_read host bounds (scratch_address scene.now.unit.now 0) (scratch_address scene.now.unit.now 2) to) }
{
    match host {
        Host::Char => char_read(scene, to),
        Host::ShortInt
        | Host::Byte
        | Host::Integer
        | Host::Word
        | Host::LongInt
        | Host::Boolean
        | Host::Enumeration => number_read(scene, host, bounds, to),
    }
}

/// Fills a place by its type.
fn filled(scene: &Scene, shape: Shape, checked: bool, to: Address) -> Result<FlatList, AllocError>
    ensures { IfOk result (λ list. view_list list.items ≡ filled shape checked (scratch_address scene.now.unit.now 0) (scratch_address scene.now.unit.now 2) to) }
{
    match shape {
        Shape::Number { host, low, high } => {
            let bounds = if checked { Some((low, high)) } else { None };
            ordinal_read(scene, host, bounds, to)
        }
        Shape::Text { max } => text_read(scene, max, to),
        Shape::Set { .. } | Shape::Far | Shape::Whole { .. } => Err(AllocError),
    }
}

fn lower_taken(scene: &Scene, item: &ReadItem, spot: Spot) -> Result<FlatList, AllocError> {
    let (code, to) = found(scene, &item.place, spot)?;
    let shape = scene.shape(item.ty)?;
    then(code, filled(scene, shape, item.checked, to)?)
}

/// Read and ReadLn.
pub fn lower_read(
    scene: &Scene,
    items: &[ReadItem],
    line: bool,
    spot: Spot,
) -> Result<FlatList, AllocError> {
    let mut code = Vec::new(scene.alloc);
    let mut at = spot;
    for item in items {
        code = then(code, lower_taken(scene, item, at)?)?;
        at = at.after(literals_of_place(&item.place));
    }
    then(code, line_end(scene, RuntimeRoutine::ReadLine, line)?)
}
