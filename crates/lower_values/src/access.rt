//! Loads and stores, and pointers to places.

ghost use Rattle.std.specs.Prelude.{◌≡◌, IfOk, ◌∷◌, []};
ghost use Rattle.flat_code.specs.Tree.{Code, Do};
ghost use Rattle.flat_code.specs.View.{view_expr, view_exprs, view_stmt, view_list};
ghost use Rattle.lower_values.specs.Access.{segment_of, offset_of, place_words, moved, stored_word, loading, load_word, load_text, assigned, cleared, is_through, set_part, cleared_around, set_moved, load_set, point, load, store_word, store, pointer_words};

use crate::forms::{Form, high_in, low_in, slot_place, text_words, word_in};
use crate::nodes::{clear, pair, runtime, signed_byte, single, with_result};
use flat_code::flat_builders::{set, then};
use flat_code::{Address, FlatExpr, FlatExprs, FlatList, FlatStmt};
use lower_places::{Reach, Scene, Shape, further};
use runtime_units::numbers::RuntimeRoutine;
use std::alloc::{AllocError, Global};
use type_layout::Host;

/// The segment of a place.
pub fn segment_of(reach: Reach) -> Result<FlatExpr, AllocError>
    ensures { IfOk result (λ expr. view_expr expr ≡ segment_of reach) }
{
    match reach {
        Reach::At(at) => Ok(FlatExpr::SegmentOf(at)),
        Reach::Beyond(pointer) => Ok(FlatExpr::Word(further(pointer, 2)?)),
    }
}

/// The offset of a place.
pub fn offset_of(reach: Reach) -> FlatExpr
    ensures { view_expr result ≡ offset_of reach }
{
    match reach {
        Reach::At(at) => FlatExpr::AddressOf(at),
        Reach::Beyond(pointer) => FlatExpr::Word(pointer),
    }
}

/// The segment and the offset of a place, as arguments.
pub fn place_words(alloc: Global, reach: Reach) -> Result<FlatExprs, AllocError>
    ensures { IfOk result (λ exprs. view_exprs exprs.items ≡ place_words reach) }
{
    Ok(vec![in alloc; segment_of(reach)?, offset_of(reach)]?)
}

// Bytes that are moved from a place to another.
fn moved(alloc: Global, to: Reach, from: Reach, bytes: u16) -> Result<FlatList, AllocError>
    ensures { IfOk result (λ list. view_list list.items ≡ moved to from bytes) }
{
    if let (Reach::At(to), Reach::At(from)) = (to, from) {
        return single(alloc, FlatStmt::Copy { to, from, bytes });
    }
    let args = vec![in alloc;
        segment_of(to)?,
        offset_of(to),
        segment_of(from)?,
        offset_of(from),
        FlatExpr::Number(bytes),
    ]?;
    single(alloc, runtime(RuntimeRoutine::Move, args))
}

// The number of a host that lies at a place, as a word.
fn stored_word(alloc: Global, host: Host, at: Address) -> Result<FlatExpr, AllocError>
    ensures { IfOk result (λ expr. view_expr expr ≡ stored_word host at) }
{
    match host {
        Host::ShortInt => signed_byte(alloc, FlatExpr::Byte(at)),
        Host::Byte | Host::Char | Host::Boolean | Host::Enumeration => Ok(FlatExpr::Byte(at)),
        Host::Integer | Host::Word | Host::LongInt => Ok(FlatExpr::Word(at)),
    }
}

// The routine that loads a number of a host.
fn loading(host: Host) -> RuntimeRoutine
    ensures { result ≡ loading host }
{
    match host {
        Host::ShortInt => RuntimeRoutine::LoadShort,
        Host::Byte | Host::Char | Host::Boolean | Host::Enumeration => RuntimeRoutine::LoadByte,
        Host::Integer | Host::Word | Host::LongInt => RuntimeRoutine::LoadWord,
    }
}

/// The number of a host of at most 2 bytes at a place goes to a slot.
pub fn load_word(scene: &Scene, from: Reach, host: Host, slot: u32) -> Result<FlatList, AllocError>
    ensures { IfOk result (λ list. view_list list.items ≡ load_word scene.now.locals from host slot) }
{
    let alloc = scene.alloc;
    let to = scene.slot_at(slot, 2)?;
    match from {
        Reach::At(at) => single(alloc, set(to, stored_word(alloc, host, at)?)),
        Reach::Beyond(_) => {
            let args = place_words(alloc, from)?;
            single(alloc, with_result(loading(host), args, to, 2))
        }
    }
}

// The string at a place goes to a slot.
fn load_text(scene: &Scene, from: Reach, slot: u32) -> Result<FlatList, AllocError>
    ensures { IfOk result (λ list. view_list list.items ≡ load_text scene.now.locals from slot) }
{
    let to = Reach::At(slot_place(scene, slot, 256)?);
    single(
        scene.alloc,
        assigned(scene.alloc, to, 255, segment_of(from)?, offset_of(from))?,
    )
}

fn assigned(
    alloc: Global,
    to: Reach,
    max: u8,
    segment: FlatExpr,
    offset: FlatExpr,
) -> Result<FlatStmt, AllocError>
    ensures { IfOk result (λ stmt. (next : Code) → view_stmt stmt next ≡ Do (assigned to max (view_expr segment) (view_expr offset)) next) }
{
    let args = vec![in alloc;
        segment_of(to)?,
        offset_of(to),
        FlatExpr::Number(u16::from(max)),
        segment,
        offset,
    ]?;
    Ok(runtime(RuntimeRoutine::Assign, args))
}

// Bytes so far from BP become zeros, if there are any.
fn cleared(alloc: Global, at: i32, count: u16) -> Result<FlatList, AllocError>
    ensures { IfOk result (λ list. view_list list.items ≡ cleared at count) }
{
    if count == 0 {
        return Ok(Vec::new(alloc));
    }
    single(alloc, clear(alloc, at, count)?)
}

// Whether a place is reached through the slot of 4 bytes there.
fn is_through(from: Reach, slot: i32) -> bool
    ensures { result ≡ is_through from slot }
{
    match from {
        Reach::At(Address::Through { slot: pointer, .. }) => pointer == slot,
        _ => false,
    }
}

// So far from BP lies the byte with a number of the set in a slot.
fn set_part(scene: &Scene, first: u16, slot: u32) -> Result<i32, AllocError>
    ensures { IfOk result (λ at. at ≡ set_part scene.now.locals first slot) }
{
    let at = scene.slot_at(slot, 32)?;
    at.checked_add(i32::from(first)).ok_or(AllocError)
}

// The bytes round some of the set in a slot become zeros.
fn cleared_around(scene: &Scene, first: u16, bytes: u16, slot: u32) -> Result<FlatList, AllocError>
    ensures { IfOk result (λ list. view_list list.items ≡ cleared_around scene.now.locals first bytes slot) }
{
    let alloc = scene.alloc;
    let part = set_part(scene, first, slot)?;
    let behind = part.checked_add(i32::from(bytes)).ok_or(AllocError)?;
    let rest = 32u16.saturating_sub(first).saturating_sub(bytes);
    let before = cleared(alloc, scene.slot_at(slot, 32)?, first)?;
    then(before, cleared(alloc, behind, rest)?)
}

// So many bytes of a set go from a place to that with a number of the set in a slot.
fn set_moved(
    scene: &Scene,
    from: Reach,
    first: u16,
    bytes: u16,
    slot: u32,
) -> Result<FlatList, AllocError>
    ensures { IfOk result (λ list. view_list list.items ≡ set_moved scene.now.locals from first bytes slot) }
{
    let to = Address::Local(set_part(scene, first, slot)?);
    moved(scene.alloc, Reach::At(to), from, bytes)
}

// So many bytes of a set lie at a place, from the one with a number on; all 32 go to a slot.
fn load_set(
    scene: &Scene,
    from: Reach,
    first: u16,
    bytes: u16,
    slot: u32,
) -> Result<FlatList, AllocError>
    ensures { IfOk result (λ list. view_list list.items ≡ load_set scene.now.locals from first bytes slot) }
{
    let copied = set_moved(scene, from, first, bytes, slot)?;
    if is_through(from, scene.slot_at(slot, 4)?) {
        then(copied, cleared_around(scene, first, bytes, slot)?)
    } else {
        let empty = cleared(scene.alloc, scene.slot_at(slot, 32)?, 32)?;
        then(empty, copied)
    }
}

/// A far pointer to a place goes to a slot of 4 bytes.
pub fn point(scene: &Scene, to: Reach, slot: u32) -> Result<FlatList, AllocError>
    ensures { IfOk result (λ list. view_list list.items ≡ point scene.now.locals to slot) }
{
    let alloc = scene.alloc;
    let low = scene.slot_at(slot, 4)?;
    let high = scene.slot_at(slot, 2)?;
    match to {
        Reach::At(
            Address::Through {
                slot: pointer,
                plus: 0,
            },
        ) if pointer == low => Ok(Vec::new(alloc)),
        Reach::At(at) => pair(
            alloc,
            set(low, FlatExpr::AddressOf(at)),
            set(high, FlatExpr::SegmentOf(at)),
        ),
        Reach::Beyond(from) => single(
            alloc,
            FlatStmt::Copy {
                to: Address::Local(low),
                from,
                bytes: 4,
            },
        ),
    }
}

/// The value at a place goes to a slot; of a structured value a far pointer to it.
pub fn load(scene: &Scene, from: Reach, shape: Shape, slot: u32) -> Result<FlatList, AllocError>
    ensures { IfOk result (λ list. view_list list.items ≡ load scene.now.locals from shape slot) }
{
    match shape {
        Shape::Number { host, .. } if host.width() <= 2 => load_word(scene, from, host, slot),
        Shape::Number { .. } | Shape::Far => {
            moved(scene.alloc, Reach::At(slot_place(scene, slot, 4)?), from, 4)
        }
        Shape::Text { .. } => load_text(scene, from, slot),
        Shape::Set { first, bytes } => load_set(scene, from, first, bytes, slot),
        Shape::Whole { .. } => point(scene, from, slot),
    }
}

// The number in a slot of 2 bytes goes to a place of a host.
fn store_word(scene: &Scene, to: Reach, host: Host, slot: u32) -> Result<FlatList, AllocError>
    ensures { IfOk result (λ list. view_list list.items ≡ store_word scene.now.locals to host slot) }
{
    let alloc = scene.alloc;
    let one_byte = host.width() == 1;
    match to {
        Reach::At(to) => {
            let value = word_in(scene, slot)?;
            single(
                alloc,
                if one_byte {
                    FlatStmt::StoreByte { to, value }
                } else {
                    FlatStmt::StoreWord { to, value }
                },
            )
        }
        Reach::Beyond(_) => {
            let from = Reach::At(slot_place(scene, slot, 2)?);
            moved(alloc, to, from, if one_byte { 1 } else { 2 })
        }
    }
}

/// The value in a slot goes to a place that is no record, array or object. With `literal` the slot holds a far pointer to a
/// string, as that of a string constant does.
pub fn store(
    scene: &Scene,
    to: Reach,
    shape: Shape,
    slot: u32,
    literal: bool,
) -> Result<FlatList, AllocError>
    ensures { IfOk result (λ list. view_list list.items ≡ store scene.now.locals to shape slot literal) }
{
    let alloc = scene.alloc;
    match shape {
        Shape::Number { host, .. } if host.width() <= 2 => store_word(scene, to, host, slot),
        Shape::Number { .. } | Shape::Far => {
            moved(alloc, to, Reach::At(slot_place(scene, slot, 4)?), 4)
        }
        Shape::Text { max } => {
            let form = if literal { Form::Literal } else { Form::Text };
            let (segment, offset) = text_words(scene, form, slot)?;
            single(alloc, assigned(alloc, to, max, segment, offset)?)
        }
        Shape::Set { first, bytes } => {
            let set = slot_place(scene, slot, 32)?;
            moved(alloc, to, Reach::At(further(set, first)?), bytes)
        }
        Shape::Whole { .. } => Err(AllocError),
    }
}

/// The segment and the offset of the far pointer in a slot of 4 bytes, as arguments.
pub fn pointer_words(scene: &Scene, slot: u32) -> Result<FlatExprs, AllocError>
    ensures { IfOk result (λ exprs. view_exprs exprs.items ≡ pointer_words scene.now.locals slot) }
{
    Ok(vec![in scene.alloc; high_in(scene, slot)?, low_in(scene, slot)?]?)
}
