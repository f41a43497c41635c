//! What a routine does before its body.

ghost use Rattle.std.specs.Prelude.{◌≡◌, IfOk};
ghost use Rattle.flat_code.specs.View.{view_list};
ghost use Rattle.lower_stmt.specs.Prologues.{text_copied, whole_copied, zeros};

use crate::copies::copied;
use flat_code::flat_builders::{then, when};
use flat_code::{Address, FlatExpr, FlatList, FlatStmt};
use lower_places::{
    Home, Scene, Shape, class_word_at, copy_at, further, home_of, instance_at, is_copied,
    parameter_at,
};
use lower_values::{number, pair, runtime, single};
use runtime_units::numbers::RuntimeRoutine;
use std::alloc::{AllocError, Global};
use type_layout::{Kind, Param, TypeId};

/// Copies a string, which is cut to the size of the copy.
fn text_copied(alloc: Global, max: u8, to: Address, from: Address) -> Result<FlatList, AllocError>
    ensures { IfOk result (λ list. view_list list.items ≡ text_copied max to from) }
{
    let args = vec![in alloc;
        FlatExpr::SegmentOf(to),
        FlatExpr::AddressOf(to),
        FlatExpr::Number(u16::from(max)),
        FlatExpr::SegmentOf(from),
        FlatExpr::AddressOf(from),
    ]?;
    single(alloc, runtime(RuntimeRoutine::Assign, args))
}

/// Copies a structured value. The copy of an instance has no class.
fn whole_copied(
    alloc: Global,
    size: u16,
    class: Option<u16>,
    to: Address,
    from: Address,
) -> Result<FlatList, AllocError>
    ensures { IfOk result (λ list. view_list list.items ≡ whole_copied size class to from) }
{
    let copies = copied(alloc, to, from, size, None)?;
    let Some(class) = class else {
        return Ok(copies);
    };
    let cleared = FlatStmt::StoreWord {
        to: further(to, class)?,
        value: number(0),
    };
    then(copies, single(alloc, cleared)?)
}

/// Copies what the pointer in a parameter leads to.
fn argument_copied(scene: &Scene, place: usize, param: &Param) -> Result<FlatList, AllocError> {
    let alloc = scene.alloc;
    let types = &scene.unit.types;
    let to = Address::Local(copy_at(types, scene.routine, place)?);
    let slot = parameter_at(types, scene.routine, place)?;
    let from = Address::Through { slot, plus: 0 };
    match scene.shape(param.ty)? {
        Shape::Number { .. } | Shape::Far => Err(AllocError),
        Shape::Text { max } => text_copied(alloc, max, to, from),
        Shape::Set { first, bytes } => {
            let from = further(from, first)?;
            single(alloc, FlatStmt::Copy { to, from, bytes })
        }
        Shape::Whole { size, class } => whole_copied(alloc, size, class, to, from),
    }
}

fn arguments_copied(scene: &Scene) -> Result<FlatList, AllocError> {
    let mut code = Vec::new(scene.alloc);
    let params = scene.routine.header.params.as_slice();
    for (place, param) in params.iter().enumerate() {
        if is_copied(&scene.unit.types, param) {
            code = then(code, argument_copied(scene, place, param)?)?;
        }
    }
    Ok(code)
}

/// Makes bytes zeros: the first one, and then each from the one before.
fn zeros(alloc: Global, to: Address, bytes: u16) -> Result<FlatList, AllocError>
    ensures { IfOk result (λ list. view_list list.items ≡ zeros to bytes) }
{
    let first = FlatStmt::StoreByte {
        to,
        value: number(0),
    };
    if bytes < 2 {
        return single(alloc, first);
    }
    let others = FlatStmt::Copy {
        to: further(to, 1)?,
        from: to,
        bytes: bytes - 1,
    };
    pair(alloc, first, others)
}

/// A variable that has an instance in it begins as zeros, so that this has no class.
fn variable_begun(scene: &Scene, place: u32, ty: TypeId) -> Result<FlatList, AllocError> {
    let sort = scene.sort(ty);
    if !sort.holds_class() {
        return Ok(Vec::new(scene.alloc));
    }
    let bytes = (sort.size() % 0x1_0000) as u16;
    match home_of(&scene.unit.types, scene.routine, place)? {
        Home::In(at) => zeros(scene.alloc, Address::Local(at), bytes),
        Home::Behind(_) => Err(AllocError),
    }
}

/// How many variables a routine has before those that it declares itself: its parameters, Self and its result.
fn before_own(scene: &Scene) -> Result<u32, AllocError> {
    let routine = scene.routine;
    let mut count = routine.header.params.len();
    if routine.owner.is_some() {
        count = count.checked_add(1).ok_or(AllocError)?;
    }
    if routine.header.result.is_some() {
        count = count.checked_add(1).ok_or(AllocError)?;
    }
    u32::try_from(count).map_err(|_| AllocError)
}

fn variables_begun(scene: &Scene) -> Result<FlatList, AllocError> {
    let mut code = Vec::new(scene.alloc);
    let mut place = before_own(scene)?;
    for ty in scene.routine.locals.as_slice() {
        code = then(code, variable_begun(scene, place, *ty)?)?;
        place = place.checked_add(1).ok_or(AllocError)?;
    }
    Ok(code)
}

/// A constructor gives its instance the class for which it is called, if it is called for one.
fn class_given(scene: &Scene) -> Result<FlatList, AllocError> {
    let alloc = scene.alloc;
    let (Kind::Constructor, Some(owner)) = (scene.routine.header.kind, scene.routine.owner) else {
        return Ok(Vec::new(alloc));
    };
    let plus = scene.sort(owner).class_offset().ok_or(AllocError)?;
    let slot = instance_at(&scene.unit.types, scene.routine)?;
    let class = Address::Local(class_word_at(scene.routine));
    let given = FlatStmt::StoreWord {
        to: Address::Through { slot, plus },
        value: FlatExpr::Word(class),
    };
    let test = FlatExpr::Word(class);
    single(alloc, when(test, single(alloc, given)?, Vec::new(alloc)))
}

/// The code before the body of the scene's routine: copies of arguments, variables that begin without a class, and the
/// class of the instance of a constructor.
pub fn prologue(scene: &Scene) -> Result<FlatList, AllocError> {
    let code = then(arguments_copied(scene)?, variables_begun(scene)?)?;
    then(code, class_given(scene)?)
}
