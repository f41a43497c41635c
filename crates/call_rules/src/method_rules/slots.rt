//! The virtual slots of one class.

ghost use Rattle.std.specs.Prelude.{◌≡◌, Some, IfOk, option_copied, position};
ghost use Rattle.std.specs.List.{list_any};
ghost use Rattle.type_layout.specs.Words.{same_bytes};
ghost use Rattle.typed_tree.specs.type_fits.Fits.{parent_of};
ghost use Rattle.scopes.specs.Members.{narrow};
ghost use Rattle.object_vmt.specs.Slots.{with_slot, slots_from, slots_of};
ghost use Rattle.call_rules.specs.method_rules.Slots.{AreLines, methods_of, methods_within, slot_in, slot_of};

use std::alloc::{AllocError, Global};
use type_layout::{Method, Name, Names, TypeDef, TypeId, Types};
use typing_rules::definition;

fn narrow(number: usize) -> u32
    ensures { result ≡ narrow number }
{
    u32::try_from(number).unwrap_or(u32::MAX)
}

fn parent_of(one: Option<&TypeDef>) -> Option<TypeId>
    ensures { result ≡ parent_of (option_copied one.entry) }
{
    match one {
        Some(TypeDef::ObjectOf { parent, .. }) => *parent,
        _ => None,
    }
}

/// The methods that a type declares itself, if it is an object type.
pub(crate) fn methods_of(one: Option<&TypeDef>) -> &[Method]
    ensures { result.now ≡ methods_of (option_copied one.entry) }
{
    match one {
        Some(TypeDef::ObjectOf { methods, .. }) => methods.as_slice(),
        _ => &[],
    }
}

fn has_name(slots: &[Name], name: &Name) -> bool
    ensures { result ≡ list_any (same_bytes name.now) slots.now }
{
    slots.iter().any(|slot| *name == *slot)
}

// The names of slots with that of a method, if it is virtual and the first of its name.
fn with_slot(slots: Names, method: &Method) -> Result<Names, AllocError>
    ensures { IfOk result (λ all. all ≡ with_slot slots method.now) }
{
    let mut slots = slots;
    if method.is_virtual && !has_name(slots.as_slice(), &method.name) {
        slots.push(method.name.copied())?;
    }
    Ok(slots)
}

fn with_slots(slots: Names, methods: &[Method]) -> Result<Names, AllocError>
    ensures { IfOk result (λ all. all ≡ slots_from slots methods.now) }
{
    let mut slots = slots;
    for method in methods {
        slots = with_slot(slots, method)?;
    }
    Ok(slots)
}

// The names of the slots of a line, of which at most so many types are looked at.
fn slots_within(
    alloc: Global,
    types: &Types,
    ty: Option<TypeId>,
    room: u32,
) -> Result<Names, AllocError>
    ensures { IfOk result (λ slots. slots ≡ slots_of (methods_within room types.now.types ty)) }
{
    if room == 0 {
        return Ok(Names::new(alloc));
    }
    match ty {
        None => Ok(Names::new(alloc)),
        Some(ty) => {
            let one = definition(types, ty);
            let above = slots_within(alloc, types, parent_of(one), room - 1)?;
            with_slots(above, methods_of(one))
        }
    }
}

fn slot_place(slots: &[Name], name: &Name) -> Option<usize>
    ensures { result ≡ position (λ slot. same_bytes name.now slot) slots.now }
{
    slots.iter().position(|slot| *name == *slot)
}

fn slot_in(slots: &[Name], name: &Name) -> Option<u32>
    ensures { result ≡ slot_in slots.now name.now }
{
    let place = slot_place(slots, name)?;
    Some(narrow(place))
}

/// The number of the slot that the virtual method of this name has in the table of a class.
pub fn slot_of(
    alloc: Global,
    types: &Types,
    class: TypeId,
    name: &Name,
) -> Result<Option<u32>, AllocError>
    ensures value { IfOk result (λ slot. slot ≡ slot_of types.now.types class name.now) }
    // The slots are those that the classes of the whole table have.
    ensures lines { AreLines types.now.types }
{
    let slots = slots_within(alloc, types, Some(class), types.count())?;
    Ok(slot_in(slots.as_slice(), name))
}
