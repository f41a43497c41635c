//! The routines that object types have.

ghost use Rattle.std.specs.Prelude.{◌≡◌, ◌++◌, IfOk, OnOk, IfErr, map, slice_get, option_copied};
ghost use Rattle.declaration_checker.specs.type_parts.Objects.{header_place};
ghost use Rattle.typing_rules.specs.declared.faults.Refusal.TheVariants.{NoMemory};
ghost use Rattle.tp_check_decl.specs.routines.Drafts.{view_slot};
ghost use Rattle.tp_check_decl.specs.routines.Methods.{method_announced, of_method, of_methods, of_type, written_in, of_declaration, of_declarations, of_part};

use crate::routines::drafts::{Announced, Slot, announce};
use scopes::{Entry, Found, Scope};
use std::alloc::{AllocError, Global};
use syntax_tree::source_tree::{DeclarationPart, TypeDeclaration};
use syntax_tree::type_tree::{Method as WrittenMethod, MethodHeader, TypeDenoter};
use type_layout::{Method, Place, TypeDef, TypeId};
use typing_rules::{Refusal, definition};

/// Where a method's header begins.
pub(crate) fn header_place(header: &MethodHeader) -> Place
    ensures { result ≡ header_place header.now }
{
    match header {
        MethodHeader::Procedure { position, .. }
        | MethodHeader::Function { position, .. }
        | MethodHeader::Constructor { position, .. }
        | MethodHeader::Destructor { position, .. } => position.place,
    }
}

// What is known of a method by its header in the type.
fn method_announced(
    alloc: Global,
    owner: TypeId,
    place: Place,
    one: &Method,
) -> Result<Announced, AllocError>
    ensures { IfOk result (λ first. first ≡ method_announced owner place one.now) }
{
    Ok(Announced {
        place,
        name: one.name.copied(),
        header: one.header.copied(alloc)?,
        owner: Some(owner),
        outer: None,
        far: true,
    })
}

#[tactic(auto, using(crate::proofs::routines::MethodSteps::nothing_more))]
fn announce_method(
    alloc: Global,
    slots: &mut Vec<Slot>,
    owner: TypeId,
    place: Place,
    one: Option<&Method>,
) -> Result<(), Refusal>
    ensures ok { OnOk result (map view_slot slots.new.items ≡ map view_slot slots.old.items ++ of_method owner place (option_copied one.entry)) }
    ensures err { IfErr result (λ refusal. refusal ≡ NoMemory) }
{
    match one {
        None => Ok(()),
        Some(one) => {
            let first = method_announced(alloc, owner, place, one)?;
            announce(slots, first)
        }
    }
}

fn nth_method(methods: &[Method], place: usize) -> Option<&Method>
    ensures { option_copied result ≡ slice_get methods.now place }
{
    methods.get(place)
}

// Each method at its header.
fn announce_methods(
    alloc: Global,
    slots: &mut Vec<Slot>,
    owner: TypeId,
    methods: &[Method],
    all: &[WrittenMethod],
) -> Result<(), Refusal>
    ensures ok { OnOk result (map view_slot slots.new.items ≡ map view_slot slots.old.items ++ of_methods owner methods.now 0 all.now) }
    ensures err { IfErr result (λ refusal. refusal ≡ NoMemory) }
{
    for (place, one) in all.iter().enumerate() {
        announce_method(
            alloc,
            slots,
            owner,
            header_place(&one.header),
            nth_method(methods, place),
        )?;
    }
    Ok(())
}

#[tactic(auto, using(crate::proofs::routines::MethodSteps::nothing_more))]
fn announce_type(
    alloc: Global,
    slots: &mut Vec<Slot>,
    ty: TypeId,
    one: Option<&TypeDef>,
    all: &[WrittenMethod],
) -> Result<(), Refusal>
    ensures ok { OnOk result (map view_slot slots.new.items ≡ map view_slot slots.old.items ++ of_type ty (option_copied one.entry) all.now) }
    ensures err { IfErr result (λ refusal. refusal ≡ NoMemory) }
{
    match one {
        Some(TypeDef::ObjectOf { methods, .. }) => {
            announce_methods(alloc, slots, ty, methods.as_slice(), all)
        }
        _ => Ok(()),
    }
}

// The methods that stand in a type.
fn written_in(denoter: &TypeDenoter) -> &[WrittenMethod]
    ensures { result.now ≡ written_in denoter.now }
{
    match denoter {
        TypeDenoter::Object { methods, .. } => methods.as_slice(),
        _ => &[],
    }
}

#[tactic(auto, using(crate::proofs::routines::MethodSteps::nothing_more), unfolding(crate::specs::routines::Methods::of_declaration))]
fn announce_declaration(
    alloc: Global,
    slots: &mut Vec<Slot>,
    scope: &Scope,
    one: &TypeDeclaration,
) -> Result<(), Refusal>
    ensures ok { OnOk result (map view_slot slots.new.items ≡ map view_slot slots.old.items ++ of_declaration scope.now one.now) }
    ensures err { IfErr result (λ refusal. refusal ≡ NoMemory) }
{
    match scope.find(&one.name.name) {
        Some(
            Found::Named {
                entry: Entry::Ty { ty },
                ..
            },
        ) => {
            let types = scope.types();
            announce_type(
                alloc,
                slots,
                *ty,
                definition(types, *ty),
                written_in(&one.denoter),
            )
        }
        _ => Ok(()),
    }
}

fn announce_declarations(
    alloc: Global,
    slots: &mut Vec<Slot>,
    scope: &Scope,
    all: &[TypeDeclaration],
) -> Result<(), Refusal>
    ensures ok { OnOk result (map view_slot slots.new.items ≡ map view_slot slots.old.items ++ of_declarations scope.now all.now) }
    ensures err { IfErr result (λ refusal. refusal ≡ NoMemory) }
{
    for one in all {
        announce_declaration(alloc, slots, scope, one)?;
    }
    Ok(())
}

/// Puts the routines that the object types of a part have behind those that are there.
#[tactic(auto, using(crate::proofs::routines::MethodSteps::nothing_more))]
pub(crate) fn announce_part(
    alloc: Global,
    slots: &mut Vec<Slot>,
    scope: &Scope,
    one: &DeclarationPart,
) -> Result<(), Refusal>
    ensures ok { OnOk result (map view_slot slots.new.items ≡ map view_slot slots.old.items ++ of_part scope.now one.now) }
    ensures err { IfErr result (λ refusal. refusal ≡ NoMemory) }
{
    match one {
        DeclarationPart::Types { types, .. } => {
            announce_declarations(alloc, slots, scope, types.as_slice())
        }
        DeclarationPart::Constants { .. } | DeclarationPart::Variables { .. } => Ok(()),
    }
}
