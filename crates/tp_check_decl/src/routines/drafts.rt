//! A unit while it is read.

ghost use Rattle.std.specs.Prelude.{◌≡◌, ◌∷◌, ◌++◌, [], None, OnOk, IfErr, map, length};
ghost use Rattle.scopes.specs.Members.{narrow};
ghost use Rattle.typing_rules.specs.declared.faults.Refusal.TheVariants.{NoMemory};
ghost use Rattle.declaration_checker.specs.declarations.Progress.{level_of};
ghost use Rattle.tp_check_decl.specs.routines.Drafts.{view_made, view_slot, Numbered, finishing, next_for};

use declaration_checker::declarations::Home;
use std::alloc::Global;
use type_layout::{Header, Name, Place, TypeId};
use typed_tree::{Globals, Locals, Stmt};
use typing_rules::Refusal;

/// What the first header of a routine tells of it, and where that begins. `outer` is the number of the routine round it, `owner`
/// the object type of a method.
#[derive(Drop)]
pub struct Announced {
    pub place: Place,
    pub name: Name,
    pub header: Header,
    pub owner: Option<TypeId>,
    pub outer: Option<u32>,
    pub far: bool,
}

/// What the block of a routine makes: the variables that it declares itself, and its statements. The place is that of the header in
/// front of the block.
#[derive(Drop)]
pub struct Made {
    pub place: Place,
    pub locals: Locals,
    pub body: Stmt,
}

/// A routine, with its block once that was read.
#[derive(Drop)]
pub struct Slot {
    pub first: Announced,
    pub made: Option<Made>,
}

/// The variables of a unit, and its routines in the order of their first headers. The number of a routine is its place among them.
#[derive(Drop)]
pub struct Draft {
    pub globals: Globals,
    pub slots: Vec<Slot>,
}

/// Where a block stands: whose variables it declares, and the number of the routine whose block it is.
#[derive(Clone, Copy, Debug, PartialEq, Eq)]
pub struct Site {
    pub home: Home,
    pub outer: Option<u32>,
}

/// A routine whose block was not met yet, with its first header.
#[derive(Drop)]
pub(crate) struct Awaited {
    pub number: u32,
    pub header: Header,
}

/// A routine whose block follows, with its header, in which the parameters have the names that are known in the block. `owner` is
/// the object type of a method.
#[derive(Drop)]
pub(crate) struct Begun {
    pub number: u32,
    pub header: Header,
    pub owner: Option<TypeId>,
}

/// How deep a block lies.
pub(crate) fn depth_of(home: Home) -> u32
    ensures { result ≡ level_of home }
{
    match home {
        Home::Unit => 0,
        Home::Routine { level, .. } => level,
    }
}

/// Puts a routine behind those that are there.
pub(crate) fn announce(slots: &mut Vec<Slot>, first: Announced) -> Result<(), Refusal>
    ensures ok { OnOk result (map view_slot slots.new.items ≡ map view_slot slots.old.items ++ (let one : Numbered = record { first = first; done = None } in one) ∷ []) }
    ensures err { IfErr result (λ refusal. refusal ≡ NoMemory) }
{
    slots.push(Slot { first, made: None })?;
    Ok(())
}

/// Gives the routine of a number its block.
pub(crate) fn finish(slots: &mut Vec<Slot>, number: u32, made: Made)
    ensures { map view_slot slots.new.items ≡ finishing number (view_made made) (map view_slot slots.old.items) }
{
    let place = number as usize;
    if place < slots.len() {
        slots[place].made = Some(made);
    }
}

/// The number of the next routine. One that 32 bits can't hold stays at the greatest.
pub(crate) fn next_number(slots: &[Slot]) -> u32
    ensures { result ≡ narrow (length slots.now) }
{
    u32::try_from(slots.len()).unwrap_or(u32::MAX)
}

/// The number of the next routine where object types may be declared.
pub(crate) fn next_for(home: Home, next: u32) -> Option<u32>
    ensures { result ≡ next_for home next }
{
    match home {
        Home::Unit => Some(next),
        Home::Routine { .. } => None,
    }
}
