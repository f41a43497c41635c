//! The scope of a unit or program that uses other units.

ghost use Rattle.std.specs.Prelude.{◌≡◌, ◌≤◌, ℕ, true, List, length, take, option_copied, IfErr, IfOk, OnOk};
ghost use Rattle.std.specs.List.{list_any};
ghost use Rattle.type_layout.specs.Words.{same_bytes};
ghost use Rattle.scopes.specs.Predeclared.{first};
ghost use Rattle.unit_interface.specs.Keyed.{IsKeyed};
ghost use Rattle.unit_interface.specs.Fitting.{use_fits, uses_fit, TellsFit};
ghost use Rattle.unit_interface.specs.Resolve.{is_overlay, interface_named, with_use, resolved, is_there, is_repeated, IsMissing, IsDuplicate, IsUseCause, IsNameCause, IsCause};

use crate::Interface;
use crate::merge::{MergeError, add_interface};
use crate::overlay::{add_overlay, overlay};
use scopes::Scope;
use std::alloc::{AllocError, Global};
use type_layout::Name;

/// Why there is no scope.
#[derive(Debug, Drop)]
pub enum ResolveError {
    /// The unit is used and has no interface.
    MissingUnit { name: Name },
    /// The unit is used twice, or is SYSTEM.
    DuplicateUse { name: Name },
    /// A type of the unit's interface doesn't fit the types of the units before it.
    Mismatch { name: Name },
    NoMemory,
}

impl From<AllocError> for ResolveError {
    ghost use Rattle.std.specs.Prelude.{◌≡◌};
    ghost use Rattle.unit_interface.specs.declared.resolving.ResolveError.TheVariants.{NoMemory};

    ghost from_gives = { λ _ error. error ≡ NoMemory };

    fn from(_error: AllocError) -> ResolveError {
        ResolveError::NoMemory
    }
}

fn is_overlay(name: &Name) -> bool
    ensures { result ≡ is_overlay name.now }
{
    *name == overlay()
}

// The first interface with this name.
fn interface_named<'a>(have: &'a [Interface], name: &Name) -> Option<&'a Interface>
    ensures { option_copied result ≡ interface_named have.now name.now }
{
    match have {
        [] => None,
        [interface, rest @ ..] => {
            if *name == interface.name {
                Some(interface)
            } else {
                interface_named(rest, name)
            }
        }
    }
}

fn is_there(have: &[Interface], name: &Name) -> bool
    ensures { result ≡ is_there have.now name.now }
{
    is_overlay(name) || interface_named(have, name).is_some()
}

// Whether a name stands before this place of the uses.
fn stands_before(uses: &[Name], place: usize, name: &Name) -> bool
    requires { place ≤ length uses.now }
    ensures { result ≡ list_any (same_bytes name.now) (take place uses.now) }
{
    uses[..place].iter().any(|one| *name == *one)
}

// Whether a name stands before this place of the uses, or is SYSTEM.
fn is_repeated(uses: &[Name], place: usize, name: &Name) -> bool
    requires { place ≤ length uses.now }
    ensures { result ≡ is_repeated (take place uses.now) name.now }
{
    name.as_bytes() == b"SYSTEM".as_slice() || stands_before(uses, place, name)
}

// The first fault of the uses, if there is one.
fn check_uses(uses: &[Name], have: &[Interface]) -> Result<(), ResolveError>
    ensures once { OnOk result ((name : List ℕ) → IsDuplicate uses.now name → ⊥) }
    ensures there { OnOk result ((name : List ℕ) → IsMissing have.now uses.now name → ⊥) }
    ensures cause { IfErr result (IsNameCause have.now uses.now) }
{
    for place in 0..uses.len() {
        let name = &uses[place];
        if is_repeated(uses, place, name) {
            return Err(ResolveError::DuplicateUse {
                name: name.copied(),
            });
        }
        if !is_there(have, name) {
            return Err(ResolveError::MissingUnit {
                name: name.copied(),
            });
        }
    }
    Ok(())
}

/// Adds a used unit to a scope, which may have open blocks: OVERLAY, or what the first interface with this name shows. A type that
/// the table has keeps its id, so types of the unit itself that come back are those that it declares. A name without an interface
/// is passed over.
pub fn use_unit(
    alloc: Global,
    scope: &mut Scope,
    have: &[Interface],
    name: &Name,
) -> Result<(), MergeError>
    ensures ok { OnOk result (scope.new ≡ with_use have.now scope.old name.now) }
    ensures cause { IfErr result (IsUseCause have.now scope.old name.now) }
    // It is Mismatch where the types don't fit, and only there.
    ensures fits { TellsFit (use_fits have.now scope.old name.now) result }
{
    if is_overlay(name) {
        add_overlay(alloc, scope)?;
        return Ok(());
    }
    match interface_named(have, name) {
        Some(interface) => add_interface(alloc, scope, interface),
        None => Ok(()),
    }
}

/// The scope of the unit or program `name`, which uses these units in order of its clauses: the predeclared names, and
/// the items of the used units with their types. A type keeps the unit that declares it and its number there, so a type
/// that comes by two units is one: no two types of the scope come from one declaration. OVERLAY needs no interface.
pub fn resolve(
    alloc: Global,
    name: &Name,
    uses: &[Name],
    have: &[Interface],
) -> Result<Scope, ResolveError>
    ensures ok { IfOk result (λ scope. scope ≡ resolved have.now name.now uses.now) }
    ensures keyed { IfOk result (λ scope. IsKeyed scope.types) }
    ensures once { OnOk result ((used : List ℕ) → IsDuplicate uses.now used → ⊥) }
    ensures there { OnOk result ((used : List ℕ) → IsMissing have.now uses.now used → ⊥) }
    ensures fits { OnOk result (uses_fit have.now (first name.now) uses.now ≡ true) }
    ensures cause { IfErr result (IsCause have.now name.now uses.now) }
{
    check_uses(uses, have)?;
    let mut scope = Scope::new(alloc, name.copied())?;
    for used in uses {
        match use_unit(alloc, &mut scope, have, used) {
            Ok(()) => {}
            Err(MergeError::Mismatch) => {
                return Err(ResolveError::Mismatch {
                    name: used.copied(),
                });
            }
            Err(MergeError::NoMemory) => return Err(ResolveError::NoMemory),
        }
    }
    Ok(scope)
}
