//! What is known to a source by the units that it uses.

ghost use Rattle.std.specs.Prelude.{◌≡◌, ◌≤◌, ℕ, true, List, length, take, IfOk, IfErr, OnOk};
ghost use Rattle.std.specs.List.{list_any};
ghost use Rattle.type_layout.specs.Words.{same_bytes};
ghost use Rattle.scopes.specs.Predeclared.{first};
ghost use Rattle.source_graph.specs.source_order.Orders.{names_of};
ghost use Rattle.unit_interface.specs.Resolve.{resolved, is_repeated, IsMissing};
ghost use Rattle.unit_interface.specs.Fitting.{uses_fit};
ghost use Rattle.front_end.specs.source_interfaces.Scopes.{known, AreThere, AreFitting, IsRepeatedUse, AreOnce, IsUnresolved, KnowsNothing};

use crate::outcomes::{Outcome, Refusal};
use crate::refusals::check_outcome;
use scopes::Scope;
use source_graph::source_file;
use std::alloc::{AllocError, Global};
use syntax_tree::Identifier;
use tp_lexer::Text;
use type_layout::{Name, Names};
use typing_rules::{Fault, Rule, broken, error_of};
use unit_interface::{Interface, ResolveError, resolve};

fn names_of(alloc: Global, uses: &[Identifier]) -> Result<Names, AllocError>
    ensures { IfOk result (λ names. names ≡ names_of uses.now) }
{
    let mut names = Names::new(alloc);
    for unit in uses {
        names.push(unit.name.copied())?;
    }
    Ok(names)
}

// Whether a name stands before this place of the clauses.
fn stands_before(names: &[Name], place: usize, name: &Name) -> bool
    requires { place ≤ length names.now }
    ensures { result ≡ list_any (same_bytes name.now) (take place names.now) }
{
    names[..place].iter().any(|one| *name == *one)
}

// Whether a name stands before this place of the clauses, or is SYSTEM.
fn is_repeated(names: &[Name], place: usize, name: &Name) -> bool
    requires { place ≤ length names.now }
    ensures { result ≡ is_repeated (take place names.now) name.now }
{
    name.as_bytes() == b"SYSTEM".as_slice() || stands_before(names, place, name)
}

// No unit is used twice, and none is SYSTEM.
fn check_uses(uses: &[Identifier], names: &[Name]) -> Result<(), Fault>
    requires named { names.now ≡ names_of uses.now }
    ensures once { OnOk result (AreOnce names.now) }
    ensures cause { IfErr result (IsRepeatedUse uses.now) }
{
    for place in 0..uses.len() {
        let unit = &uses[place];
        if is_repeated(names, place, &unit.name) {
            return Err(broken(unit.position.place, Rule::UnitUsed));
        }
    }
    Ok(())
}

// What is known by the interfaces of these units.
fn resolved(
    alloc: Global,
    name: &Name,
    names: &[Name],
    have: &[Interface],
) -> Result<Scope, Outcome>
    requires once { AreOnce names.now }
    ensures ok { IfOk result (λ scope. scope ≡ resolved have.now name.now names.now) }
    ensures there { OnOk result ((used : List ℕ) → IsMissing have.now names.now used → ⊥) }
    ensures fits { OnOk result (uses_fit have.now (first name.now) names.now ≡ true) }
    ensures cause { IfErr result (IsUnresolved have.now name.now names.now) }
{
    match resolve(alloc, name, names, have) {
        Ok(scope) => Ok(scope),
        Err(ResolveError::MissingUnit { name: unit }) => {
            Err(Outcome::Refused(Refusal::MissingFile {
                name: source_file(&unit),
            }))
        }
        Err(ResolveError::Mismatch { name: import }) => {
            Err(Outcome::Refused(Refusal::VersionMismatch {
                unit: name.copied(),
                import,
            }))
        }
        Err(ResolveError::DuplicateUse { .. }) => unreachable!(),
        Err(ResolveError::NoMemory) => Err(Outcome::NoMemory),
    }
}

/// What is known to a source with this name that uses these units.
pub fn scope_of(
    alloc: Global,
    texts: &[Text],
    name: &Name,
    uses: &[Identifier],
    have: &[Interface],
) -> Result<Scope, Outcome>
    ensures ok { IfOk result (λ scope. scope ≡ known have.now name.now uses.now) }
    ensures there { OnOk result (AreThere have.now uses.now) }
    ensures fits { OnOk result (AreFitting have.now name.now uses.now) }
    ensures cause { IfErr result (KnowsNothing texts.now have.now name.now uses.now) }
{
    let names = names_of(alloc, uses)?;
    match check_uses(uses, names.as_slice()) {
        Ok(()) => resolved(alloc, name, names.as_slice(), have),
        Err(fault) => Err(check_outcome(texts, error_of(fault))),
    }
}
