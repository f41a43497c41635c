//! The typed units of sources.

ghost use Rattle.std.specs.Prelude.{◌≡◌, ◌≤◌, ◌+◌, Contains, IfOk, IfErr, OnOk, length};
ghost use Rattle.std.specs.List.{AllZip};
ghost use Rattle.syntax_tree.specs.source_tree.Sources.{used};
ghost use Rattle.front_end.specs.source_interfaces.Scopes.{outer_units, outer_scope, AreThere, AreFitting};
ghost use Rattle.front_end.specs.source_interfaces.Interfaces.{AreInterfaces};
ghost use Rattle.front_end.specs.Typed.{sources_at, IsUnitOf, AreLawful};
ghost use Rattle.front_end.specs.Untyped.{IsIgnorant, IsNoUnit, LacksUnit, HasWrongClass};

use crate::outcomes::Outcome;
use crate::refusals::{check_outcome, class_outcome};
use crate::source_interfaces::{outer_units, scope_of};
use object_vmt::classes;
use scopes::Scope;
use source_graph::Source;
use std::alloc::Global;
use syntax_tree::source_tree::uses_of;
use tp_check_decl::check;
use tp_lexer::Text;
use typed_tree::{Unit, Units};
use unit_interface::Interface;

// What is known to the interface part of a source. All units that the source uses are there, and their types fit.
fn outer_scope(
    alloc: Global,
    texts: &[Text],
    source: &Source,
    have: &[Interface],
) -> Result<Scope, Outcome>
    ensures ok { IfOk result (λ scope. scope ≡ outer_scope have.now source.now) }
    ensures there { OnOk result (AreThere have.now (used source.now.tree)) }
    ensures fits { OnOk result (AreFitting have.now source.now.name (outer_units source.now)) }
    ensures cause { IfErr result (IsIgnorant texts.now have.now source.now) }
{
    let uses = uses_of(&source.tree);
    let whole = scope_of(alloc, texts, &source.name, uses, have)?;
    let outer = outer_units(source);
    if outer.len() == uses.len() {
        return Ok(whole);
    }
    scope_of(alloc, texts, &source.name, outer, have)
}

// The typed unit of a source, over these interfaces.
fn unit_of(
    alloc: Global,
    texts: &[Text],
    source: &Source,
    have: &[Interface],
) -> Result<Unit, Outcome>
    ensures unit { IfOk result (IsUnitOf have.now source.now) }
    ensures cause { IfErr result (IsNoUnit texts.now have.now source.now) }
{
    let scope = outer_scope(alloc, texts, source, have)?;
    match check(
        alloc,
        &source.name,
        &source.tree,
        &source.says,
        &scope,
        have,
    ) {
        Ok(unit) => Ok(unit),
        Err(error) => Err(check_outcome(texts, error)),
    }
}

/// The typed units of the sources at these places.
pub(crate) fn units_at(
    alloc: Global,
    texts: &[Text],
    sources: &[Source],
    have: &[Interface],
    places: &[u32],
) -> Result<Units, Outcome>
    ensures units { IfOk result (λ units. AllZip (IsUnitOf have.now) (sources_at sources.now places.now) units) }
    ensures cause { IfErr result (LacksUnit texts.now sources.now have.now) }
{
    let mut units = Units::new(alloc);
    for place in places {
        if let Some(source) = sources.get(*place as usize) {
            units.push(unit_of(alloc, texts, source, have)?)?;
        }
    }
    Ok(units)
}

/// The rules on fields and methods hold in the lines of object types of all units.
pub(crate) fn check_classes(alloc: Global, units: &[Unit]) -> Result<(), Outcome>
    ensures lawful { OnOk result (AreLawful units.now) }
    ensures cause { IfErr result (HasWrongClass units.now) }
{
    for unit in units {
        if let Err(error) = classes(alloc, &unit.types) {
            return Err(class_outcome(error));
        }
    }
    Ok(())
}
