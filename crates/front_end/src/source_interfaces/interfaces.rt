//! The interfaces of all sources, each made where those that it uses are there.

ghost use Rattle.std.specs.Prelude.{◌≡◌, ◌<◌, ℕ, List, Contains, length, IfOk, IfErr, OnOk};
ghost use Rattle.std.specs.List.{list_all};
ghost use Rattle.front_end.specs.source_interfaces.Scopes.{outer_units, outer_scope, is_shown, AreThere, AreFitting};
ghost use Rattle.front_end.specs.source_interfaces.Interfaces.{AreShown, AreInterfaces, IsAcyclic, ShowsNothing, LacksInterface, is_source, lacks, waits, is_settled, IsStep, IsGrown};
ghost use Rattle.tp_check_decl.specs.Shown.{IsShownAs};

use crate::outcomes::Outcome;
use crate::refusals::check_outcome;
use crate::source_interfaces::known::scope_of;
use source_graph::Source;
use std::alloc::Global;
use syntax_tree::Identifier;
use syntax_tree::source_tree::{interface_uses, uses_of};
use tp_check_decl::check_interface;
use tp_lexer::Text;
use type_layout::Name;
use unit_interface::Interface;

/// The units that the interface part of a source uses.
pub fn outer_units(source: &Source) -> &[Identifier]
    ensures { result.now ≡ outer_units source.now }
{
    let uses = uses_of(&source.tree);
    let outer = interface_uses(&source.tree).min(uses.len());
    &uses[..outer]
}

fn is_shown(have: &[Interface], name: &Name) -> bool
    ensures { result ≡ is_shown have.now name.now }
{
    have.iter().any(|interface| *name == interface.name)
}

fn is_source(sources: &[Source], name: &Name) -> bool
    ensures { result ≡ is_source sources.now name.now }
{
    sources.iter().any(|source| *name == source.name)
}

// Whether a unit of this name has no interface yet.
fn lacks(sources: &[Source], have: &[Interface], name: &Name) -> bool
    ensures { result ≡ lacks sources.now have.now name.now }
{
    is_source(sources, name) && !is_shown(have, name)
}

// Whether the interface part of a source uses one that has no interface yet.
fn waits(sources: &[Source], have: &[Interface], source: &Source) -> bool
    ensures { result ≡ waits sources.now have.now source.now }
{
    outer_units(source)
        .iter()
        .any(|unit| lacks(sources, have, &unit.name))
}

// Whether the interface of a source is there, or waits for another.
fn is_settled(sources: &[Source], have: &[Interface], source: &Source) -> bool
    ensures { result ≡ is_settled sources.now have.now source.now }
{
    is_shown(have, &source.name) || waits(sources, have, source)
}

// What a source shows, over these interfaces.
fn shown_by(
    alloc: Global,
    texts: &[Text],
    source: &Source,
    have: &[Interface],
) -> Result<Interface, Outcome>
    ensures shows { IfOk result (λ interface.
        IsShownAs source.now.name source.now.says (outer_scope have.now source.now) source.now.tree interface) }
    ensures named { IfOk result (λ interface. interface.name ≡ source.now.name) }
    ensures there { OnOk result (AreThere have.now (outer_units source.now)) }
    ensures fits { OnOk result (AreFitting have.now source.now.name (outer_units source.now)) }
    ensures cause { IfErr result (ShowsNothing texts.now have.now source.now) }
{
    let scope = scope_of(alloc, texts, &source.name, outer_units(source), have)?;
    match check_interface(alloc, &source.name, &source.tree, &source.says, &scope) {
        Ok(interface) => Ok(interface),
        Err(error) => Err(check_outcome(texts, error)),
    }
}

// Makes the interface of the source at this place, where it has none and waits for none.
fn show_due(
    alloc: Global,
    texts: &[Text],
    sources: &[Source],
    place: usize,
    have: &mut Vec<Interface>,
) -> Result<(), Outcome>
    requires within { place < length sources.now }
    requires shown { AreShown sources.now have.old.items }
    ensures shown { OnOk result (AreShown sources.now have.new.items) }
    ensures grown { OnOk result (IsGrown have.old.items have.new.items) }
    ensures step { OnOk result (IsStep sources.now have.old.items have.new.items place) }
    ensures cause { IfErr result (LacksInterface texts.now sources.now) }
{
    let source = &sources[place];
    if is_settled(sources, have.as_slice(), source) {
        return Ok(());
    }
    let interface = shown_by(alloc, texts, source, have.as_slice())?;
    have.push(interface)?;
    Ok(())
}

// Goes through all sources once, the last one first.
fn show_round(
    alloc: Global,
    texts: &[Text],
    sources: &[Source],
    have: &mut Vec<Interface>,
) -> Result<(), Outcome>
    requires shown { AreShown sources.now have.old.items }
    ensures shown { OnOk result (AreShown sources.now have.new.items) }
    ensures grown { OnOk result (IsGrown have.old.items have.new.items) }
    ensures steps { OnOk result ((place : ℕ) → IsStep sources.now have.old.items have.new.items place) }
    ensures cause { IfErr result (LacksInterface texts.now sources.now) }
{
    let mut place = sources.len();
    while place > 0 {
        place -= 1;
        show_due(alloc, texts, sources, place, have)?;
    }
    Ok(())
}

fn are_all_shown(sources: &[Source], have: &[Interface]) -> bool
    ensures { result ≡ list_all (λ source. is_shown have.now source.name) sources.now }
{
    sources.iter().all(|source| is_shown(have, &source.name))
}

/// The interfaces of all sources, none of which lies on a circle of uses in interface parts.
pub fn interfaces_of(
    alloc: Global,
    texts: &[Text],
    sources: &[Source],
) -> Result<Vec<Interface>, Outcome>
    requires acyclic { IsAcyclic sources.now }
    ensures interfaces { IfOk result (λ have. AreInterfaces sources.now have.items) }
    ensures cause { IfErr result (LacksInterface texts.now sources.now) }
{
    let mut have = Vec::new(alloc);
    for _round in 0..sources.len() {
        if are_all_shown(sources, have.as_slice()) {
            return Ok(have);
        }
        show_round(alloc, texts, sources, &mut have)?;
    }
    Ok(have)
}
