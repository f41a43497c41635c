//! Which sources are programs and which are units.

ghost use Rattle.std.specs.Prelude.{◌≡◌, OnOk, IfErr};
ghost use Rattle.front_end.specs.source_interfaces.Kinds.{is_program, beginning, uses_named, is_used, is_reserved, is_of_kind, AreOfKinds, IsOfWrongKind};

use source_graph::Source;
use syntax_tree::source_tree::{Tree, uses_of};
use type_layout::{Name, Place};
use typing_rules::{Fault, Rule, broken};

fn is_program(tree: &Tree) -> bool
    ensures { result ≡ is_program tree.now }
{
    match tree {
        Tree::Program { .. } => true,
        Tree::Unit { .. } => false,
    }
}

// Where a source begins, behind the directives in front of it.
fn beginning(source: &Source) -> Place
    ensures { result ≡ beginning source.now }
{
    match source.says.first {
        Some(place) => place,
        None => Place {
            text: source.text,
            line: 1,
            column: 1,
        },
    }
}

fn uses_named(name: &Name, source: &Source) -> bool
    ensures { result ≡ uses_named name.now source.now }
{
    uses_of(&source.tree).iter().any(|unit| *name == unit.name)
}

fn is_used(sources: &[Source], name: &Name) -> bool
    ensures { result ≡ is_used sources.now name.now }
{
    sources.iter().any(|source| uses_named(name, source))
}

// The names of the units that are always there.
fn is_reserved(name: &Name) -> bool
    ensures { result ≡ is_reserved name.now }
{
    name.as_bytes() == b"OVERLAY".as_slice() || name.as_bytes() == b"SYSTEM".as_slice()
}

fn is_of_kind(sources: &[Source], place: usize, source: &Source) -> bool
    ensures { result ≡ is_of_kind sources.now place source.now }
{
    if is_reserved(&source.name) {
        return false;
    }
    if place == 0 {
        is_program(&source.tree) && !is_used(sources, &source.name)
    } else {
        !is_program(&source.tree)
    }
}

/// The first source is a program that none uses, the others are units, and none has the name of a unit that is always there. A source
/// that isn't so is at fault where it begins.
pub fn check_kinds(sources: &[Source]) -> Result<(), Fault>
    ensures kinds { OnOk result (AreOfKinds sources.now) }
    ensures cause { IfErr result (IsOfWrongKind sources.now) }
{
    for place in 0..sources.len() {
        let source = &sources[place];
        if !is_of_kind(sources, place, source) {
            return Err(broken(beginning(source), Rule::SourceName));
        }
    }
    Ok(())
}
