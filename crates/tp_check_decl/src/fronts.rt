//! What stands in front of the declarations of a source.

ghost use Rattle.std.specs.Prelude.{◌≡◌, [], OnOk};
ghost use Rattle.typing_rules.specs.Judgements.{Gives};
ghost use Rattle.tp_check_decl.specs.Fronts.{is_system, is_overlay, is_listed, is_taken, uses_onto, may_overlay, with_new, overlaid_onto, front_judged};

use std::alloc::{AllocError, Global};
use syntax_tree::Identifier;
use tp_lexer::source_directives::{Directives, Overlaid};
use type_layout::{Name, Names};
use typing_rules::{Refusal, Rule, broken};

/// The units that a source uses and overlays, and what else its directives say.
#[derive(Drop)]
pub(crate) struct Front {
    pub uses: Names,
    pub overlaid: Names,
    pub stack: u32,
    pub heap: u32,
    pub overlayable: bool,
}

pub(crate) fn is_system(name: &Name) -> bool
    ensures { result ≡ is_system name.now }
{
    name.as_bytes() == b"SYSTEM".as_slice()
}

pub(crate) fn is_overlay(name: &Name) -> bool
    ensures { result ≡ is_overlay name.now }
{
    name.as_bytes() == b"OVERLAY".as_slice()
}

/// Whether a name is one of these.
pub(crate) fn is_listed(names: &[Name], name: &Name) -> bool
    ensures { result ≡ is_listed names.now name.now }
{
    names.iter().any(|known| *name == *known)
}

fn is_taken(before: &[Name], name: &Name) -> bool
    ensures { result ≡ is_taken before.now name.now }
{
    is_system(name) || is_listed(before, name)
}

// The names of the used units, each of which stands once and none of which is SYSTEM.
fn uses_of(alloc: Global, all: &[Identifier]) -> Result<Names, Refusal>
    ensures { Gives (λ names. names) result (uses_onto [] all.now).run }
{
    let mut names = Names::new(alloc);
    for one in all {
        if is_taken(names.as_slice(), &one.name) {
            let place = one.position.place;
            return Err(Refusal::Because(broken(place, Rule::UnitUsed)));
        }
        names.push(one.name.copied())?;
    }
    Ok(names)
}

fn may_overlay(uses: &[Name], name: &Name) -> bool
    ensures { result ≡ may_overlay uses.now name.now }
{
    is_listed(uses, name) && !is_overlay(name)
}

// Puts a name at the end, where it is new.
fn add_new(names: &mut Names, name: &Name) -> Result<(), AllocError>
    ensures { OnOk result (names.new ≡ with_new names.old name.now) }
{
    if is_listed(names.as_slice(), name) {
        return Ok(());
    }
    names.push(name.copied())
}

// The names of the overlaid units, which are used ones.
fn overlaid_of(alloc: Global, all: &[Overlaid], uses: &[Name]) -> Result<Names, Refusal>
    ensures { Gives (λ names. names) result (overlaid_onto uses.now [] all.now).run }
{
    let mut names = Names::new(alloc);
    for one in all {
        if !may_overlay(uses, &one.name) {
            return Err(Refusal::Because(broken(one.place, Rule::UnitNamed)));
        }
        add_new(&mut names, &one.name)?;
    }
    Ok(names)
}

/// The units that a source uses and overlays, and what else its directives say.
#[tactic(auto, unfolding(crate::specs::Fronts::front_judged))]
pub(crate) fn front_judged(
    alloc: Global,
    says: &Directives,
    all: &[Identifier],
) -> Result<Front, Refusal>
    ensures { Gives (λ front. front) result (front_judged says.now all.now).run }
{
    let uses = uses_of(alloc, all)?;
    let overlaid = overlaid_of(alloc, says.overlaid.as_slice(), uses.as_slice())?;
    Ok(Front {
        uses,
        overlaid,
        stack: says.stack,
        heap: says.heap,
        overlayable: says.overlayable,
    })
}
