//! The order of initialisation of the sources of a program.

ghost use Rattle.std.specs.Prelude.{◌≡◌, ℕ, ◌<◌, IfOk, IfErr, OnOk, length};
ghost use Rattle.unit_interface.specs.Uses.{interface_edges, all_edges};
ghost use Rattle.unit_interface.specs.Circles.{IsOnCircle};
ghost use Rattle.unit_interface.specs.Order.{start_order, IsCause, IsOrderFor};
ghost use Rattle.source_graph.specs.source_order.Orders.{names_of, uses_in, all_uses, AllInOrderLaw};

use crate::Source;
use std::alloc::{AllocError, Global};
use syntax_tree::Identifier;
use syntax_tree::source_tree::{interface_uses, uses_of};
use type_layout::Names;
use unit_interface::{Order, OrderError, UsesOf, initial_order};

fn names_of(alloc: Global, units: &[Identifier]) -> Result<Names, AllocError>
    ensures { IfOk result (λ names. names ≡ names_of units.now) }
{
    let mut names = Names::new(alloc);
    for unit in units {
        names.push(unit.name.copied())?;
    }
    Ok(names)
}

// The units that a source uses, by its two parts.
fn uses_in(alloc: Global, source: &Source) -> Result<UsesOf, AllocError>
    ensures { IfOk result (λ uses. uses ≡ uses_in source.now) }
{
    let uses = uses_of(&source.tree);
    let outer = interface_uses(&source.tree).min(uses.len());
    let interface = names_of(alloc, &uses[..outer])?;
    let implementation = names_of(alloc, &uses[outer..])?;
    Ok(UsesOf {
        name: source.name.copied(),
        interface,
        implementation,
    })
}

fn all_uses(alloc: Global, sources: &[Source]) -> Result<Vec<UsesOf>, AllocError>
    ensures { IfOk result (λ all. all.items ≡ all_uses sources.now) }
{
    let mut all = Vec::new(alloc);
    for source in sources {
        all.push(uses_in(alloc, source)?)?;
    }
    Ok(all)
}

/// The order in which the sources of a program are initialised, the program's own first in the list and last in the order: their
/// places in the list. Each stands behind the sources that it uses, those of its interface part before those of its implementation
/// part and each clause in order; but where the walk comes back to a source in which it stands, it goes on with the next one. There is none exactly where a source
/// lies on a circle of uses in interface parts, or where memory runs out.
pub fn source_order(alloc: Global, sources: &[Source]) -> Result<Order, OrderError>
    requires { 0 < length sources.now }
    ensures ok { IfOk result (λ order. order ≡ start_order (all_uses sources.now) 0) }
    ensures no_circle { OnOk result ((place : ℕ) → IsOnCircle (interface_edges (all_uses sources.now)) place → ⊥) }
    ensures cause { IfErr result (IsCause (all_uses sources.now)) }
    // No source stands in it twice, the program stands last, and with each source all that it uses.
    ensures order { IsOrderFor (all_edges (all_uses sources.now)) 0 (start_order (all_uses sources.now) 0) }
{
    let units = all_uses(alloc, sources)?;
    initial_order(alloc, units.as_slice(), 0)
}

/// All sources that were gathered for a program stand in the order; it does nothing.
pub fn all_in_order()
    ensures { AllInOrderLaw }
{}
