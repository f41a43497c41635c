//! The units that a unit uses, as places in a list of units.

ghost use Rattle.std.specs.Prelude.{◌≡◌, ◌++◌, IfOk, OnOk};
ghost use Rattle.unit_interface.specs.Uses.{place_of, places_of, interface_edges, all_edges};

use std::alloc::{AllocError, Global};
use type_layout::{Name, Names, Sequence};

/// A unit or a program, and the units of the uses clauses of its two parts. A program has them in the first.
#[derive(Debug, Drop)]
pub struct UsesOf {
    pub name: Name,
    pub interface: Names,
    pub implementation: Names,
}

/// Places in a list of units.
pub(crate) type Places = Sequence<usize>;

fn place_of(units: &[UsesOf], name: &Name) -> Option<usize>
    ensures { result ≡ place_of units.now name.now }
{
    units.iter().position(|unit| *name == unit.name)
}

// The places of those of these names that are units of the list.
fn add_places(units: &[UsesOf], names: &[Name], places: &mut Places) -> Result<(), AllocError>
    ensures { OnOk result (places.new ≡ places.old ++ places_of units.now names.now) }
{
    for name in names {
        if let Some(place) = place_of(units, name) {
            places.push(place)?;
        }
    }
    Ok(())
}

/// The units that each unit uses in its interface part.
pub(crate) fn interface_edges(alloc: Global, units: &[UsesOf]) -> Result<Vec<Places>, AllocError>
    ensures { IfOk result (λ edges. edges.items ≡ interface_edges units.now) }
{
    let mut edges = Vec::new(alloc);
    for unit in units {
        let mut places = Places::new(alloc);
        add_places(units, unit.interface.as_slice(), &mut places)?;
        edges.push(places)?;
    }
    Ok(edges)
}

/// The units that each unit uses, those of its interface part first.
pub(crate) fn all_edges(alloc: Global, units: &[UsesOf]) -> Result<Vec<Places>, AllocError>
    ensures { IfOk result (λ edges. edges.items ≡ all_edges units.now) }
{
    let mut edges = Vec::new(alloc);
    for unit in units {
        let mut places = Places::new(alloc);
        add_places(units, unit.interface.as_slice(), &mut places)?;
        add_places(units, unit.implementation.as_slice(), &mut places)?;
        edges.push(places)?;
    }
    Ok(edges)
}
