//! The order of initialisation.

ghost use Rattle.std.specs.Prelude.{◌≡◌, ℕ, ◌<◌, IfOk, OnOk, IfErr, length};
ghost use Rattle.unit_interface.specs.Uses.{interface_edges, all_edges};
ghost use Rattle.unit_interface.specs.Circles.{IsOnCircle};
ghost use Rattle.unit_interface.specs.Order.{start_order, IsCause, IsOrderFor};

use crate::circles::first_circle;
use crate::edges::{UsesOf, all_edges, interface_edges};
use crate::visits::{Progress, visit};
use std::alloc::{AllocError, Global};
use type_layout::{Name, Sequence};

/// Places in a list of units, in order of initialisation.
pub type Order = Sequence<u32>;

/// Why there is no order.
#[derive(Debug, Drop)]
pub enum OrderError {
    /// The unit lies on a circle of interface uses.
    Circular { name: Name },
    /// There is no memory, or there are 2^32 units.
    NoMemory,
}

impl From<AllocError> for OrderError {
    ghost use Rattle.std.specs.Prelude.{◌≡◌};
    ghost use Rattle.unit_interface.specs.declared.order.OrderError.TheVariants.{NoMemory};

    ghost from_gives = { λ _ error. error ≡ NoMemory };

    fn from(_error: AllocError) -> OrderError {
        OrderError::NoMemory
    }
}

fn narrowed(alloc: Global, places: &[usize]) -> Result<Order, AllocError>
    ensures { IfOk result (λ order. order ≡ places.now) }
{
    let mut order = Order::new(alloc);
    for place in places {
        match u32::try_from(*place) {
            Ok(place) => order.push(place)?,
            Err(_) => return Err(AllocError),
        }
    }
    Ok(order)
}

fn ordered(alloc: Global, units: &[UsesOf], start: u32) -> Result<Order, AllocError>
    ensures { IfOk result (λ order. order ≡ start_order units.now start) }
{
    let edges = all_edges(alloc, units)?;
    let progress = visit(
        edges.as_slice(),
        Progress::new(alloc),
        start as usize,
        units.len(),
    )?;
    narrowed(alloc, progress.order.as_slice())
}

/// The order in which the units that `start` needs are initialised, it itself last. Each unit stands behind the units
/// that it uses, those of the interface part before those of the implementation part and each clause in order; but where
/// the walk comes back to a unit in which it stands, it goes on with the next one. Names that are no unit of the list are passed over too.
pub fn initial_order(alloc: Global, units: &[UsesOf], start: u32) -> Result<Order, OrderError>
    requires { start < length units.now }
    ensures ok { IfOk result (λ order. order ≡ start_order units.now start) }
    ensures no_circle { OnOk result ((place : ℕ) → IsOnCircle (interface_edges units.now) place → ⊥) }
    ensures cause { IfErr result (IsCause units.now) }
    ensures order { IsOrderFor (all_edges units.now) start (start_order units.now start) }
{
    let edges = interface_edges(alloc, units)?;
    let circle = first_circle(alloc, edges.as_slice())?;
    match circle {
        Some(place) => Err(OrderError::Circular {
            name: units[place].name.copied(),
        }),
        None => Ok(ordered(alloc, units, start)?),
    }
}
