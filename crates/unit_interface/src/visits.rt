//! Units in the order in which a walk over their uses leaves them.

ghost use Rattle.std.specs.Prelude.{◌≡◌, [], IfOk, get_or, nat_eq};
ghost use Rattle.std.specs.List.{list_any};
ghost use Rattle.unit_interface.specs.Order.{no_progress, meet, finish, visit_each, visit};

use crate::edges::Places;
use std::alloc::{AllocError, Global};

/// The units that were met, and those that are finished, in order.
#[derive(Debug, Drop)]
pub(crate) struct Progress {
    pub met: Places,
    pub order: Places,
}

/// Whether a place is one of those that were met.
pub(crate) fn is_met(met: &[usize], place: usize) -> bool
    ensures { result ≡ list_any (nat_eq place) met.now }
{
    met.iter().any(|one| place == *one)
}

impl Progress {
    pub(crate) fn new(alloc: Global) -> Progress
        ensures { result ≡ no_progress }
    {
        Progress {
            met: Places::new(alloc),
            order: Places::new(alloc),
        }
    }

    fn meet(self, place: usize) -> Result<Progress, AllocError>
        ensures { IfOk result (λ progress. progress ≡ meet place self) }
    {
        let Progress { mut met, order } = self;
        met.push(place)?;
        Ok(Progress { met, order })
    }

    fn finish(self, place: usize) -> Result<Progress, AllocError>
        ensures { IfOk result (λ progress. progress ≡ finish place self) }
    {
        let Progress { met, mut order } = self;
        order.push(place)?;
        Ok(Progress { met, order })
    }
}

fn uses_of(edges: &[Places], place: usize) -> &[usize]
    ensures { result.now ≡ get_or edges.now place [] }
{
    match edges.get(place) {
        Some(uses) => uses.as_slice(),
        None => &[],
    }
}

/// Visits a unit that was not met: first the units that it uses, then itself. At most `room` units lie on the way.
#[cycle(visits)]
pub(crate) fn visit(
    edges: &[Places],
    progress: Progress,
    place: usize,
    room: usize,
) -> Result<Progress, AllocError>
    ensures { IfOk result (λ after. after ≡ visit room edges.now progress place) }
{
    if room == 0 || is_met(progress.met.as_slice(), place) {
        return Ok(progress);
    }
    let met = progress.meet(place)?;
    let visited = visit_each(edges, met, uses_of(edges, place), room - 1)?;
    visited.finish(place)
}

#[cycle(visits)]
fn visit_each(
    edges: &[Places],
    progress: Progress,
    places: &[usize],
    room: usize,
) -> Result<Progress, AllocError>
    ensures { IfOk result (λ after. after ≡ visit_each (visit room edges.now) progress places.now) }
{
    let mut progress = progress;
    for place in places {
        progress = visit(edges, progress, *place, room)?;
    }
    Ok(progress)
}
