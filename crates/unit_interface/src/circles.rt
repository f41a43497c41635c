//! Units that lie on a circle.

ghost use Rattle.std.specs.Prelude.{◌≡◌, ℕ, ◌<◌, true, false, map, IfOk, IfSome, IfNone, length, get_or};
ghost use Rattle.unit_interface.specs.Circles.{leads, reach, returns};

use crate::edges::Places;
use std::alloc::{AllocError, Global};

fn is_set(flags: &[bool], place: usize) -> bool
    ensures { result ≡ get_or flags.now place false }
{
    match flags.get(place) {
        Some(flag) => *flag,
        None => false,
    }
}

// Whether one of these units is the target or leads there.
fn leads(before: &[bool], target: usize, uses: &[usize]) -> bool
    ensures { result ≡ leads before.now target uses.now }
{
    for one in uses {
        if *one == target || is_set(before, *one) {
            return true;
        }
    }
    false
}

// The units that lead to the target by one step more.
fn one_step_more(
    alloc: Global,
    edges: &[Places],
    target: usize,
    before: &[bool],
) -> Result<Vec<bool>, AllocError>
    ensures { IfOk result (λ after. after.items ≡ map (leads before.now target) edges.now) }
{
    let mut after = Vec::new(alloc);
    for uses in edges {
        after.push(leads(before, target, uses.as_slice()))?;
    }
    Ok(after)
}

// Whether a unit leads to itself in at most as many steps as there are units.
fn returns(alloc: Global, edges: &[Places], place: usize) -> Result<bool, AllocError>
    ensures { IfOk result (λ found. found ≡ returns edges.now place) }
{
    let mut reach = Vec::new(alloc);
    for _round in 0..edges.len() {
        reach = one_step_more(alloc, edges, place, reach.as_slice())?;
    }
    Ok(is_set(reach.as_slice(), place))
}

/// The first unit that leads to itself.
pub(crate) fn first_circle(alloc: Global, edges: &[Places]) -> Result<Option<usize>, AllocError>
    ensures found { IfOk result (λ first. IfSome first (λ place. (place < length edges.now) × (returns edges.now place ≡ true))) }
    ensures none { IfOk result (λ first. IfNone first ((place : ℕ) → place < length edges.now → returns edges.now place ≡ false)) }
{
    for place in 0..edges.len() {
        if returns(alloc, edges, place)? {
            return Ok(Some(place));
        }
    }
    Ok(None)
}
