//! The limits that routines keep.

ghost use Rattle.std.specs.Prelude.{◌≡◌, ◌<◌, false, length, slice_get};
ghost use Rattle.std.specs.Option.{option_map_or};
ghost use Rattle.typed_tree.specs.declared.units.Routine.{Routine as TypedRoutine};
ghost use Rattle.typed_tree.specs.Frames.{link_bytes};
ghost use Rattle.lowerable.specs.Limits.{fits, nests};

use typed_tree::{Routine, Unit, frame_of, own_bytes};

// The most bytes of arguments of a routine.
const ARGUMENT_LIMIT: u64 = 256;

// The most bytes that a routine takes for itself.
const OWN_LIMIT: u64 = 65_000;

// The bytes of static link, return address and the caller's BP.
fn link_bytes(routine: &Routine) -> u64
    ensures { result ≡ link_bytes routine.now }
{
    let link = if routine.outer.is_some() { 2u64 } else { 0 };
    let return_address = if routine.far { 4u64 } else { 2 };
    link + (return_address + 2)
}

/// Whether the arguments of a routine and what it takes for itself keep their limits.
#[tactic(auto, using(crate::proofs::Bounds::fits_so))]
pub fn fits(unit: &Unit, number: u32) -> bool
    requires { number < length unit.now.routines }
    ensures { result ≡ option_map_or (λ (routine : TypedRoutine). fits unit.now.types.types routine) (slice_get unit.now.routines number) false }
{
    let routine = &unit.routines.as_slice()[number as usize];
    let own = own_bytes(&unit.types, routine);
    own <= OWN_LIMIT && frame_of(unit, number) <= ARGUMENT_LIMIT + link_bytes(routine) + own
}

/// Whether at most so many routines stand round one whose next one is this.
#[tactic(auto, using(crate::proofs::Bounds::nests_more))]
pub fn nests(routines: &[Routine], most: u32, outer: Option<u32>) -> bool
    ensures { result ≡ nests routines.now most outer }
{
    match outer {
        None => true,
        Some(number) => {
            if most == 0 {
                false
            } else {
                match routines.get(number as usize) {
                    None => false,
                    Some(routine) => nests(routines, most - 1, routine.outer),
                }
            }
        }
    }
}
