//! How the bytes of variables are reached, and where slots lie.

ghost use Rattle.std.specs.Prelude.{◌≡◌, ◌+◌, ◌-◌, ◌-ℤ◌, ◌≤◌, ◌^◌, pos, Some, IfOk, OnErr, option_and_then, slice_get};
ghost use Rattle.std.specs.Option.{option_map};
ghost use Rattle.typed_tree.specs.Expressions.{view_place};
ghost use Rattle.flat_code.specs.declared.tree.Address.TheVariants as address;
ghost use Rattle.tp_meaning.specs.Activations.{first_held};
ghost use Rattle.lower_places.specs.Frames.{return_bytes, home_of};
ghost use Rattle.lower_places.specs.Scenes.{view_scene, routine_around};
ghost use Rattle.lower_places.specs.Reaches.{further, slot_below, own_reach, outer_reach, held_reach, inner_reach, outer_reach_in, reach_of, is_self_by_level, is_self};

use crate::homes::{Home, home_of, is_self};
use crate::records::from_bp;
use crate::scene::{FIRST_HELD, Scene};
use crate::sizes::return_bytes;
use flat_code::Address;
use std::alloc::AllocError;
use typed_tree::{PlaceExpr, Routine, Variable};

/// How the bytes of a place are reached.
#[derive(Clone, Copy, Debug, PartialEq, Eq)]
pub enum Reach {
    /// They lie there.
    At(Address),
    /// A far pointer to them lies there, in the record of another activation.
    Beyond(Address),
}

/// So many bytes further on.
pub fn further(at: Address, bytes: u16) -> Result<Address, AllocError>
    ensures { IfOk result (λ moved. moved ≡ further at bytes) }
{
    match at {
        Address::Global { unit, number, plus } => {
            let plus = plus.checked_add(bytes).ok_or(AllocError)?;
            Ok(Address::Global { unit, number, plus })
        }
        Address::Local(at) => {
            Ok(Address::Local(at.checked_add(i32::from(bytes)).ok_or(AllocError)?))
        }
        Address::Outer { levels, at } => {
            let at = at.checked_add(i32::from(bytes)).ok_or(AllocError)?;
            Ok(Address::Outer { levels, at })
        }
        Address::Through { slot, plus } => {
            let plus = plus.checked_add(bytes).ok_or(AllocError)?;
            Ok(Address::Through { slot, plus })
        }
    }
}

// What lies so far from BP in the activation of a routine, seen from its link word.
fn from_link(routine: &Routine, levels: u8, at: i32) -> Result<Address, AllocError>
    ensures { IfOk result (λ seen. seen ≡ address.Outer levels (at -ℤ pos (return_bytes routine.now))) }
{
    let links = return_bytes(routine) as i32;
    let at = at.checked_sub(links).ok_or(AllocError)?;
    Ok(Address::Outer { levels, at })
}

impl<'a> Scene<'a> {
    /// How far from BP a slot of so many bytes lies, behind so many others of the evaluation stack.
    pub fn slot_at(&self, slot: u32, bytes: u32) -> Result<i32, AllocError>
        ensures value { IfOk result (λ at. at ≡ slot_below self.now.locals slot bytes) }
        ensures cause { OnErr result (2 ^ 31 ≤ self.now.locals + slot + bytes) }
    {
        let before = self.locals.checked_add(slot).ok_or(AllocError)?;
        let depth = before.checked_add(bytes).ok_or(AllocError)?;
        from_bp(0, depth)
    }

    // A variable of the routine itself.
    #[tactic(auto, using(crate::proofs::Reached::own_in, crate::proofs::Reached::own_behind))]
    fn reach_own(&self, number: u32) -> Result<Reach, AllocError>
        ensures { IfOk result (λ reach. option_map (own_reach self.now.unit.now.types.types self.now.routine.now) (home_of self.now.unit.now.types.types self.now.routine.now number) ≡ Some reach) }
    {
        match home_of(&self.unit.types, self.routine, number)? {
            Home::In(at) => Ok(Reach::At(Address::Local(at))),
            Home::Behind(slot) => Ok(Reach::At(Address::Through { slot, plus: 0 })),
        }
    }

    // What an open `with` holds.
    #[tactic(auto, using(crate::proofs::Reached::held_by))]
    fn reach_held(&self, number: u32) -> Result<Reach, AllocError>
        ensures { IfOk result (λ reach. option_map (held_reach (view_scene self.now)) (slice_get (view_scene self.now).withs (number - first_held)) ≡ Some reach) }
    {
        let slot = self.slot_at(self.held(number)?.slot, 4)?;
        Ok(Reach::At(Address::Through { slot, plus: 0 }))
    }

    // A variable of a routine round it.
    #[tactic(auto, using(crate::proofs::Reached::outer_in, crate::proofs::Reached::outer_behind))]
    fn reach_in(&self, routine: &Routine, links: u8, number: u32) -> Result<Reach, AllocError>
        ensures { IfOk result (λ reach. outer_reach_in self.now.unit.now.types.types links number routine.now ≡ Some reach) }
    {
        match home_of(&self.unit.types, routine, number)? {
            Home::In(at) => Ok(Reach::At(from_link(routine, links, at)?)),
            Home::Behind(at) => Ok(Reach::Beyond(from_link(routine, links, at)?)),
        }
    }

    // A variable of the routine that so many links lead to.
    fn reach_outer(&self, links: u32, number: u32) -> Result<Reach, AllocError>
        ensures { IfOk result (λ reach. option_and_then (outer_reach_in self.now.unit.now.types.types links number) (routine_around self.now.unit.now self.now.routine.now links) ≡ Some reach) }
    {
        if links > 255 {
            return Err(AllocError);
        }
        let routine = self.routine_around(links)?;
        self.reach_in(routine, links as u8, number)
    }

    // A variable of the routine itself, or what an open `with` holds.
    fn reach_inner(&self, number: u32) -> Result<Reach, AllocError>
        ensures { IfOk result (λ reach. inner_reach (view_scene self.now) number ≡ Some reach) }
    {
        if number < FIRST_HELD {
            self.reach_own(number)
        } else {
            self.reach_held(number)
        }
    }

    /// How the bytes of a variable are reached.
    #[tactic(auto, using(crate::proofs::Reached::global_level, crate::proofs::Reached::inner_level, crate::proofs::Reached::outer_level))]
    pub fn reach_of(&self, variable: Variable) -> Result<Reach, AllocError>
        ensures { IfOk result (λ reach. reach_of (view_scene self.now) variable ≡ Some reach) }
    {
        if variable.level == 0 {
            return Ok(Reach::At(Address::Global {
                unit: variable.unit,
                number: variable.number,
                plus: 0,
            }));
        }
        if variable.level == 1 {
            return self.reach_inner(variable.number);
        }
        self.reach_outer(variable.level - 1, variable.number)
    }

    // Whether a variable is Self of a method.
    #[tactic(auto, using(crate::proofs::Reached::self_level))]
    fn is_self_variable(&self, variable: Variable) -> Result<bool, AllocError>
        ensures { IfOk result (λ own. own ≡ is_self_by_level (view_scene self.now) variable.level variable.number) }
    {
        if variable.level == 0 {
            return Ok(false);
        }
        let routine = self.routine_around(variable.level - 1)?;
        Ok(is_self(routine, variable.number))
    }

    /// Whether a place is Self of a method.
    pub fn is_self(&self, place: &PlaceExpr) -> Result<bool, AllocError>
        ensures { IfOk result (λ own. own ≡ is_self (view_scene self.now) (view_place place.now)) }
    {
        match place {
            PlaceExpr::Var(variable) => self.is_self_variable(*variable),
            PlaceExpr::Deref { .. } | PlaceExpr::Index { .. } | PlaceExpr::FieldOf { .. } => Ok(
                false,
            ),
        }
    }
}
