//! The classes of a table, and the routine of each slot.

ghost use Rattle.std.specs.Prelude.{◌≡◌, ◌<◌, ◌↔◌, IsTrue, Some, None, length};
ghost use Rattle.std.specs.Option.{option_map_or};
ghost use Rattle.object_vmt.specs.Members.{members_in};
ghost use Rattle.object_vmt.specs.Slots.{slots_of, method_at};

use crate::Class;
use std::marker::Model;
use type_layout::{RoutineId, TypeId};

/// The class of each type of a table.
#[derive(Debug, Drop)]
pub struct Classes {
    classes: Vec<Class>,
}

impl Model for Classes {
    ghost use Rattle.std.specs.Prelude.{List};
    ghost use Rattle.object_vmt.specs.Members.{Members};

    ghost Value = { List Members };

    ghost view = { λ c. c.classes.items };
}

impl Classes {
    /// These classes, which takes no memory.
    pub(crate) fn from_vec(classes: Vec<Class>) -> Classes
        ensures { result ≡ classes.items }
    {
        Classes { classes }
    }

    /// Whether there is a type with this id.
    pub fn has(&self, id: TypeId) -> bool
        ensures { IsTrue result ↔ (id.0 < length self.now) }
    {
        (id.0 as usize) < self.classes.len()
    }

    /// The class of a type. A type that is no object has one without members.
    pub fn class(&self, id: TypeId) -> &Class
        requires { id.0 < length self.now }
        ensures { result.now ≡ members_in self.now id }
    {
        &self.classes.as_slice()[id.0 as usize]
    }

    /// The number of virtual slots of a class.
    pub fn slots(&self, class: TypeId) -> u32
        requires { class.0 < length self.now }
        ensures { result ≡ length (slots_of (members_in self.now class).methods) }
    {
        self.class(class).slots()
    }

    /// The routine of a virtual slot: of the class's line, the nearest declaration of the method that took the slot.
    pub fn method_of(&self, class: TypeId, slot: u32) -> RoutineId
        requires known { class.0 < length self.now }
        requires taken { slot < length (slots_of (members_in self.now class).methods) }
        ensures { option_map_or (λ method. Some method.routine) (method_at (members_in self.now class) slot) None ≡ Some result }
    {
        self.class(class).method_at(slot).routine
    }
}
