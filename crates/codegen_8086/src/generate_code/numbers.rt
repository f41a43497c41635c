//! The labels of a body, and the routines whose far pointers are stored.

ghost use Rattle.std.specs.Prelude.{◌≡◌, ◌+◌, ◌<◌, ◌^◌, [], length, IfOk, OnOk, slice_index_or};
ghost use Rattle.codegen_8086.specs.generate_code.Numbering.{begun, past, inside, outside, with_stored};

use std::alloc::{AllocError, Global};
use std::collections::VecDeque;
use std::marker::Model;
use type_layout::RoutineId;

/// The labels of a body: its end, the ends of the loops around, the innermost first, and the first one that is free; and the
/// routines of which a far pointer was stored, by the bodies before too.
#[derive(Drop)]
pub struct Numbers {
    home: u32,
    ends: VecDeque<u32>,
    label: u32,
    stored: Vec<RoutineId>,
}

impl Model for Numbers {
    ghost use Rattle.codegen_8086.specs.generate_code.Numbering.{Numbering};

    ghost Value = { Numbering };

    ghost view = { λ n. record { around = record { home = n.home; ends = n.ends.items }; label = n.label; stored = n.stored.items } };
}

impl Numbers {
    /// The labels at the start of the first body of a unit with so many routines, whose own labels are the first ones. Labels
    /// that pass the numbers of 32 bits are answered as out of memory.
    pub fn new(alloc: Global, routines: usize) -> Result<Numbers, AllocError>
        ensures { IfOk result (λ numbers. numbers ≡ begun routines []) }
    {
        if routines >= 0xffff_ffff {
            return Err(AllocError);
        }
        let home = routines as u32;
        Ok(Numbers {
            home,
            ends: VecDeque::new(alloc),
            label: home + 1,
            stored: Vec::new(alloc),
        })
    }

    /// The same at the start of the next body.
    pub fn begin(&mut self) -> Result<(), AllocError>
        ensures { OnOk result (self.new ≡ begun self.old.around.home self.old.stored) }
    {
        self.label = self.home.checked_add(1).ok_or(AllocError)?;
        self.ends.clear();
        Ok(())
    }

    /// The routines whose far pointers were stored.
    pub fn stored(&self) -> &[RoutineId]
        ensures { result.now ≡ self.now.stored }
    {
        self.stored.as_slice()
    }

    // Takes so many labels, and answers the first of them.
    pub(crate) fn next(&mut self, count: u32) -> Result<u32, AllocError>
        ensures first { IfOk result (λ first. first ≡ self.old.label) }
        ensures past { OnOk result (self.new ≡ past self.old count) }
        ensures room { OnOk result (self.old.label + count < 2 ^ 32) }
    {
        let first = self.label;
        self.label = first.checked_add(count).ok_or(AllocError)?;
        Ok(first)
    }

    // Takes the next datum for the far pointer of a routine, behind so many others of the unit, and answers its number.
    pub(crate) fn store(&mut self, globals: usize, routine: RoutineId) -> Result<u32, AllocError>
        ensures datum { IfOk result (λ datum. datum ≡ globals + length self.old.stored) }
        ensures stored { OnOk result (self.new ≡ with_stored self.old routine) }
    {
        let datum = globals.checked_add(self.stored.len()).ok_or(AllocError)?;
        if datum >= 0x1_0000_0000 {
            return Err(AllocError);
        }
        self.stored.push(routine)?;
        Ok(datum as u32)
    }

    pub(crate) fn enter_loop(&mut self, end: u32) -> Result<(), AllocError>
        ensures { OnOk result (self.new ≡ inside self.old end) }
    {
        self.ends.push_front(end)?;
        Ok(())
    }

    pub(crate) fn leave_loop(&mut self)
        ensures { self.new ≡ outside self.old }
    {
        self.ends.pop_front();
    }

    // The label of the end of the body.
    pub(crate) fn home(&self) -> u32
        ensures { result ≡ self.now.around.home }
    {
        self.home
    }

    // The label of the end of a loop, so many loops out from the innermost one.
    pub(crate) fn end_of(&self, outward: u16) -> u32
        ensures { result ≡ slice_index_or self.now.around.ends outward self.now.around.home }
    {
        match self.ends.get(usize::from(outward)) {
            Some(end) => *end,
            None => self.home,
        }
    }
}
