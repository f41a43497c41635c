//! The machine: registers, flags, a megabyte of memory, and what it decoded last.

ghost use Rattle.std.specs.Prelude.{◌≡◌, ◌<◌, IfOk, slice_index, slice_set};
ghost use Rattle.cpu_8086.specs.Accessors.{reg, with_reg, flag, with_flag, IsZeroed};

use crate::decoded::Decoded;
use crate::hardware::Hardware;
use crate::registers::{Flag, Reg};
use std::alloc::{AllocError, Global};
use std::marker::Model;

/// What one step did.
#[derive(Clone, Copy, PartialEq, Eq, Debug)]
pub enum Event {
    /// An instruction ran.
    Ran,
    /// INT with this number. IP stands past it, and nothing was pushed.
    Service(u8),
    /// A division by zero, or one whose quotient is too large. The machine is unchanged.
    Divide,
    /// The bytes at this place spell no instruction. The machine is unchanged.
    Unknown { cs: u16, ip: u16 },
}

/// An 8086 with a megabyte of memory.
#[derive(Drop)]
pub struct Machine {
    pub(crate) hardware: Hardware,
    /// What was decoded last at the addresses with the same low bits. It says nothing of memory, so code may be
    /// written over: whoever uses an entry compares its bytes.
    pub(crate) decoded: Vec<Decoded>,
}

impl Model for Machine {
    ghost use Rattle.cpu_8086.specs.State.{State};

    ghost Value = { State };

    ghost view = { λ a. a.hardware };
}

/// How many decoded instructions are kept.
pub(crate) const KEPT: usize = 4096;

/// A table of decoded instructions.
fn table(alloc: Global) -> Result<Vec<Decoded>, AllocError> {
    vec![in alloc; Decoded::far_return(); KEPT]
}

impl Machine {
    /// A machine whose registers, flags and bytes are all 0.
    pub fn new(alloc: Global) -> Result<Machine, AllocError>
        ensures { IfOk result IsZeroed }
    {
        let hardware = Hardware::new(alloc)?;
        let decoded = table(alloc)?;
        Ok(Machine { hardware, decoded })
    }

    /// Makes each register, flag and byte 0; takes no memory.
    pub fn clear(&mut self)
        ensures { IsZeroed self.new }
    {
        self.hardware.clear();
    }

    pub fn reg(&self, which: Reg) -> u16
        ensures { result ≡ reg self.now which }
    {
        self.hardware.reg(which)
    }

    pub fn set_reg(&mut self, which: Reg, value: u16)
        ensures { self.new ≡ with_reg self.old which value }
    {
        self.hardware.set_reg(which, value);
    }

    pub fn flag(&self, which: Flag) -> bool
        ensures { result ≡ flag self.now which }
    {
        self.hardware.flag(which)
    }

    pub fn set_flag(&mut self, which: Flag, value: bool)
        ensures { self.new ≡ with_flag self.old which value }
    {
        self.hardware.set_flag(which, value);
    }

    /// The byte at a linear address.
    pub fn byte(&self, at: u32) -> u8
        requires { at < 1048576 }
        ensures { result ≡ slice_index self.now.memory at }
    {
        self.hardware.byte(at as usize)
    }

    /// Puts a byte at a linear address.
    pub fn set_byte(&mut self, at: u32, value: u8)
        requires { at < 1048576 }
        ensures { self.new ≡ record self.old { memory = slice_set self.old.memory at value } }
    {
        self.hardware.set_byte(at as usize, value);
    }
}
