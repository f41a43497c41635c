//! Registers, flags and a megabyte of memory.

ghost use Rattle.std.specs.Prelude.{◌≡◌, ℕ, ◌<◌, IfOk, length, slice_index, slice_set};
ghost use Rattle.cpu_8086.specs.Accessors.{reg, with_reg, flag, with_flag, zero_registers, IsZeroed};

use crate::registers::{Flag, Reg, Registers};
use std::alloc::{AllocError, Global};
use std::marker::Model;

/// What instructions compute with: all of the machine but for the table of what it decoded.
#[derive(Drop)]
pub struct Hardware {
    pub(crate) registers: Registers,
    pub(crate) cs: u16,
    pub(crate) memory: Vec<u8>,
}

impl Model for Hardware {
    ghost use Rattle.std.specs.Prelude.{◌≡◌, length};
    ghost use Rattle.cpu_8086.specs.State.{State};

    ghost Value = { State };

    ghost view = { λ a. record { registers = a.registers; cs = a.cs; memory = a.memory.items } };

    ghost invariant = { λ a. length a.memory.items ≡ 1048576 };
}

/// That many bytes, each 0.
fn zeros(alloc: Global, count: usize) -> Result<Vec<u8>, AllocError>
    ensures size { IfOk result (λ v. length v.items ≡ count) }
    ensures zeros { IfOk result (λ v. (k : ℕ) → slice_index v.items k ≡ 0) }
{
    vec![in alloc; 0; count]
}

impl Registers {
    /// Registers and flags of zeros.
    fn zeros() -> Registers
        ensures { result ≡ zero_registers }
    {
        Registers {
            ax: 0,
            cx: 0,
            dx: 0,
            bx: 0,
            sp: 0,
            bp: 0,
            si: 0,
            di: 0,
            es: 0,
            ss: 0,
            ds: 0,
            ip: 0,
            carry: false,
            zeroed: false,
            sign: false,
            overflow: false,
            direction: false,
        }
    }
}

/// Makes each byte 0.
fn wipe(bytes: &mut [u8])
    ensures { (k : ℕ) → slice_index bytes.new k ≡ 0 }
{
    bytes.fill(0);
}

impl Hardware {
    /// Registers, flags and bytes of zeros.
    pub fn new(alloc: Global) -> Result<Hardware, AllocError>
        ensures { IfOk result IsZeroed }
    {
        let memory = zeros(alloc, 0x10_0000)?;
        Ok(Hardware {
            registers: Registers::zeros(),
            cs: 0,
            memory,
        })
    }

    pub fn clear(&mut self)
        ensures { IsZeroed self.new }
    {
        self.registers = Registers::zeros();
        self.cs = 0;
        wipe(&mut self.memory);
    }

    pub fn reg(&self, which: Reg) -> u16
        ensures { result ≡ reg self.now which }
    {
        match which {
            Reg::Ax => self.registers.ax,
            Reg::Cx => self.registers.cx,
            Reg::Dx => self.registers.dx,
            Reg::Bx => self.registers.bx,
            Reg::Sp => self.registers.sp,
            Reg::Bp => self.registers.bp,
            Reg::Si => self.registers.si,
            Reg::Di => self.registers.di,
            Reg::Es => self.registers.es,
            Reg::Cs => self.cs,
            Reg::Ss => self.registers.ss,
            Reg::Ds => self.registers.ds,
            Reg::Ip => self.registers.ip,
        }
    }

    pub fn set_reg(&mut self, which: Reg, value: u16)
        ensures { self.new ≡ with_reg self.old which value }
    {
        match which {
            Reg::Ax => self.registers.ax = value,
            Reg::Cx => self.registers.cx = value,
            Reg::Dx => self.registers.dx = value,
            Reg::Bx => self.registers.bx = value,
            Reg::Sp => self.registers.sp = value,
            Reg::Bp => self.registers.bp = value,
            Reg::Si => self.registers.si = value,
            Reg::Di => self.registers.di = value,
            Reg::Es => self.registers.es = value,
            Reg::Cs => self.cs = value,
            Reg::Ss => self.registers.ss = value,
            Reg::Ds => self.registers.ds = value,
            Reg::Ip => self.registers.ip = value,
        }
    }

    pub fn flag(&self, which: Flag) -> bool
        ensures { result ≡ flag self.now which }
    {
        match which {
            Flag::Carry => self.registers.carry,
            Flag::Zero => self.registers.zeroed,
            Flag::Sign => self.registers.sign,
            Flag::Overflow => self.registers.overflow,
            Flag::Direction => self.registers.direction,
        }
    }

    pub fn set_flag(&mut self, which: Flag, value: bool)
        ensures { self.new ≡ with_flag self.old which value }
    {
        match which {
            Flag::Carry => self.registers.carry = value,
            Flag::Zero => self.registers.zeroed = value,
            Flag::Sign => self.registers.sign = value,
            Flag::Overflow => self.registers.overflow = value,
            Flag::Direction => self.registers.direction = value,
        }
    }

    /// The byte at a linear address.
    pub fn byte(&self, at: usize) -> u8
        requires { at < 1048576 }
        ensures { result ≡ slice_index self.now.memory at }
    {
        self.memory[at]
    }

    /// Puts a byte at a linear address.
    pub fn set_byte(&mut self, at: usize, value: u8)
        requires { at < 1048576 }
        ensures { self.new ≡ record self.old { memory = slice_set self.old.memory at value } }
    {
        self.memory[at] = value;
    }
}
