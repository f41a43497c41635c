//! The registers but CS, and the flags.

/// A far pointer: an offset, and the segment that it lies in.
#[derive(Clone, Copy, PartialEq, Eq, Debug)]
pub struct Far {
    pub offset: u16,
    pub segment: u16,
}

/// A word register, a segment register or IP.
#[derive(Clone, Copy, PartialEq, Eq, Debug)]
pub enum Reg {
    Ax,
    Cx,
    Dx,
    Bx,
    Sp,
    Bp,
    Si,
    Di,
    Es,
    Cs,
    Ss,
    Ds,
    Ip,
}

/// A flag: CF, ZF, SF, OF or DF.
#[derive(Clone, Copy, PartialEq, Eq, Debug)]
pub enum Flag {
    Carry,
    Zero,
    Sign,
    Overflow,
    Direction,
}

/// The registers that an instruction computes with. CS is not among them: only far transfers change it, and what
/// segment code stands in is another matter where overlays move.
#[derive(Clone, Copy)]
pub struct Registers {
    pub ax: u16,
    pub cx: u16,
    pub dx: u16,
    pub bx: u16,
    pub sp: u16,
    pub bp: u16,
    pub si: u16,
    pub di: u16,
    pub es: u16,
    pub ss: u16,
    pub ds: u16,
    pub ip: u16,
    pub carry: bool,
    pub zeroed: bool,
    pub sign: bool,
    pub overflow: bool,
    pub direction: bool,
}
