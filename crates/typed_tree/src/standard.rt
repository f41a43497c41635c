//! The standard routines by their numbers: what a predeclared name means, what a call's node says, and what the rules and the
//! meaning tell the routines by.

pub const ABS: u32 = 0;

pub const SQR: u32 = 1;

pub const ODD: u32 = 2;

pub const ORD: u32 = 3;

pub const CHR: u32 = 4;

pub const SUCC: u32 = 5;

pub const PRED: u32 = 6;

pub const INC: u32 = 7;

pub const DEC: u32 = 8;

pub const HI: u32 = 9;

pub const LO: u32 = 10;

pub const SWAP: u32 = 11;

pub const SIZE_OF: u32 = 12;

pub const UP_CASE: u32 = 13;

pub const LENGTH: u32 = 14;

pub const COPY: u32 = 15;

pub const DELETE: u32 = 16;

pub const INSERT: u32 = 17;

pub const CONCAT: u32 = 18;

pub const POS: u32 = 19;

pub const STR: u32 = 20;

pub const VAL: u32 = 21;

pub const WRITE: u32 = 22;

pub const WRITE_LN: u32 = 23;

pub const READ: u32 = 24;

pub const READ_LN: u32 = 25;

pub const EOF: u32 = 26;

pub const EOLN: u32 = 27;

pub const NEW: u32 = 28;

pub const DISPOSE: u32 = 29;

pub const HALT: u32 = 30;

pub const EXIT: u32 = 31;
