//! The instructions of the 8086 subset, and their bytes.
#![tactic(auto)]

mod assembly;
mod body;
mod codes;
mod decoding;
mod encoding;
mod instr;
mod label;
mod laws;
mod line;
mod operand;
mod read;
mod relaxation;
mod row;

pub use assembly::{AsmError, Code, assemble, is_small};
pub use decoding::decode;
pub use encoding::encode;
pub use instr::{
    AluOp, Cond, Count, Form, Immediate, Instr, Pair, ShiftOp, ShortOp, Target, UnaryOp, Width,
};
pub use laws::{landing_law, spelling_law, standing_law};
pub use line::{CodeBytes, CodePlaces, Line, LineList};
pub use operand::{
    Base, ByteOperand, ByteReg, DataSeg, IndirectBase, Memory, Place, SegReg, WordOperand, WordReg,
};
pub use relaxation::relax;
