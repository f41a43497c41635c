ghost use Rattle.std.specs.Prelude.{◌≡◌, ◌+◌, ◌≤◌, ◌<◌, [], ◌∷◌, ◌++◌, OnOk, length, vec_len};
ghost use Rattle.std.specs.List.{All};
ghost use Rattle.literal_programs.specs.literal_code.Act.{IsWithin};

use crate::literal_code::act::Act;
use std::alloc::{AllocError, Global};

/// The acts of a program, in order, and all bytes that they write.
///
/// The texts lie in the pool in the order of the acts.
#[derive(Debug, Drop)]
pub struct LiteralProgram {
    pub pool: Vec<u8>,
    pub acts: Vec<Act>,
    pub ghost pool_fits: { vec_len pool ≤ 8192 },
    pub ghost acts_fit: { vec_len acts ≤ 4096 },
    pub ghost within: { All (IsWithin (vec_len pool)) acts.items },
}

impl LiteralProgram {
    ghost use Rattle.literal_programs.specs.literal_code.LiteralProgram.{statements_of, IsFull};
    ghost use Rattle.literal_programs.specs.literal_code.Statement.{halt, write};

    /// A program that does nothing.
    pub fn new(alloc: Global) -> LiteralProgram
        ensures says { statements_of result ≡ [] }
        ensures full { IsFull result }
    {
        LiteralProgram {
            pool: Vec::new(alloc),
            acts: Vec::new(alloc),
        }
    }

    /// Adds an act that writes these bytes.
    pub fn write(&mut self, bytes: &[u8]) -> Result<(), AllocError>
        requires full { IsFull self.old }
        requires pool_room { vec_len self.old.pool + length bytes.now ≤ 8192 }
        requires acts_room { vec_len self.old.acts < 4096 }
        ensures says { OnOk result (statements_of self.new ≡ statements_of self.old ++ write bytes.now ∷ []) }
        ensures full { OnOk result (IsFull self.new) }
    {
        let act = Act::Write {
            from: self.pool.len() as u32,
            length: bytes.len() as u32,
        };
        self.pool.extend_from_slice(bytes)?;
        self.acts.push(act)?;
        Ok(())
    }

    /// Adds an act that ends the program.
    pub fn halt(&mut self, code: u8) -> Result<(), AllocError>
        requires full { IsFull self.old }
        requires acts_room { vec_len self.old.acts < 4096 }
        ensures says { OnOk result (statements_of self.new ≡ statements_of self.old ++ halt code ∷ []) }
        ensures full { OnOk result (IsFull self.new) }
    {
        self.acts.push(Act::Halt { code })?;
        Ok(())
    }
}
