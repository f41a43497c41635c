/// What a program of literals does at one of its steps.
#[derive(Clone, Copy, Debug, PartialEq, Eq)]
pub enum Act {
    /// Writes `length` bytes of the program's pool, from the byte at `from` on.
    Write { from: u32, length: u32 },
    /// Ends the program with this code.
    Halt { code: u8 },
}
