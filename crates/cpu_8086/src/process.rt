//! Why a process was stopped.

/// Why a process was stopped at an instruction. The last two come only where overlays are managed.
#[derive(Clone, Copy, PartialEq, Eq, Debug)]
pub enum Why {
    /// The bytes spell no instruction.
    Opcode,
    /// A division by zero, or one whose quotient is too large.
    Divide,
    /// An interrupt that is no service.
    Interrupt(u8),
    /// A DOS function, named by AH, that is not there.
    Function(u8),
    /// An overlay trap that stands in no stub.
    NoStub,
    /// A chain of frames that doesn't rise, at this BP.
    BadChain(u16),
    /// An overlay file that ends before this overlay's code does.
    ShortOverlay(u16),
}
