//! An instruction that was decoded, beside the bytes that it was decoded from.

ghost use Rattle.std.specs.Prelude.{◌≡◌, ◌++◌, drop, length};
ghost use Rattle.std.specs.Int.{w64, to_le_bytes};
ghost use Rattle.x86_table.specs.Spelling.{spelling};

use x86_table::Instr;

/// Eight bytes as a number whose low byte is the first, the instruction that they begin with, and its length.
#[derive(Clone, Copy)]
pub struct Decoded {
    pub bytes: u64,
    pub instr: Instr,
    pub count: u16,
    ghost length: { count ≡ length (spelling instr) },
    ghost spelled: { to_le_bytes w64 bytes ≡ spelling instr ++ drop count (to_le_bytes w64 bytes) },
}

impl Decoded {
    /// CB, a far return, and zeros.
    pub fn far_return() -> Decoded {
        Decoded {
            bytes: 0xcb,
            instr: Instr::RetFar,
            count: 1,
        }
    }
}
