//! The cells of memory and where they lie: the machine's own addresses, of which only some can be reached.

ghost use Rattle.std.specs.Prelude.{◌≡◌, ◌<◌};
ghost use Rattle.flat_code.specs.Memory.{address_of, place_after};

/// A byte of data, heap or a live activation, known or unset; every other one is outside.
#[derive(Clone, Copy, Debug, PartialEq, Eq)]
pub enum Cell {
    Known(u8),
    Unset,
    Outside,
}

/// A far pointer, or where one leads.
#[derive(Clone, Copy, Debug, PartialEq, Eq)]
pub struct Place {
    pub segment: u16,
    pub offset: u16,
}

/// Why a value was not found.
#[derive(Clone, Copy, Debug, PartialEq, Eq)]
pub enum Trap {
    /// A division by zero.
    ByZero,
    /// An act that the language leaves open: 1 reads what is unset, 2 reads or writes outside.
    Bad(u8),
}

/// The bytes that an address can name.
pub const ADDRESSES: usize = 0x10_0000;

impl Place {
    /// The address of the byte that lies `i` bytes after the place; offsets wrap in the segment.
    pub fn address(self, i: u16) -> usize
        ensures value { result ≡ address_of self i }
        ensures small { result < 1048576 }
    {
        (16 * usize::from(self.segment) + usize::from(self.offset.wrapping_add(i))) % ADDRESSES
    }

    /// The place some bytes further on in the segment.
    pub fn after(self, bytes: u16) -> Place
        ensures { result ≡ place_after self bytes }
    {
        Place {
            segment: self.segment,
            offset: self.offset.wrapping_add(bytes),
        }
    }
}
