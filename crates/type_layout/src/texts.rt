//! The names of files, and places in texts.

ghost use Rattle.std.specs.Prelude.{⊤, ◌≡◌, ◌≤◌, ◌↔◌, IsTrue, IsSome, IfSome, length, IsUtf8};

use arrayvec::ArrayVec;
use std::alloc::AllocError;
use std::marker::Model;
use std::str;

/// The bytes of the longest file name.
pub const FILE_NAME_LEN: usize = 80;

/// The name of a file: text of at most 80 bytes.
#[derive(Debug, PartialEq, Eq, Hash, Drop)]
pub struct FileName {
    bytes: ArrayVec<u8, FILE_NAME_LEN>,
}

impl Model for FileName {
    ghost use Rattle.std.specs.Prelude.{ℕ, List, IsUtf8};

    ghost Value = { List ℕ };

    ghost view = { λ name. name.bytes.items };

    ghost invariant = { λ name. ∥ IsUtf8 name.bytes.items ∥₁ };

    ghost inverse = { λ bytes. record { bytes = record { items = bytes } } };
}

impl FileName {
    /// The file name that this text is, where it is short enough.
    pub fn new(text: &str) -> Option<FileName>
        ensures variant { IsSome result ↔ (length text.now ≤ FILE_NAME_LEN) }
        ensures value { IfSome result (λ name. name ≡ text.now) }
    {
        match ArrayVec::try_from(text.as_bytes()) {
            Ok(bytes) => Some(FileName { bytes }),
            Err(_) => None,
        }
    }

    /// The bytes of the name.
    pub fn as_bytes(&self) -> &[u8]
        ensures value { result.now ≡ self.now }
        ensures short { length self.now ≤ FILE_NAME_LEN }
    {
        self.bytes.as_slice()
    }

    /// The text of the name.
    pub fn as_str(&self) -> &str
        ensures { result.now ≡ self.now }
    {
        match str::from_utf8(self.bytes.as_slice()) {
            Ok(text) => text,
            Err(_) => unreachable!(),
        }
    }

    /// A copy, which takes no memory.
    pub fn copied(&self) -> FileName
        ensures { result ≡ self.now }
    {
        match ArrayVec::try_from(self.bytes.as_slice()) {
            Ok(bytes) => FileName { bytes },
            Err(_) => unreachable!(),
        }
    }

    /// Whether the two are one name, byte by byte.
    pub fn is(&self, other: &FileName) -> bool
        ensures { IsTrue result ↔ (self.now ≡ other.now) }
    {
        *self == *other
    }
}

impl Clone for FileName {
    ghost is_clone = { λ name copy. copy ≡ name };

    ghost is_infallible = { λ _. ⊤ };

    fn clone(&self) -> Result<FileName, AllocError> {
        Ok(self.copied())
    }
}

/// A place in a source: the number of its text among those that were read, then line and column, which count from 1.
#[derive(Clone, Copy, Debug, PartialEq, Eq, PartialOrd, Ord, Hash)]
pub struct Place {
    pub text: u32,
    pub line: u32,
    pub column: u32,
}

impl Place {
    /// Whether the two are one place.
    pub fn is(self, other: Place) -> bool
        ensures { IsTrue result ↔ (self ≡ other) }
    {
        self == other
    }
}
