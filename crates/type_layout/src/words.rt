//! Names.

ghost use Rattle.std.specs.Prelude.{⊤, ◌≡◌, ◌≤◌, ◌<◌, ◌&&◌, ◌==◌, ◌↔◌, IsTrue, IsSome, IfSome, length, take, map};
ghost use Rattle.std.specs.List.{list_all};
ghost use Rattle.std.specs.Char.{to_ascii_uppercase};
ghost use Rattle.type_layout.specs.Words.{is_name_byte, has_name_length, is_name, IsName, spelled_by};

use arrayvec::ArrayVec;
use std::alloc::AllocError;
use std::marker::Model;

/// The bytes of the longest name.
pub const NAME_LEN: usize = 63;

/// A name of the language, in upper case: 1 to 63 of the bytes `A` to `Z`, `_` and `0` to `9`, the first of them no digit.
#[derive(Debug, PartialEq, Eq, Hash, Drop)]
pub struct Name {
    bytes: ArrayVec<u8, NAME_LEN>,
}

impl Model for Name {
    ghost use Rattle.std.specs.Prelude.{ℕ, List};
    ghost use Rattle.type_layout.specs.Words.{IsName};

    ghost Value = { List ℕ };

    ghost view = { λ name. name.bytes.items };

    ghost invariant = { λ name. IsName name.bytes.items };

    ghost inverse = { λ bytes. record { bytes = record { items = bytes } } };
}

impl Clone for Name {
    ghost is_clone = { λ name copy. copy ≡ name };

    ghost is_infallible = { λ _. ⊤ };

    fn clone(&self) -> Result<Name, AllocError> {
        Ok(self.copied())
    }
}

fn is_name_byte(byte: u8) -> bool
    ensures { result ≡ is_name_byte byte }
{
    byte.is_ascii_uppercase() || byte == b'_' || byte.is_ascii_digit()
}

fn are_name_bytes(text: &[u8]) -> bool
    ensures { result ≡ list_all is_name_byte text.now }
{
    text.iter().all(|byte| is_name_byte(*byte))
}

fn has_name_length(text: &[u8]) -> bool
    ensures { result ≡ has_name_length text.now }
{
    !text.is_empty() && text.len() <= NAME_LEN
}

fn is_name(text: &[u8]) -> bool
    ensures { result ≡ is_name text.now }
{
    has_name_length(text) && !text[0].is_ascii_digit() && are_name_bytes(text)
}

// The bytes of a word that count.
fn counted(word: &[u8]) -> &[u8]
    ensures value { result.now ≡ take NAME_LEN word.now }
    ensures short { length result.now ≤ NAME_LEN }
{
    if word.len() <= NAME_LEN {
        word
    } else {
        &word[..NAME_LEN]
    }
}

fn upper_case(word: &[u8]) -> ArrayVec<u8, NAME_LEN>
    requires { length word.now ≤ NAME_LEN }
    ensures { result.items ≡ map to_ascii_uppercase word.now }
{
    let mut bytes = ArrayVec::new();
    for byte in word {
        bytes.push(byte.to_ascii_uppercase());
    }
    bytes
}

impl Name {
    /// The name that these bytes are, where they are one in upper case.
    pub fn new(text: &[u8]) -> Option<Name>
        ensures variant { IsSome result ↔ IsName text.now }
        ensures value { IfSome result (λ name. name ≡ text.now) }
    {
        if !is_name(text) {
            return None;
        }
        match ArrayVec::try_from(text) {
            Ok(bytes) => Some(Name { bytes }),
            Err(_) => None,
        }
    }

    /// The name that a word spells without regard to case: its first 63 bytes in upper case, where they are a name.
    pub fn from_word(word: &[u8]) -> Option<Name>
        ensures variant { IsSome result ↔ IsName (spelled_by word.now) }
        ensures value { IfSome result (λ name. name ≡ spelled_by word.now) }
    {
        let bytes = upper_case(counted(word));
        Name::new(bytes.as_slice())
    }

    /// The bytes of the name.
    pub fn as_bytes(&self) -> &[u8]
        ensures value { result.now ≡ self.now }
        ensures name { IsName self.now }
    {
        self.bytes.as_slice()
    }

    /// A copy, which takes no memory.
    pub fn copied(&self) -> Name
        ensures { result ≡ self.now }
    {
        match ArrayVec::try_from(self.bytes.as_slice()) {
            Ok(bytes) => Name { bytes },
            Err(_) => unreachable!(),
        }
    }

    /// Whether the two are one name.
    pub fn is(&self, other: &Name) -> bool
        ensures { IsTrue result ↔ (self.now ≡ other.now) }
    {
        *self == *other
    }
}
