//! Writing the parts of a file.

ghost use Rattle.std.specs.Prelude.{◌≡◌, ◌++◌, ◌+◌, ◌<◌, ◌^◌, OnOk, IfSome};
ghost use Rattle.object_file.specs.file_parts.Spelling.{word_text, long_text, signed_text, truth_text, name_text, option_text, bytes_text};

use byteorder::{ByteOrder, LittleEndian};
use std::alloc::{AllocError, Global};
use type_layout::{Bytes, Name};

/// Appends a word.
pub fn push_word(bytes: &mut Bytes, word: u16) -> Result<(), AllocError>
    ensures { OnOk result (bytes.new ≡ bytes.old ++ word_text word) }
{
    let mut two = [0; 2];
    LittleEndian::write_u16(&mut two, word);
    bytes.extend_from_slice(&two)
}

/// Appends a number of four bytes.
pub fn push_long(bytes: &mut Bytes, number: u32) -> Result<(), AllocError>
    ensures { OnOk result (bytes.new ≡ bytes.old ++ long_text number) }
{
    let mut four = [0; 4];
    LittleEndian::write_u32(&mut four, number);
    bytes.extend_from_slice(&four)
}

/// Appends a signed number of four bytes.
pub fn push_signed(bytes: &mut Bytes, number: i32) -> Result<(), AllocError>
    ensures { OnOk result (bytes.new ≡ bytes.old ++ signed_text number) }
{
    push_long(bytes, number.cast_unsigned())
}

/// Appends a truth value.
pub fn push_truth(bytes: &mut Bytes, truth: bool) -> Result<(), AllocError>
    ensures { OnOk result (bytes.new ≡ bytes.old ++ truth_text truth) }
{
    bytes.push(u8::from(truth))
}

/// Appends a name behind its length.
pub fn push_name(bytes: &mut Bytes, name: &Name) -> Result<(), AllocError>
    ensures { OnOk result (bytes.new ≡ bytes.old ++ name_text name.now) }
{
    let text = name.as_bytes();
    bytes.push(text.len() as u8)?;
    bytes.extend_from_slice(text)
}

/// Appends the count of a list. `AllocError` comes besides where it is no number of four bytes, as no memory holds so much.
pub fn push_count(bytes: &mut Bytes, count: usize) -> Result<(), AllocError>
    ensures { OnOk result (bytes.new ≡ bytes.old ++ long_text count) }
{
    match u32::try_from(count) {
        Ok(count) => push_long(bytes, count),
        Err(_) => Err(AllocError),
    }
}

/// Appends a number that may be absent.
pub fn push_option(bytes: &mut Bytes, number: Option<u32>) -> Result<(), AllocError>
    requires { IfSome number (λ n. n + 1 < 2 ^ 32) }
    ensures { OnOk result (bytes.new ≡ bytes.old ++ option_text number) }
{
    match number {
        None => push_long(bytes, 0),
        Some(number) => push_long(bytes, number + 1),
    }
}

/// Appends bytes behind their count.
pub fn push_bytes(bytes: &mut Bytes, more: &[u8]) -> Result<(), AllocError>
    ensures { OnOk result (bytes.new ≡ bytes.old ++ bytes_text more.now) }
{
    push_count(bytes, more.len())?;
    bytes.extend_from_slice(more)
}
