//! Numbers of rows.

use std::alloc::AllocError;

/// A number that is not negative.
pub fn number(text: &str) -> Result<u32, AllocError> {
    match text.parse::<u32>() {
        Ok(number) => Ok(number),
        Err(_) => Err(AllocError),
    }
}

/// A number.
pub fn whole(text: &str) -> Result<i32, AllocError> {
    match text.parse::<i32>() {
        Ok(number) => Ok(number),
        Err(_) => Err(AllocError),
    }
}

fn hexadecimal(digits: &str) -> Result<u16, AllocError> {
    match u16::from_str_radix(digits, 16) {
        Ok(word) => Ok(word),
        Err(_) => Err(AllocError),
    }
}

/// The low word of a number, or hexadecimal digits behind `$`.
pub fn word(text: &str) -> Result<u16, AllocError> {
    match text.strip_prefix("$") {
        Some(digits) => hexadecimal(digits),
        None => {
            let value = whole(text)?;
            Ok((value.cast_unsigned() % 0x1_0000) as u16)
        }
    }
}
