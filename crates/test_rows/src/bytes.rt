//! Bytes of rows, each as two hexadecimal digits; or as text, in which a backslash stands before the digits of a byte.

use crate::texts::repeated;
use std::alloc::{AllocError, Global};

fn digit(letter: u8) -> Result<u8, AllocError> {
    match letter {
        b'0'..=b'9' => Ok(letter - b'0'),
        b'a'..=b'f' => Ok(letter - b'a' + 10),
        _ => Err(AllocError),
    }
}

/// The bytes of a text.
pub fn bytes_in(alloc: Global, text: &str) -> Result<Vec<u8>, AllocError> {
    let mut bytes = Vec::new(alloc);
    let mut high: Option<u8> = None;
    for letter in text.as_bytes() {
        let low = digit(*letter)?;
        match high {
            Some(first) => {
                bytes.push(first.wrapping_mul(16).wrapping_add(low))?;
                high = None;
            }
            None => high = Some(low),
        }
    }
    match high {
        Some(_) => Err(AllocError),
        None => Ok(bytes),
    }
}

fn write_digit(out: &mut String, value: u8) -> Result<(), AllocError> {
    let low = value % 16;
    let letter = if low < 10 {
        b'0' + low
    } else {
        b'a' + (low - 10)
    };
    out.push(char::from(letter))
}

/// Writes bytes.
pub(crate) fn write_bytes(out: &mut String, bytes: &[u8]) -> Result<(), AllocError> {
    for byte in bytes {
        write_digit(out, *byte / 16)?;
        write_digit(out, *byte)?;
    }
    Ok(())
}

fn is_plain(byte: u8) -> bool {
    32 <= byte && byte < 127 && byte != b'\\'
}

// How many bytes follow one another so from the first on, up to 256.
fn run_length(bytes: &[u8], step: u8) -> usize {
    let mut count = 0_usize;
    let mut wanted = None;
    for byte in bytes.iter().take(256) {
        match wanted {
            Some(next) if next != *byte => break,
            _ => {}
        }
        wanted = Some(byte.wrapping_add(step));
        count = count.wrapping_add(1);
    }
    count
}

/// The least length of a run.
const LEAST: usize = 9;

// Writes the run at the beginning of bytes, if one stands there, or the first byte. How many bytes were written.
fn write_run(out: &mut String, bytes: &[u8]) -> Result<usize, AllocError> {
    let Some(first) = bytes.first() else {
        return Ok(0);
    };
    let equal = run_length(bytes, 0);
    let rising = run_length(bytes, 1);
    if LEAST <= equal {
        if write!(out, "`{equal} ").is_err() {
            return Err(AllocError);
        }
        write_text(out, &[*first])?;
        out.push_str("`")?;
        Ok(equal)
    } else if LEAST <= rising {
        out.push_str("\\")?;
        write_bytes(out, &[*first])?;
        out.push_str("..\\")?;
        write_bytes(
            out,
            &[first.wrapping_add((rising.wrapping_add(255) % 256) as u8)],
        )?;
        Ok(rising)
    } else {
        write_text(out, &[*first])?;
        Ok(1)
    }
}

/// Writes bytes as text, in which long runs of equal bytes and of rising ones are written as they are read.
pub(crate) fn write_runs(out: &mut String, bytes: &[u8]) -> Result<(), AllocError> {
    let mut written = 0_usize;
    for place in 0..bytes.len() {
        if written <= place {
            let rest = bytes.get(place..).unwrap_or(&[]);
            written = place.saturating_add(write_run(out, rest)?);
        }
    }
    Ok(())
}

/// Writes bytes as text.
pub(crate) fn write_text(out: &mut String, bytes: &[u8]) -> Result<(), AllocError> {
    for byte in bytes {
        if is_plain(*byte) {
            out.push(char::from(*byte))?;
        } else {
            out.push_str("\\")?;
            write_bytes(out, &[*byte])?;
        }
    }
    Ok(())
}

// The bytes behind a first one up to a last one, 0 behind 255.
fn push_rising(bytes: &mut Vec<u8>, first: u8, last: u8) -> Result<(), AllocError> {
    let mut byte = first;
    for _ in 0..256 {
        byte = byte.wrapping_add(1);
        bytes.push(byte)?;
        if byte == last {
            break;
        }
    }
    Ok(())
}

// A piece of a text that stands behind a backslash; `before` begins a range that ends here. The byte, if it begins one.
fn push_coded(
    bytes: &mut Vec<u8>,
    before: Option<u8>,
    piece: &[u8],
) -> Result<Option<u8>, AllocError> {
    match piece {
        [high, low, rest @ ..] => {
            let byte = digit(*high)?.wrapping_mul(16).wrapping_add(digit(*low)?);
            match before {
                Some(first) => push_rising(bytes, first, byte)?,
                None => bytes.push(byte)?,
            }
            if rest == b"..".as_slice() {
                return Ok(Some(byte));
            }
            bytes.extend_from_slice(rest)?;
            Ok(None)
        }
        _ => Err(AllocError),
    }
}

/// The bytes that a text is. Two dots between two bytes behind backslashes are all bytes between them.
pub fn text_in(alloc: Global, text: &str) -> Result<Vec<u8>, AllocError> {
    let mut bytes = Vec::new(alloc);
    let mut is_first = true;
    let mut before = None;
    for piece in text.split('\\') {
        if is_first {
            bytes.extend_from_slice(piece.as_bytes())?;
        } else {
            before = push_coded(&mut bytes, before, piece.as_bytes())?;
        }
        is_first = false;
    }
    match before {
        Some(_) => Err(AllocError),
        None => Ok(bytes),
    }
}

/// The bytes that a text is in which what stands between two back quotes is repeated.
pub fn text_bytes(alloc: Global, text: &str) -> Result<Vec<u8>, AllocError> {
    let whole = repeated(alloc, text)?;
    text_in(alloc, whole.as_str())
}
