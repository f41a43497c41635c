//! The bytes of values, behind others.

ghost use Rattle.std.specs.Prelude.{◌≡◌, ◌≤◌, ◌++◌, IfOk, OnOk, length, replicate};
ghost use Rattle.common_values.specs.Sets.{set_bytes};
ghost use Rattle.constant_checker.specs.stored_values.Stored.{ordinal_bytes, string_bytes};

use common_values::sets;
use std::alloc::{AllocError, Global};
use type_layout::{Bytes, Host};

/// An ordinal behind some bytes, stored as a host.
pub fn with_ordinal(mut bytes: Bytes, host: Host, number: i32) -> Result<Bytes, AllocError>
    ensures { IfOk result (λ all. all ≡ bytes ++ ordinal_bytes host number) }
{
    let [lowest, second, third, highest] = number.cast_unsigned().to_le_bytes();
    match host.width() {
        1 => bytes.push(lowest)?,
        2 => bytes.extend_from_slice(&[lowest, second])?,
        _ => bytes.extend_from_slice(&[lowest, second, third, highest])?,
    }
    Ok(bytes)
}

fn push_zeros(bytes: &mut Bytes, count: u8) -> Result<(), AllocError>
    ensures { OnOk result (bytes.new ≡ bytes.old ++ replicate count 0) }
{
    for _ in 0..count {
        bytes.push(0)?;
    }
    Ok(())
}

/// A text behind some bytes, as a string of at most `max` bytes.
pub fn with_string(mut bytes: Bytes, max: u8, text: &[u8]) -> Result<Bytes, AllocError>
    requires { length text.now ≤ max }
    ensures { IfOk result (λ all. all ≡ bytes ++ string_bytes max text.now) }
{
    let count = text.len() as u8;
    bytes.push(count)?;
    bytes.extend_from_slice(text)?;
    push_zeros(&mut bytes, max - count)?;
    Ok(bytes)
}

/// A set behind some bytes.
pub fn with_set(
    alloc: Global,
    mut bytes: Bytes,
    low: u8,
    high: u8,
    elements: &[u8],
) -> Result<Bytes, AllocError>
    requires { low ≤ high }
    ensures { IfOk result (λ all. all ≡ bytes ++ set_bytes low high elements.now) }
{
    let set = sets::set_bytes(alloc, low, high, elements)?;
    bytes.extend_from_slice(set.as_slice())?;
    Ok(bytes)
}
