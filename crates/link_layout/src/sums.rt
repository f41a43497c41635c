//! Prefix sums, and sizes rounded up.

ghost use Rattle.std.specs.Prelude.{◌≡◌, ◌+◌, ◌<◌, ◌^◌, IfOk};
ghost use Rattle.link_layout.specs.Sums.{even, paragraphs, total, sums_from};

use std::alloc::{AllocError, Global};
use type_layout::Sequence;

/// Numbers, in order.
pub type Numbers = Sequence<u64>;

/// Where parts begin that lie one after another, and where the last one ends.
#[derive(Drop)]
pub struct Sums {
    pub places: Numbers,
    pub end: u64,
}

/// A size rounded up to an even one.
pub fn even(size: u32) -> u64
    ensures { result ≡ even size }
{
    u64::from(size) + u64::from(size) % 2
}

/// How many paragraphs of 16 bytes hold so many bytes.
pub fn paragraphs(bytes: u64) -> u64
    requires { bytes + 15 < 2 ^ 64 }
    ensures { result ≡ paragraphs bytes }
{
    (bytes + 15) / 16
}

/// The sum of all sizes; fails where it passes 64 bits.
pub fn sum(sizes: &[u64]) -> Result<u64, AllocError>
    ensures { IfOk result (λ sum. sum ≡ total sizes.now) }
{
    let mut end: u64 = 0;
    for size in sizes {
        end = end.checked_add(*size).ok_or(AllocError)?;
    }
    Ok(end)
}

/// Where parts of these sizes begin, the first at a place and each other at the end of the one before.
pub fn prefix_sums(alloc: Global, from: u64, sizes: &[u64]) -> Result<Sums, AllocError>
    ensures places { IfOk result (λ sums. sums.places ≡ sums_from from sizes.now) }
    ensures end { IfOk result (λ sums. sums.end ≡ from + total sizes.now) }
{
    let mut places = Numbers::new(alloc);
    let mut end = from;
    for size in sizes {
        places.push(end)?;
        end = end.checked_add(*size).ok_or(AllocError)?;
    }
    Ok(Sums { places, end })
}
