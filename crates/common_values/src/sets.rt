//! Sets of ordinals from 0 to 255, as lists of their elements.

ghost use Rattle.std.specs.Prelude.{◌≡◌, ◌<◌, ◌≤◌, ◌/◌, IfOk};
ghost use Rattle.common_values.specs.Sets.{
  contains as has,
  is_member as member_of,
  union as union_of,
  difference as difference_of,
  intersection as intersection_of,
  is_subset as subset_of,
  is_same as same_as,
  ordinals_between as range_of,
  with_range as range_with,
  set_size as size_of,
  assigned as kept_of,
  weight_if as weight_of,
  set_byte as byte_at,
  set_bytes as bytes_of,
};
ghost use Rattle.common_values.specs.SetLaws.{ElementLaws, SubsetLaws, ByteLaws};

use std::alloc::{AllocError, Global};

/// Whether a set has an element.
pub fn contains(set: &[u8], element: u8) -> bool
    ensures { result ≡ has set.now element }
{
    set.contains(&element)
}

/// The operator `in`: false for an ordinal outside 0 to 255.
pub fn is_member(set: &[u8], ordinal: i32) -> bool
    ensures { result ≡ member_of set.now ordinal }
{
    ordinal >= 0 && ordinal < 256 && contains(set, ordinal as u8)
}

/// The union of two sets. Fails only without memory.
pub fn union(alloc: Global, left: &[u8], right: &[u8]) -> Result<Vec<u8>, AllocError>
    ensures { IfOk result (λ v. v.items ≡ union_of left.now right.now) }
{
    let mut set = Vec::from_slice(alloc, left)?;
    let others: Vec<u8> = right
        .iter()
        .copied()
        .filter(|e| !contains(left, *e))
        .collect(alloc)?;
    set.extend_from_slice(others.as_slice())?;
    Ok(set)
}

/// The elements of the left set that the right one hasn't. Fails only without memory.
pub fn difference(alloc: Global, left: &[u8], right: &[u8]) -> Result<Vec<u8>, AllocError>
    ensures { IfOk result (λ v. v.items ≡ difference_of left.now right.now) }
{
    left.iter()
        .copied()
        .filter(|e| !contains(right, *e))
        .collect(alloc)
}

/// The elements that both sets have. Fails only without memory.
pub fn intersection(alloc: Global, left: &[u8], right: &[u8]) -> Result<Vec<u8>, AllocError>
    ensures { IfOk result (λ v. v.items ≡ intersection_of left.now right.now) }
{
    left.iter()
        .copied()
        .filter(|e| contains(right, *e))
        .collect(alloc)
}

/// Whether the right set has each element of the left one.
pub fn is_subset(left: &[u8], right: &[u8]) -> bool
    ensures { result ≡ subset_of left.now right.now }
{
    left.iter().all(|e| contains(right, *e))
}

/// Whether two sets have the same elements.
pub fn is_same(left: &[u8], right: &[u8]) -> bool
    ensures { result ≡ same_as left.now right.now }
{
    is_subset(left, right) && is_subset(right, left)
}

/// The ordinals from `low` to `high`; none where `low` is above `high`. Fails only without memory.
#[tactic(auto, using(crate::proofs::SetLemmas::range_next))]
pub fn ordinals_between(alloc: Global, low: u8, high: u8) -> Result<Vec<u8>, AllocError>
    ensures { IfOk result (λ v. v.items ≡ range_of low high) }
{
    let count = (u16::from(high) + 1).saturating_sub(u16::from(low));
    let mut range = Vec::new(alloc);
    for offset in 0..count {
        range.push((u16::from(low) + offset) as u8)?;
    }
    Ok(range)
}

/// The set with the ordinals from `low` to `high` too; none where `low` is above `high`. Fails only
/// without memory.
pub fn with_range(alloc: Global, set: &[u8], low: u8, high: u8) -> Result<Vec<u8>, AllocError>
    ensures { IfOk result (λ v. v.items ≡ range_with set.now low high) }
{
    let range = ordinals_between(alloc, low, high)?;
    union(alloc, set, range.as_slice())
}

/// How many bytes a set over `low` to `high` takes.
pub fn set_size(low: u8, high: u8) -> u8
    requires { low ≤ high }
    ensures { result ≡ size_of low high }
{
    high / 8 - low / 8 + 1
}

/// What a set over `low` to `high` keeps of a set that is assigned to it: the elements whose bytes it
/// has. Fails only without memory.
pub fn assigned(alloc: Global, low: u8, high: u8, set: &[u8]) -> Result<Vec<u8>, AllocError>
    ensures { IfOk result (λ v. v.items ≡ kept_of low high set.now) }
{
    set.iter()
        .copied()
        .filter(|e| low / 8 <= *e / 8 && *e / 8 <= high / 8)
        .collect(alloc)
}

fn weight_if(there: bool, bit: u8) -> u8
    requires { bit < 8 }
    ensures { result ≡ weight_of there bit }
{
    if there { 1 << bit } else { 0 }
}

/// The byte of a set's memory that holds the elements from `8 * byte` on.
pub fn set_byte(set: &[u8], byte: u8) -> u8
    requires { byte < 32 }
    ensures { result ≡ byte_at set.now byte }
{
    let mut bits = 0;
    for i in 0..8 {
        bits += weight_if(contains(set, 8 * byte + i), i);
    }
    bits
}

/// The bytes of a set over `low` to `high`. Fails only without memory.
pub fn set_bytes(alloc: Global, low: u8, high: u8, set: &[u8]) -> Result<Vec<u8>, AllocError>
    requires { low ≤ high }
    ensures { IfOk result (λ v. v.items ≡ bytes_of low high set.now) }
{
    let mut bytes = Vec::new(alloc);
    for offset in 0..set_size(low, high) {
        bytes.push(set_byte(set, low / 8 + offset))?;
    }
    Ok(bytes)
}

/// The laws of sets; it does nothing.
pub fn set_laws()
    ensures elements { ElementLaws }
    ensures subsets { SubsetLaws }
    ensures bytes { ByteLaws }
{}
