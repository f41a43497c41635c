//! The segments of units.

use crate::parts::Parts;
use link_layout::Layout;
use std::alloc::{AllocError, Global};

/// The segment of each unit's code, or of its stub.
pub(crate) fn home_segments(
    alloc: Global,
    parts: Parts,
    layout: &Layout,
) -> Result<Vec<u16>, AllocError> {
    let mut segments = Vec::new(alloc);
    let mut resident = layout.resident.as_slice().iter();
    let mut stubs = layout.stubs.as_slice().iter();
    for place in 0..parts.count() {
        let next = if parts.unit(place).overlaid {
            stubs.next()
        } else {
            resident.next()
        };
        segments.push(*next.ok_or(AllocError)?)?;
    }
    Ok(segments)
}
