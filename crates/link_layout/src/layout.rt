//! Where code, stubs, data, stack and heap lie.

ghost use Rattle.std.specs.Prelude.{◌≡◌, ◌+◌, ◌≤◌, map, IfOk, IfErr, OnOk};
ghost use Rattle.link_layout.specs.Sums.{paragraphs, sums_from};
ghost use Rattle.link_layout.specs.Layouts.{stub_size, image_size, layout_of, HasRoom, IsRefused};

use crate::error::LayoutError;
use crate::sums::{Numbers, paragraphs, sum};
use mz_file::Segments;
use std::alloc::{AllocError, Global};

/// The most bytes of the data segment.
pub const LAYOUT_DATA: u64 = 65_520;

/// The most paragraphs of the image.
pub const LAYOUT_PARAGRAPHS: u64 = 40_848;

/// The most words of the image that are segments.
pub const LAYOUT_RELOCATIONS: u64 = 65_535;

/// What the parts of a program take.
#[derive(Drop)]
pub struct Sizes {
    /// The bytes of each resident unit's code, in the order in which they come to stand.
    pub resident: Numbers,
    /// The number of entries of each stub.
    pub entries: Numbers,
    /// The bytes of the data segment.
    pub bytes: u64,
    /// The bytes of the stack.
    pub stack: u16,
    /// The bytes of the heap.
    pub heap: u32,
    /// How many words of the image are segments.
    pub relocations: u64,
}

/// Where they come to lie, in paragraphs from the image's start.
#[derive(Drop)]
pub struct Layout {
    /// The segment of each resident unit's code.
    pub resident: Segments,
    /// The segment of each stub.
    pub stubs: Segments,
    /// The segment of the data, which end the image.
    pub data_segment: u16,
    /// The segment of the stack, right behind the image.
    pub stack_segment: u16,
    /// The segment of the heap.
    pub heap_segment: u16,
    /// How many paragraphs are needed behind the image.
    pub extra: u16,
}

/// How many paragraphs each of so many bytes takes.
fn in_paragraphs(alloc: Global, sizes: &[u64]) -> Result<Numbers, AllocError>
    ensures { IfOk result (λ counts. counts ≡ map paragraphs sizes.now) }
{
    let mut counts = Numbers::new(alloc);
    for size in sizes {
        let rounded = size.checked_add(15).ok_or(AllocError)?;
        counts.push(rounded / 16)?;
    }
    Ok(counts)
}

/// The bytes of each stub.
fn stub_sizes(alloc: Global, entries: &[u64]) -> Result<Numbers, AllocError>
    ensures { IfOk result (λ sizes. sizes ≡ map stub_size entries.now) }
{
    let mut sizes = Numbers::new(alloc);
    for count in entries {
        let bytes = count.checked_mul(5).ok_or(AllocError)?;
        sizes.push(bytes.checked_add(32).ok_or(AllocError)?)?;
    }
    Ok(sizes)
}

/// Segments one behind another, the first of them given, whose parts take so many paragraphs.
fn segments_from(alloc: Global, first: u64, sizes: &[u64]) -> Result<Segments, AllocError>
    ensures { IfOk result (λ segments. segments ≡ sums_from first sizes.now) }
{
    let mut segments = Segments::new(alloc);
    let mut next = first;
    for size in sizes {
        if next > 0xFFFF {
            return Err(AllocError);
        }
        segments.push(next as u16)?;
        next = next.checked_add(*size).ok_or(AllocError)?;
    }
    Ok(segments)
}

/// Whether sizes have room, the image being of so many paragraphs.
fn within_limits(sizes: &Sizes, image: u64) -> Result<(), LayoutError>
    requires image { image ≡ image_size sizes.now }
    requires data { sizes.now.bytes ≤ 65520 }
    ensures room { OnOk result (HasRoom sizes.now) }
    ensures refused { IfErr result (IsRefused sizes.now) }
{
    if image > LAYOUT_PARAGRAPHS {
        return Err(LayoutError::ImageTooLarge { paragraphs: image });
    }
    if sizes.relocations > LAYOUT_RELOCATIONS {
        return Err(LayoutError::TooManyRelocations {
            count: sizes.relocations,
        });
    }
    Ok(())
}

/// Where the parts of a program come to lie, whose heap has at most 196,608 bytes, or the first limit that they pass, with the
/// number that passes it.
pub fn lay_out(alloc: Global, sizes: &Sizes) -> Result<Layout, LayoutError>
    requires { sizes.now.heap ≤ 196608 }
    ensures layout { IfOk result (λ layout. layout ≡ layout_of sizes.now) }
    ensures room { OnOk result (HasRoom sizes.now) }
    ensures refused { IfErr result (IsRefused sizes.now) }
{
    if sizes.bytes > LAYOUT_DATA {
        return Err(LayoutError::DataTooLarge { bytes: sizes.bytes });
    }
    let code = in_paragraphs(alloc, sizes.resident.as_slice())?;
    let stub_bytes = stub_sizes(alloc, sizes.entries.as_slice())?;
    let stubs = in_paragraphs(alloc, stub_bytes.as_slice())?;
    let first_stub = sum(code.as_slice())?;
    let data = first_stub
        .checked_add(sum(stubs.as_slice())?)
        .ok_or(AllocError)?;
    let image = data.checked_add(paragraphs(sizes.bytes)).ok_or(AllocError)?;
    within_limits(sizes, image)?;
    let stack = paragraphs(u64::from(sizes.stack));
    let heap = paragraphs(u64::from(sizes.heap));
    Ok(Layout {
        resident: segments_from(alloc, 0, code.as_slice())?,
        stubs: segments_from(alloc, first_stub, stubs.as_slice())?,
        data_segment: data as u16,
        stack_segment: image as u16,
        heap_segment: (image + stack) as u16,
        extra: (stack + heap) as u16,
    })
}
