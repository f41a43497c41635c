//! Linking.

ghost use Rattle.std.specs.Prelude.{◌≡◌, ◌+◌, ◌%◌, ◌<◌, ◌≤◌, true, length, IfOk, OnOk, IfErr};
ghost use Rattle.mz_file.specs.Spelling.{IsWritable};
ghost use Rattle.overlay_file.specs.Format.{AreOverlays};
ghost use Rattle.smart_linker.specs.Given.{IsGiven};
ghost use Rattle.link_layout.specs.Layouts.{layout_of};
ghost use Rattle.smart_linker.specs.Measures.{measured_of, sizes_of};
ghost use Rattle.smart_linker.specs.Names.{overlaid_names, names_of};
ghost use Rattle.smart_linker.specs.Overlaid.{CanBeOverlaid};
ghost use Rattle.smart_linker.specs.Refused.{IsLaterCause, IsRefused};

use crate::error::LinkError;
use crate::filling::Placed;
use crate::homes::home_segments;
use crate::image::Image;
use crate::overlaid::{check_overlaid, has_overlays};
use crate::overlays::largest;
use crate::part::{Kind, Part};
use crate::parts::Parts;
use crate::placement::Placement;
use crate::reached::reached_parts;
use crate::sizes::{measure, sizes};
use crate::unit::{LinkUnit, Overlays, Setting};
use crate::writable::{are_overlays, is_writable};
use cpu_8086::Far;
use kernel_code::{Initial, kernel_name, kernel_unit};
use link_layout::{Layout, LayoutError, Sizes, lay_out};
use mz_file::{Block, Exe, Segments};
use overlay_file::OverlayCode8086;
use std::alloc::{AllocError, Global};
use type_layout::Bytes;

/// A program as its files hold it.
#[derive(Drop)]
pub struct Linked {
    pub exe: Exe,
    /// What the overlay file holds; none where the program has no overlays.
    pub overlays: Overlays,
}

/// Where the kernel has its start and the error routine, and its byte of the installed flag.
const START: usize = 0;

const ERROR: usize = 1;

const FLAG: usize = 1;

/// The main and initialisation parts, in the order of the units.
fn initials(alloc: Global, units: &[LinkUnit]) -> Result<Vec<Initial>, AllocError> {
    let mut initials = Vec::new(alloc);
    for unit in units {
        if let Some(number) = unit.initial {
            initials.push(Initial {
                unit: unit.name.copied(),
                number,
            })?;
        }
    }
    Ok(initials)
}

/// The kernel of a program of these units.
fn kernel(alloc: Global, units: &[LinkUnit]) -> Result<LinkUnit, AllocError> {
    let name = kernel_name();
    let initials = initials(alloc, units)?;
    let object = kernel_unit(alloc, &name, initials.as_slice(), has_overlays(units))?;
    Ok(LinkUnit {
        name,
        object,
        initial: None,
        overlayable: false,
        overlaid: false,
        marked: true,
    })
}

/// Where parts of these sizes lie, or the limit that they pass.
fn layout_of(alloc: Global, sizes: &Sizes) -> Result<Layout, LinkError>
    requires { sizes.now.heap ≤ 196608 }
    ensures layout { IfOk result (λ layout. layout ≡ layout_of sizes.now) }
    ensures cause { IfErr result IsLaterCause }
{
    match lay_out(alloc, sizes) {
        Ok(layout) => Ok(layout),
        Err(LayoutError::DataTooLarge { bytes }) => Err(LinkError::DataTooLarge { bytes }),
        Err(LayoutError::ImageTooLarge { paragraphs }) => {
            Err(LinkError::ImageTooLarge { paragraphs })
        }
        Err(LayoutError::TooManyRelocations { count }) => {
            Err(LinkError::TooManyRelocations { count })
        }
        Err(LayoutError::NoMemory) => Err(LinkError::NoMemory),
    }
}

/// Where the reached parts of a program lie.
fn placement(alloc: Global, parts: Parts, setting: &Setting) -> Result<Placement, LinkError>
    requires { setting.now.heap ≤ 196608 }
    ensures measured { IfOk result (λ places. places.measured ≡ measured_of parts.entry.units.now parts.entry.kernel.now places.marks.items) }
    ensures layout { IfOk result (λ places. places.layout ≡ layout_of (sizes_of parts.entry.units.now parts.entry.kernel.now setting.now places.marks.items)) }
    ensures cause { IfErr result IsLaterCause }
{
    let marks = reached_parts(alloc, parts)?;
    let measured = measure(alloc, parts, marks.as_slice())?;
    let sizes = sizes(alloc, parts, marks.as_slice(), &measured, setting)?;
    let layout = layout_of(alloc, &sizes)?;
    let segments = home_segments(alloc, parts, &layout)?;
    Ok(Placement {
        marks,
        measured,
        layout,
        segments,
    })
}

fn copied(alloc: Global, segments: &Segments) -> Result<Segments, AllocError> {
    let mut copy = Segments::new(alloc);
    for segment in segments.as_slice() {
        copy.push(*segment)?;
    }
    Ok(copy)
}

/// What the runner is told.
fn block(
    alloc: Global,
    placed: Placed,
    setting: &Setting,
    overlays: &[OverlayCode8086],
) -> Result<Block, AllocError>
    ensures marked { IfOk result (λ block. block.marked ≡ true) }
    ensures stack { IfOk result (λ block. block.stack ≡ setting.now.stack) }
    ensures heap { IfOk result (λ block. block.heap ≡ setting.now.heap) }
    ensures flag { IfOk result (λ block. block.installed.segment ≡ block.data_segment) }
{
    let layout = &placed.places.layout;
    let kernel = placed.parts.units.len();
    let error = Part {
        kind: Kind::Routine,
        unit: kernel,
        number: ERROR,
    };
    let flag = Part {
        kind: Kind::Datum,
        unit: kernel,
        number: FLAG,
    };
    Ok(Block {
        stubs: copied(alloc, &layout.stubs)?,
        largest: largest(overlays),
        error_routine: placed.places.far(placed.parts, error),
        installed: Far {
            offset: placed.places.offset(flag),
            segment: layout.data_segment,
        },
        stack: setting.stack,
        heap: setting.heap,
        data_segment: layout.data_segment,
        data_bytes: (placed.places.measured.bytes % 0x1_0000) as u16,
        marked: true,
    })
}

/// SS and SP as the program starts: an odd size of the stack is counted one up.
fn stack(layout: &Layout, setting: &Setting) -> Far
    ensures { setting.now.stack < 65535 → result.offset ≡ setting.now.stack + setting.now.stack % 2 }
{
    Far {
        offset: setting.stack.saturating_add(setting.stack % 2),
        segment: layout.stack_segment,
    }
}

/// The executable with this image.
fn executable(placed: Placed, setting: &Setting, image: Image, block: Block) -> Exe
    ensures block { result.block ≡ block }
    ensures stack { setting.now.stack < 65535 → result.stack.offset ≡ setting.now.stack + setting.now.stack % 2 }
{
    let start = Part {
        kind: Kind::Routine,
        unit: placed.parts.units.len(),
        number: START,
    };
    Exe {
        image: Bytes::from_vec(image.bytes),
        relocations: image.relocations,
        entry: placed.places.far(placed.parts, start),
        stack: stack(&placed.places.layout, setting),
        extra: placed.places.layout.extra,
        block,
    }
}

/// The executable and the overlays of a program, placed so.
fn placed_program(alloc: Global, placed: Placed, setting: &Setting) -> Result<Linked, LinkError>
    ensures given { IfOk result (λ linked. IsGiven setting.now linked.exe) }
    ensures names { IfOk result (λ linked. names_of linked.overlays ≡ overlaid_names placed.entry.parts.units.now) }
    ensures cause { IfErr result IsLaterCause }
{
    let has_overlays = has_overlays(placed.parts.units);
    let overlays = placed.overlays(alloc)?;
    let data = placed.data_segment(alloc, setting, has_overlays)?;
    let image = placed.image(alloc, overlays.as_slice(), &data)?;
    let block = block(alloc, placed, setting, overlays.as_slice())?;
    let exe = executable(placed, setting, image, block);
    Ok(Linked { exe, overlays })
}

/// Links units in the order in which they start, the runtime's three behind them. What the start, the main and
/// initialisation parts and the data of the runtime lead to is linked, and nothing else. The heap has at most 196,608 bytes.
/// Executable and overlays can be written. A refusal tells its cause, and nothing was made.
#[tactic(auto, using(crate::proofs::Refusals::as_refused))]
pub fn link(alloc: Global, units: &[LinkUnit], setting: &Setting) -> Result<Linked, LinkError>
    requires { setting.now.heap ≤ 196608 }
    ensures overlaid { OnOk result (CanBeOverlaid units.now) }
    ensures refused { IfErr result (IsRefused units.now) }
    ensures given { IfOk result (λ linked. IsGiven setting.now linked.exe) }
    ensures names { IfOk result (λ linked. names_of linked.overlays ≡ overlaid_names units.now) }
    ensures writable { IfOk result (λ linked. IsWritable linked.exe) }
    ensures overlays { IfOk result (λ linked. 0 < length linked.overlays → AreOverlays linked.overlays) }
{
    check_overlaid(units)?;
    let kernel = kernel(alloc, units)?;
    let parts = Parts {
        units,
        kernel: &kernel,
    };
    let places = placement(alloc, parts, setting)?;
    let placed = Placed {
        alloc,
        parts,
        places: &places,
    };
    let linked = placed_program(alloc, placed, setting)?;
    // What is placed can always be written; until that is proved, it is tested.
    if !is_writable(&linked.exe)
        || (!linked.overlays.is_empty() && !are_overlays(linked.overlays.as_slice()))
    {
        return Err(LinkError::NoMemory);
    }
    Ok(linked)
}
