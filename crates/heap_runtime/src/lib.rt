//! The unit of the runtime's routines on overlays and the heap, as flat code.
#![tactic(auto)]

pub mod clear;
pub mod heap;
pub mod overlay;

ghost use Rattle.std.specs.Prelude.{◌≡◌, ◌≤◌, ◌<◌, IfOk, ℕ, [], length, Bool, IsTrue, Contains};
ghost use Rattle.flat_code.specs.Program.{FlatProgram, Choice, Datum, overlay_unit};
ghost use Rattle.flat_code.specs.Legal.{StackFits, Mention, ToDatum, IsLegal};
ghost use Rattle.flat_code.specs.Meaning.{start_cells};
ghost use Rattle.flat_code.specs.Plain.{view_unit, view_datum};
ghost use Rattle.flat_code.specs.Weights.{unit_weight};
ghost use Rattle.runtime_proofs.specs.start_data.Start.{FirstsFit, FitsRuntime};
ghost use Rattle.flat_code.specs.leaf_routines.Leaves.{AreLeaves};
ghost use Rattle.heap_runtime.specs.overlay.Data.{HasOverlay};
ghost use Rattle.heap_runtime.specs.heap.HeapMemory.{HeapPlaces, ReachesHeapData};
ghost use Rattle.heap_runtime.specs.scratch.Data.{scratch_key, HasScratch, ScratchReached};
ghost use Rattle.heap_runtime.specs.Unit.{heap_code, HoldsHeapUnit};
ghost use Rattle.heap_runtime.specs.Specifications.{HeapWorks, ReachesOverlay, IsFileName, StartsHeap};

use crate::clear::clear_bytes;
use crate::heap::{dispose_block, new_block};
use crate::overlay::{clear_buffer, init, set_buffer};
use flat_code::flat_builders::name;
use flat_code::{FlatDatum, FlatUnit};
use std::alloc::{AllocError, Global};
use type_layout::{Bytes, Names, Sequence};

// So many bytes without a first value.
fn zeros(alloc: Global, size: u32) -> FlatDatum
    ensures { view_datum result ≡ (let datum : Datum = record { size = size; first = [] } in datum) }
{
    let first = Bytes::from_vec(Vec::new(alloc));
    FlatDatum { size, first }
}

fn whole_unit(alloc: Global) -> Result<FlatUnit, AllocError>
    ensures { IfOk result (λ unit. view_unit unit ≡ heap_code) }
{
    let names = vec![in alloc; name(b"OVERLAY")]?;
    let routines = vec![in alloc;
        init(alloc)?,
        set_buffer(alloc)?,
        clear_buffer(alloc)?,
        new_block(alloc)?,
        dispose_block(alloc)?,
        clear_bytes(alloc)?,
    ]?;
    let globals = vec![in alloc;
        zeros(alloc, 2),
        zeros(alloc, 2),
        zeros(alloc, 4),
        zeros(alloc, 81),
        zeros(alloc, 4),
        zeros(alloc, 8),
    ]?;
    Ok(FlatUnit {
        names: Names::from_vec(names),
        routines: Sequence::from_vec(routines),
        globals: Sequence::from_vec(globals),
        vmts: Sequence::new(alloc),
        initial: None,
    })
}

/// The unit of the runtime's routines on overlays and the heap. Its code weighs at most 6,000 bytes.
#[tactic(auto, using(crate::proofs::Leaves::as_light))]
pub fn heap_routines(alloc: Global) -> Result<FlatUnit, AllocError>
    ensures whole { IfOk result (λ unit. view_unit unit ≡ heap_code) }
    ensures light { IfOk result (λ unit. unit_weight (view_unit unit) ≤ 6000) }
{
    whole_unit(alloc)
}

/// The laws of the unit. In each program that holds it, and wherever its parts lie, its routines do
/// what the runtime promises; in a legal choice that reaches its data they have their places, apart from
/// each other, the stack and the heap, and as the program starts the heap is empty and the name of the
/// overlay file is there, whose bytes fit their datum. Its routines call no others, and each takes at
/// most 24 bytes of the stack. It does nothing.
pub fn heap_unit_laws()
    ensures works { (program : FlatProgram) (choice : Choice) (at file : ℕ) → StackFits program choice → HoldsHeapUnit program → HasOverlay program choice at file → HeapWorks program choice at file }
    ensures places { (program : FlatProgram) (choice : Choice) (reached : Mention → Bool) → IsLegal program choice (λ mention. IsTrue (reached mention)) → HoldsHeapUnit program → ReachesHeapData (λ mention. IsTrue (reached mention)) → program.heap ≤ 196608 → HeapPlaces program choice }
    ensures overlay { (program : FlatProgram) (choice : Choice) (reached : Mention → Bool) → IsLegal program choice (λ mention. IsTrue (reached mention)) → HoldsHeapUnit program → ReachesOverlay (λ mention. IsTrue (reached mention)) → (at : ℕ) × (file : ℕ) × HasOverlay program choice at file }
    ensures starts { (program : FlatProgram) (choice : Choice) (reached : Mention → Bool) (places : HeapPlaces program choice) (at file : ℕ) → IsLegal program choice (λ mention. IsTrue (reached mention)) → FirstsFit program → HoldsHeapUnit program → Contains program.order overlay_unit → IsFileName program.ovr_name → choice.heap_segment < 65536 → HasOverlay program choice at file → StartsHeap program choice places at file }
    ensures scratch { (program : FlatProgram) (choice : Choice) (reached : Mention → Bool) → IsLegal program choice (λ mention. IsTrue (reached mention)) → HoldsHeapUnit program → IsTrue (reached (ToDatum scratch_key)) → (at : ℕ) × HasScratch program choice at }
    ensures scratch_starts { (program : FlatProgram) (choice : Choice) (reached : Mention → Bool) (at : ℕ) → IsLegal program choice (λ mention. IsTrue (reached mention)) → FirstsFit program → HoldsHeapUnit program → Contains program.order overlay_unit → length program.ovr_name ≤ 80 → HasScratch program choice at → ScratchReached choice at (start_cells program choice) }
    ensures fits { (program : FlatProgram) (choice : Choice) → HoldsHeapUnit program → length program.ovr_name ≤ 80 → FitsRuntime program choice }
    ensures leaves { AreLeaves 24 heap_code.routines }
{}
