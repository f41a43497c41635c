//! The runtime's New and Dispose, as flat code.

ghost use Rattle.std.specs.Prelude.{◌≡◌, IfOk, ℕ, ◌+◌, ◌*◌, ◌≤◌, ◌<◌, Bool, IsTrue, List, [], length, Contains};
ghost use Rattle.common_values.specs.declared.blocks.Row.{Row};
ghost use Rattle.common_values.specs.Blocks.{with_block, without_block};
ghost use Rattle.flat_code.specs.declared.memory.Cell.TheVariants.{Outside};
ghost use Rattle.flat_code.specs.Tree.{End};
ghost use Rattle.flat_code.specs.View.{view_expr, view_stmt, view_list};
ghost use Rattle.flat_code.specs.Plain.{view_routine};
ghost use Rattle.flat_code.specs.Memory.{Cells};
ghost use Rattle.flat_code.specs.Program.{FlatProgram, Choice, UnitCode, runtime_key};
ghost use Rattle.flat_code.specs.Legal.{Mention, StackFits, IsLegal};
ghost use Rattle.runtime_proofs.specs.routine_proofs.Specifications.{IsHeld};
ghost use Rattle.heap_runtime.specs.heap.Heap.{Block, Heap, empty_heap, IsSound, Counts, made, disposed};
ghost use Rattle.heap_runtime.specs.heap.HeapMemory.{HeapPlaces, HeapStands, HoldsHeapData, ReachesHeapData, HeapBegins, IsSameHeap};
ghost use Rattle.heap_runtime.specs.heap.Routines.{heap_segment, heap_low, heap_high, word_behind as word_behind_code, set_word_behind as set_word_behind_code, number_of, set_pointer as set_pointer_code, find_start, rounding, find_step, find_round, find_list, take_second, take_last, take_block, heap_eights, cut_block, new_end, new_routine, refuse_nil, put_second, disposed_number, begin_list, dispose_end, dispose_routine};
ghost use Rattle.heap_runtime.specs.heap.Specifications.{new_number, dispose_number, Makes, Disposes};

use flat_code::flat_builders::{name, op, repeat, routine, set, then, when, word};
use flat_code::{Address, FlatExpr, FlatList, FlatOp, FlatRoutine, FlatStmt};
use runtime_proofs::string_loops::{procedure, raise};
use std::alloc::{AllocError, Global};

// The unit's data: how much of the heap was cut into blocks, and the first free list.
const CUT: Address = Address::Global {
    unit: 0,
    number: 4,
    plus: 0,
};

const FIRST: Address = Address::Global {
    unit: 0,
    number: 4,
    plus: 2,
};

fn heap_segment() -> FlatExpr
    ensures { view_expr result ≡ heap_segment }
{
    FlatExpr::Word(Address::Global {
        unit: 0,
        number: 1,
        plus: 0,
    })
}

fn heap_low() -> FlatExpr
    ensures { view_expr result ≡ heap_low }
{
    FlatExpr::Word(Address::Global {
        unit: 0,
        number: 2,
        plus: 0,
    })
}

fn heap_high() -> FlatExpr
    ensures { view_expr result ≡ heap_high }
{
    FlatExpr::Word(Address::Global {
        unit: 0,
        number: 2,
        plus: 2,
    })
}

// The word so far behind a pointer.
fn word_behind(pointer: i32, plus: u16) -> FlatExpr
    ensures { view_expr result ≡ word_behind_code pointer plus }
{
    let slot = pointer;
    FlatExpr::Word(Address::Through { slot, plus })
}

fn set_word_behind(pointer: i32, plus: u16, value: FlatExpr) -> FlatStmt
    ensures { (next : _) → view_stmt result next ≡ set_word_behind_code pointer plus (view_expr value) next }
{
    let to = Address::Through {
        slot: pointer,
        plus,
    };
    FlatStmt::StoreWord { to, value }
}

fn number_of(alloc: Global, at: i32) -> Result<FlatExpr, AllocError>
    ensures { IfOk result (λ expr. view_expr expr ≡ number_of at) }
{
    op(alloc, FlatOp::Sub, word(at), FlatExpr::Number(1))
}

// A pointer to the block of a number that is counted from 1.
fn set_pointer(
    alloc: Global,
    segment: i32,
    offset: i32,
    number: i32,
) -> Result<FlatList, AllocError>
    ensures { IfOk result (λ list. view_list list.items ≡ set_pointer_code segment offset number End) }
{
    let half = op(
        alloc,
        FlatOp::DivUnsigned,
        number_of(alloc, number)?,
        FlatExpr::Number(2),
    )?;
    let upper = op(alloc, FlatOp::Add, heap_segment(), half)?;
    let odd = op(
        alloc,
        FlatOp::ModUnsigned,
        number_of(alloc, number)?,
        FlatExpr::Number(2),
    )?;
    let lower = op(alloc, FlatOp::Mul, odd, FlatExpr::Number(8))?;
    Ok(vec![in alloc; set(segment, upper), set(offset, lower)]?)
}

// ---- the first list of a size

fn find_start(alloc: Global) -> Result<FlatList, AllocError>
    ensures { IfOk result (λ list. view_list list.items ≡ find_start) }
{
    let eights = op(alloc, FlatOp::DivUnsigned, word(6), FlatExpr::Number(8))?;
    Ok(vec![in alloc;
        set(-2, FlatExpr::Number(0)),
        set(-4, FlatExpr::Number(0)),
        set(-8, FlatExpr::Number(0)),
        set(-10, FlatExpr::Number(0)),
        set(-6, eights),
    ]?)
}

// The size in eights is rounded up, at least one.
fn rounding(alloc: Global) -> Result<FlatList, AllocError>
    ensures { IfOk result (λ list. view_list list.items ≡ rounding) }
{
    let rest = op(alloc, FlatOp::ModUnsigned, word(6), FlatExpr::Number(8))?;
    let more = vec![in alloc; raise(alloc, -6, FlatExpr::Number(1))?]?;
    let one = vec![in alloc; set(-6, FlatExpr::Number(1))]?;
    Ok(vec![in alloc;
        when(rest, more, Vec::new(alloc)),
        when(word(-6), Vec::new(alloc), one),
        set(-8, FlatExpr::Word(FIRST)),
    ]?)
}

fn find_step(alloc: Global) -> Result<FlatList, AllocError>
    ensures { IfOk result (λ list. view_list list.items ≡ find_step) }
{
    let same = op(alloc, FlatOp::Equal, word_behind(-4, 6), word(-6))?;
    let leave = vec![in alloc; FlatStmt::Leave { loops: 1 }]?;
    let next = vec![in alloc; set(-10, word(-8)), set(-8, word_behind(-4, 4))]?;
    let tested = vec![in alloc; when(same, leave, next)]?;
    then(set_pointer(alloc, -2, -4, -8)?, tested)
}

fn find_round(alloc: Global) -> Result<FlatList, AllocError>
    ensures { IfOk result (λ list. view_list list.items ≡ find_round) }
{
    let leave = vec![in alloc; FlatStmt::Leave { loops: 1 }]?;
    Ok(vec![in alloc; when(word(-8), find_step(alloc)?, leave)]?)
}

fn find_list(alloc: Global) -> Result<FlatList, AllocError>
    ensures { IfOk result (λ list. view_list list.items ≡ find_list) }
{
    let rounds = vec![in alloc; repeat(find_round(alloc)?)]?;
    then(find_start(alloc)?, then(rounding(alloc)?, rounds)?)
}

// ---- New

fn take_second(alloc: Global) -> Result<FlatList, AllocError>
    ensures { IfOk result (λ list. view_list list.items ≡ take_second) }
{
    Ok(vec![in alloc;
        set(-12, word_behind(-4, 2)),
        set(-14, word_behind(-4, 0)),
        set_word_behind(-4, 0, word_behind(-14, 0)),
        set_word_behind(-4, 2, word_behind(-14, 2)),
        set(-2, word(-12)),
        set(-4, word(-14)),
    ]?)
}

fn take_last(alloc: Global) -> Result<FlatList, AllocError>
    ensures { IfOk result (λ list. view_list list.items ≡ take_last) }
{
    let skip = vec![in alloc; set_word_behind(-14, 4, word_behind(-4, 4))]?;
    let behind = then(set_pointer(alloc, -12, -14, -10)?, skip)?;
    let to = FIRST;
    let value = word_behind(-4, 4);
    let first = vec![in alloc; FlatStmt::StoreWord { to, value }]?;
    Ok(vec![in alloc; when(word(-10), behind, first)]?)
}

fn take_block(alloc: Global) -> Result<FlatList, AllocError>
    ensures { IfOk result (λ list. view_list list.items ≡ take_block) }
{
    Ok(vec![in alloc; when(word_behind(-4, 2), take_second(alloc)?, take_last(alloc)?)]?)
}

// The heap's bytes in eights.
fn heap_eights(alloc: Global) -> Result<FlatExpr, AllocError>
    ensures { IfOk result (λ expr. view_expr expr ≡ heap_eights) }
{
    let low = op(alloc, FlatOp::DivUnsigned, heap_low(), FlatExpr::Number(8))?;
    let high = op(alloc, FlatOp::Mul, heap_high(), FlatExpr::Number(8192))?;
    op(alloc, FlatOp::Add, low, high)
}

fn cut_block(alloc: Global) -> Result<FlatList, AllocError>
    ensures { IfOk result (λ list. view_list list.items ≡ cut_block) }
{
    let left = op(alloc, FlatOp::Sub, heap_eights(alloc)?, FlatExpr::Word(CUT))?;
    let full = op(alloc, FlatOp::Below, left, word(-6))?;
    let refuse = vec![in alloc; FlatStmt::Error(203)]?;
    let number = op(alloc, FlatOp::Add, FlatExpr::Word(CUT), FlatExpr::Number(1))?;
    let tested = vec![in alloc; when(full, refuse, Vec::new(alloc)), set(-8, number)]?;
    let to = CUT;
    let value = op(alloc, FlatOp::Add, FlatExpr::Word(CUT), word(-6))?;
    let counted = vec![in alloc; FlatStmt::StoreWord { to, value }]?;
    then(tested, then(set_pointer(alloc, -2, -4, -8)?, counted)?)
}

fn new_end(alloc: Global) -> Result<FlatList, AllocError>
    ensures { IfOk result (λ list. view_list list.items ≡ new_end) }
{
    Ok(vec![in alloc; when(word(-8), take_block(alloc)?, cut_block(alloc)?)]?)
}

/// A block of so many bytes: a pointer to a free one of that rounded size, or to one that is cut off
/// behind all others; error 203 where there is no room for it.
pub fn new_block(alloc: Global) -> Result<FlatRoutine, AllocError>
    ensures { IfOk result (λ routine. view_routine routine ≡ new_routine) }
{
    let body = then(find_list(alloc)?, new_end(alloc)?)?;
    Ok(routine(name(b"NEW"), 2, 14, -4, 4, body))
}

// ---- Dispose

fn refuse_nil(alloc: Global) -> Result<FlatList, AllocError>
    ensures { IfOk result (λ list. view_list list.items ≡ refuse_nil) }
{
    let refuse = vec![in alloc; FlatStmt::Error(204)]?;
    Ok(vec![in alloc; when(word(10), Vec::new(alloc), refuse)]?)
}

fn put_second(alloc: Global) -> Result<FlatList, AllocError>
    ensures { IfOk result (λ list. view_list list.items ≡ put_second) }
{
    Ok(vec![in alloc;
        set_word_behind(8, 0, word_behind(-4, 0)),
        set_word_behind(8, 2, word_behind(-4, 2)),
        set_word_behind(-4, 0, word(8)),
        set_word_behind(-4, 2, word(10)),
    ]?)
}

// The number of the block that the pointer leads to, counted from 1.
fn disposed_number(alloc: Global) -> Result<FlatExpr, AllocError>
    ensures { IfOk result (λ expr. view_expr expr ≡ disposed_number) }
{
    let paragraphs = op(alloc, FlatOp::Sub, word(10), heap_segment())?;
    let even = op(alloc, FlatOp::Mul, paragraphs, FlatExpr::Number(2))?;
    let odd = op(alloc, FlatOp::DivUnsigned, word(8), FlatExpr::Number(8))?;
    op(
        alloc,
        FlatOp::Add,
        op(alloc, FlatOp::Add, even, odd)?,
        FlatExpr::Number(1),
    )
}

fn begin_list(alloc: Global) -> Result<FlatList, AllocError>
    ensures { IfOk result (λ list. view_list list.items ≡ begin_list) }
{
    let to = FIRST;
    let value = disposed_number(alloc)?;
    Ok(vec![in alloc;
        set_word_behind(8, 0, FlatExpr::Number(0)),
        set_word_behind(8, 2, FlatExpr::Number(0)),
        set_word_behind(8, 4, FlatExpr::Word(FIRST)),
        set_word_behind(8, 6, word(-6)),
        FlatStmt::StoreWord { to, value },
    ]?)
}

fn dispose_end(alloc: Global) -> Result<FlatList, AllocError>
    ensures { IfOk result (λ list. view_list list.items ≡ dispose_end) }
{
    Ok(vec![in alloc; when(word(-8), put_second(alloc)?, begin_list(alloc)?)]?)
}

/// Puts a block of so many bytes into the free list of its rounded size; error 204 for nil.
pub fn dispose_block(alloc: Global) -> Result<FlatRoutine, AllocError>
    ensures { IfOk result (λ routine. view_routine routine ≡ dispose_routine) }
{
    let rest = then(find_list(alloc)?, dispose_end(alloc)?)?;
    Ok(procedure(name(b"DISPOSE"), 6, 10, then(refuse_nil(alloc)?, rest)?))
}

/// The laws of the heap: a new block and one that is disposed of leave it sound, and counted as the sum of
/// blocks counts it; there are no more free lists than eights that were cut off. It does nothing.
pub fn heap_laws()
    ensures made_sound { (size : ℕ) (h : Heap) → 0 < size → IsSound h → IsSound (made size h) }
    ensures made_counts { (size : ℕ) (h : Heap) (rows : List Row) → Counts h rows → Counts (made size h) (with_block (8 * size) rows) }
    ensures disposed_sound { (b : Block) (h : Heap) → IsSound h → Contains h.live b → IsSound (disposed b h) }
    ensures disposed_counts { (b : Block) (h : Heap) (rows : List Row) → Counts h rows → Contains h.live b → Counts (disposed b h) (without_block (8 * b.size) rows) }
    ensures few { (h : Heap) → IsSound h → length h.lists ≤ h.cut }
{}

/// The laws of the heap in memory: its words have their places in each legal choice, before the first New
/// it stands empty, and it stands as long as its words and the free blocks' are the same. It does nothing.
pub fn memory_laws()
    ensures places { (program : FlatProgram) (choice : Choice) (reached : Mention → Bool) → IsLegal program choice (λ mention. IsTrue (reached mention)) → HoldsHeapData program → ReachesHeapData (λ mention. IsTrue (reached mention)) → program.heap ≤ 196608 → HeapPlaces program choice }
    ensures begins { (program : FlatProgram) (choice : Choice) (places : HeapPlaces program choice) (m : Cells) → HeapBegins program choice places m → HeapStands program choice places m empty_heap [] }
    ensures kept { (program : FlatProgram) (choice : Choice) (places : HeapPlaces program choice) (m n : Cells) (h : Heap) (rows : List Row) → IsSameHeap program choice places m n h → HeapStands program choice places m h rows → HeapStands program choice places n h rows }
{}

/// The laws of the routines: in each program whose runtime holds them under their numbers, and wherever
/// its parts lie, they do what the runtime promises. It does nothing.
pub fn block_laws()
    ensures new { (program : FlatProgram) (choice : Choice) (unit : UnitCode) → StackFits program choice → IsHeld program (runtime_key new_number) unit new_routine → Makes program choice }
    ensures dispose { (program : FlatProgram) (choice : Choice) (unit : UnitCode) → StackFits program choice → IsHeld program (runtime_key dispose_number) unit dispose_routine → Disposes program choice }
{}
