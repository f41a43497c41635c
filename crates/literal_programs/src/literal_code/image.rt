//! The executable of a program of literals.

ghost use Rattle.std.specs.Prelude.{◌≡◌, ◌≤◌, ◌++◌, ℕ, List, [], ◌∷◌, OnOk, IfOk, length, replicate};
ghost use Rattle.literal_programs.specs.literal_code.Statement.{shown};
ghost use Rattle.literal_programs.specs.literal_code.LiteralProgram.{statements_of, IsFull};
ghost use Rattle.literal_programs.specs.literal_code.Size.{image_size};
ghost use Rattle.mz_file.specs.Format.{Denotes};
ghost use Rattle.mz_file.specs.Spelling.{IsWritable};
ghost use Rattle.mz_file.specs.Load.{IsLoadable, paragraphs_taken};
ghost use Rattle.literal_programs.specs.literal_code.Code.{start_code, error_code, spelled};
ghost use Rattle.literal_programs.specs.literal_code.Image.{executable_of, image_of, data_segment, code_size};
ghost use Rattle.literal_programs.specs.literal_code.Ends.{AlwaysEnds, EndsWithin};

use crate::literal_code::code::{acts_code, push_error_routine, push_start};
use crate::literal_code::program::LiteralProgram;
use cpu_8086::Far;
use mz_file::{Block, Exe, FarList, Segments};
use std::alloc::{AllocError, Global};
use type_layout::Bytes;

/// The memory that a program has besides its code and data, in bytes.
#[derive(Clone, Copy, Debug, PartialEq, Eq)]
pub struct Memory {
    pub stack: u16,
    pub heap: u32,
}

fn push_zeros(bytes: &mut Bytes, count: usize) -> Result<(), AllocError>
    ensures { OnOk result (bytes.new ≡ bytes.old ++ replicate count 0) }
{
    for _ in 0..count {
        bytes.push(0)?;
    }
    Ok(())
}

/// An image, and where its parts lie.
#[derive(Drop)]
struct Image {
    bytes: Bytes,
    data_segment: u16,
    code_size: u16,
}

/// The parts of an image, one behind the other: the start, the code of the acts, the error routine, zeros, the texts,
/// and the byte that says whether an overlay manager is installed.
fn join(
    alloc: Global,
    segment: u16,
    body: &[u8],
    gap: usize,
    pool: &[u8],
) -> Result<Bytes, AllocError>
    ensures { IfOk result (λ bytes. bytes ≡ spelled (start_code segment) ++ body.now ++ spelled error_code
        ++ replicate gap 0 ++ pool.now ++ 0 ∷ []) }
{
    let mut bytes = Bytes::new(alloc);
    push_start(&mut bytes, segment)?;
    bytes.extend_from_slice(body)?;
    push_error_routine(&mut bytes)?;
    push_zeros(&mut bytes, gap)?;
    bytes.extend_from_slice(pool)?;
    bytes.push(0)?;
    Ok(bytes)
}

/// The code, and behind it the data.
fn lay_out(alloc: Global, program: &LiteralProgram) -> Result<Image, AllocError>
    ensures bytes { IfOk result (λ made. made.bytes ≡ image_of program.now.pool.items program.now.acts.items) }
    ensures segment { IfOk result (λ made. made.data_segment ≡ data_segment program.now.acts.items) }
    ensures size { IfOk result (λ made. made.code_size ≡ code_size program.now.acts.items) }
{
    let body = acts_code(alloc, program)?;
    let size = 8 + body.len() + 4;
    let data_segment = (size + 15) / 16;
    let gap = 16 * data_segment - size;
    let bytes = join(
        alloc,
        data_segment as u16,
        body.as_slice(),
        gap,
        program.pool.as_slice(),
    )?;
    Ok(Image {
        bytes,
        data_segment: data_segment as u16,
        code_size: size as u16,
    })
}

/// The relocation of the data segment's word, in the first instruction.
fn relocations(alloc: Global) -> Result<FarList, AllocError>
    ensures { IfOk result (λ list. list ≡ record { offset = 1; segment = 0 } ∷ []) }
{
    let mut list = FarList::new(alloc);
    list.push(Far {
        offset: 1,
        segment: 0,
    })?;
    Ok(list)
}

fn assemble(alloc: Global, program: &LiteralProgram, memory: Memory) -> Result<Exe, AllocError>
    requires stack { memory.stack ≤ 65520 }
    requires heap { memory.heap ≤ 196608 }
    ensures { IfOk result (λ exe. exe ≡ executable_of memory program.now.pool.items program.now.acts.items) }
{
    let Image {
        bytes,
        data_segment,
        code_size,
    } = lay_out(alloc, program)?;
    let relocations = relocations(alloc)?;
    Ok(Exe {
        image: bytes,
        relocations,
        entry: Far {
            offset: 0,
            segment: 0,
        },
        stack: Far {
            offset: memory.stack,
            segment: data_segment + (program.pool.len() as u16 + 1 + 15) / 16,
        },
        extra: (memory.stack + 15) / 16 + ((memory.heap + 15) / 16) as u16,
        block: Block {
            stubs: Segments::new(alloc),
            largest: 0,
            error_routine: Far {
                offset: code_size - 4,
                segment: 0,
            },
            installed: Far {
                offset: program.pool.len() as u16,
                segment: data_segment,
            },
            stack: memory.stack,
            heap: memory.heap,
            data_segment,
            data_bytes: program.pool.len() as u16 + 1,
            marked: true,
        },
    })
}

/// The executable of a program of literals with this memory. It does what the program says: each list of bytes that
/// stands for it always ends as the statements show, and its run is short. Its image has no more than the code and the texts.
pub fn executable(
    alloc: Global,
    program: &LiteralProgram,
    memory: Memory,
) -> Result<Exe, AllocError>
    requires stack { memory.stack ≤ 65520 }
    requires heap { memory.heap ≤ 196608 }
    ensures exact { IfOk result (λ exe. exe ≡ executable_of memory program.now.pool.items program.now.acts.items) }
    ensures writable { IfOk result IsWritable }
    ensures loadable { IfOk result IsLoadable }
    ensures ends { IfOk result (λ exe. (bytes : List ℕ) →
        Denotes bytes exe → AlwaysEnds bytes (shown (statements_of program.now))) }
    ensures short { IfOk result (λ exe. (bytes input : List ℕ) →
        Denotes bytes exe → EndsWithin 16389 bytes input (shown (statements_of program.now))) }
    ensures fits { IfOk result (λ exe. paragraphs_taken exe ≤ 0xA000) }
    ensures size { IfOk result (λ exe. IsFull program.now → length exe.image ≡ image_size (statements_of program.now)) }
{
    let exe = assemble(alloc, program, memory)?;
    Ok(exe)
}
