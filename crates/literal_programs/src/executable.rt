//! The executable of a program of literals.

ghost use Rattle.std.specs.Prelude.{◌≡◌, ◌≤◌, ℕ, List, [], IfOk, IfSome, None, length};
ghost use Rattle.tp_meaning.specs.Meaning.{mean};
ghost use Rattle.mz_file.specs.Format.{Denotes};
ghost use Rattle.mz_file.specs.Spelling.{IsWritable};
ghost use Rattle.mz_file.specs.Load.{IsLoadable, paragraphs_taken};
ghost use Rattle.literal_programs.specs.literal_code.Ends.{EndsWithin};
ghost use Rattle.literal_programs.specs.literal_code.LiteralProgram.{IsFull};
ghost use Rattle.literal_programs.specs.literal_code.Size.{image_size};
ghost use Rattle.literal_programs.specs.Agrees.{Agrees};
ghost use Rattle.literal_programs.specs.Literals.{IsLiteral};
ghost use Rattle.literal_programs.specs.Memory.{HasMemoryOf, IsMemoryOf};
ghost use Rattle.literal_programs.specs.Reading.{Gives, said_by};

use crate::literal_code::{LiteralProgram, Memory, executable};
use crate::main_part::{main_part, memory_of, only_unit};
use crate::reading::{Unread, add_statement};
use mz_file::Exe;
use std::alloc::{AllocError, Global};
use typed_tree::Program;

/// What a typed program says, and its memory.
fn read_program(alloc: Global, program: &Program) -> Result<(LiteralProgram, Memory), Unread>
    ensures says { Gives result (said_by program.now) }
    ensures full { IfOk result (λ read. IsFull read.0) }
    ensures memory { IfOk result (λ read. IsMemoryOf program.now read.1) }
    ensures stack { IfOk result (λ read. read.1.stack ≤ 65520) }
    ensures heap { IfOk result (λ read. read.1.heap ≤ 196608) }
{
    let unit = only_unit(program).ok_or(Unread::Other)?;
    let routine = main_part(unit).ok_or(Unread::Other)?;
    let mut said = LiteralProgram::new(alloc);
    add_statement(&mut said, &unit.types, &routine.body)?;
    Ok((said, memory_of(unit)))
}

/// The executable of a typed program that is one of literals, and None where it is none.
///
/// The executable does what the program means: each list of bytes that stands for it agrees with the program, and its run is
/// short. It has the stack and the heap of the program, and its image is as large as what the program says asks for.
pub fn literal_executable(alloc: Global, program: &Program) -> Result<Option<Exe>, AllocError>
    ensures literal { IfOk result (λ made. IfSome made (λ exe. IsLiteral program.now)) }
    ensures other { IfOk result (λ made. made ≡ None → IsLiteral program.now → ⊥) }
    ensures writable { IfOk result (λ made. IfSome made IsWritable) }
    ensures loadable { IfOk result (λ made. IfSome made IsLoadable) }
    ensures plain { IfOk result (λ made. IfSome made (λ exe. exe.block.stubs ≡ [])) }
    ensures memory { IfOk result (λ made. IfSome made (HasMemoryOf program.now)) }
    ensures agrees { IfOk result (λ made. IfSome made (λ exe. (bytes : List ℕ) →
        Denotes bytes exe → Agrees program.now bytes)) }
    ensures short { IfOk result (λ made. IfSome made (λ exe. (bytes input : List ℕ) (turns : ℕ) →
        Denotes bytes exe → EndsWithin 16389 bytes input (mean program.now input turns))) }
    ensures fits { IfOk result (λ made. IfSome made (λ exe. paragraphs_taken exe ≤ 0xA000)) }
    ensures size { IfOk result (λ made. IfSome made (λ exe. (literal : IsLiteral program.now) → length exe.image ≡ image_size literal.statements)) }
{
    match read_program(alloc, program) {
        Ok((said, memory)) => Ok(Some(executable(alloc, &said, memory)?)),
        Err(Unread::Other) => Ok(None),
        Err(Unread::NoMemory) => Err(AllocError),
    }
}
