//! Reading the whole input.

ghost use Rattle.std.specs.Prelude.{◌≡◌, ◌≤◌, ◌<◌, ◌+◌, Err, IfOk, IfErr, IfSome, OnErr, MatchResult, length};
ghost use Rattle.tp_outside.specs.Faults.{HasRisen};
ghost use Rattle.tp_outside.specs.Streams.{GaveSome};
ghost use Rattle.tp_outside.specs.whole_input.Input.{IsWhole, IsTooLong, Unless};
ghost use Rattle.tp_outside.specs.declared.whole_input.error.InputError.{InputError};

use crate::whole_input::error::InputError;
use crate::{ReadError, Source, read_source};
use std::alloc::Global;

/// The most bytes that an input may have.
pub const INPUT_LIMIT: usize = 1_048_576;

/// All bytes of a source that are still to come, which is read to its end. Where there are more than an input may have, one more
/// than that is read, and no more.
pub fn whole_input<S: Source>(alloc: Global, input: &mut S) -> Result<Vec<u8>, InputError>
    ensures whole { IfOk result (λ bytes. IsWhole (S.remaining input.old) (S.remaining input.new) bytes.items) }
    ensures large { IfErr result (IsTooLong (S.remaining input.old) (S.remaining input.new)) }
    // Where the source tells what is to come, an input within the limit is what is answered, and a longer one is told as such: but
    // for a fault of the source or out of memory.
    ensures accepts { IfSome (S.remaining input.old) (λ held. length held ≤ INPUT_LIMIT
        → MatchResult result (λ bytes. bytes.items ≡ held) (λ error. Unless error ⊥)) }
    ensures refuses { IfSome (S.remaining input.old) (λ held. INPUT_LIMIT < length held
        → MatchResult result (λ _. ⊥) (λ error. Unless error (error ≡ InputError.TooLarge (INPUT_LIMIT + 1)))) }
    ensures lost { OnErr result (GaveSome (S.remaining input.old) (S.remaining input.new)) }
    ensures counted { S.faults input.old ≤ S.faults input.new }
    ensures failed { result ≡ Err InputError.Failed → HasRisen (S.faults input.old) (S.faults input.new) }
{
    let bytes = match read_source(alloc, input, INPUT_LIMIT + 1) {
        Ok(bytes) => bytes,
        Err(ReadError::Failed) => return Err(InputError::Failed),
        Err(ReadError::NoMemory) => return Err(InputError::NoMemory),
    };
    if bytes.len() > INPUT_LIMIT {
        return Err(InputError::TooLarge {
            bytes: bytes.len() as u64,
        });
    }
    Ok(bytes)
}
