//! Bytes and strings in memory, and loops that move them, for the proofs of routines.

ghost use Rattle.std.specs.Prelude.{ℕ, ◌+◌, ◌<◌, List, length, take, slice_index_or};
ghost use Rattle.flat_code.specs.declared.memory.Place.{Place};
ghost use Rattle.flat_code.specs.Memory.{Cells, laid};
ghost use Rattle.runtime_proofs.specs.strings_in_memory.Strings.{HasBytes, place};

/// The laws of bytes in memory: a prefix of bytes that stand somewhere stands there too, and bytes that
/// were laid stand there, as far as offsets reach. It does nothing.
pub fn move_laws()
    ensures front { (m : Cells) (p : Place) (i k : ℕ) (bytes : List ℕ) → HasBytes m p i bytes → HasBytes m p i (take k bytes) }
    ensures laid { (m : Cells) (segment offset i : ℕ) (bytes : List ℕ) → i + length bytes < 65536 → ((k : ℕ) → k < length bytes → slice_index_or bytes k 0 < 256) → HasBytes (laid m (place segment offset) i bytes) (place segment offset) i bytes }
{}
