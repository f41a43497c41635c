//! The law on opening programs that overlay nothing.

ghost use Rattle.dos_runner.specs.plain_opening.Laws.{PlainOpening, LargeRefusal, PlainRefusal};

/// An executable without stubs is opened exactly where the memory holds it with the buffer that is asked for.
pub fn plain_opening_law()
    ensures opened { PlainOpening }
    ensures large { LargeRefusal }
    ensures refused { PlainRefusal }
{}
