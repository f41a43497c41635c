//! The laws on typed programs that are the same.

ghost use Rattle.literal_form_laws.specs.congruence.Laws.{SaysAlike, MemoryAlike, HasMemoryAlike};

/// Programs that are the same but for where their statements lie in memory say the same, so both are programs of literals or
/// neither is; and they have the same memory.
pub fn same_literal_laws()
    ensures says { SaysAlike }
    ensures memory { MemoryAlike }
    ensures executable { HasMemoryAlike }
{}
