//! That the meaning of a program looks at no more of its statements than their views.

ghost use Rattle.address_independence.specs.congruence.Laws.{MeansAlike};

/// Programs that are the same but for where their statements lie in memory mean the same; it does nothing.
pub fn same_meaning_law()
    ensures { MeansAlike }
{}
