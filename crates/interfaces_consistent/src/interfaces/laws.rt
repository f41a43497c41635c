//! What follows for the interfaces of the sources of every program.

ghost use Rattle.interfaces_consistent.specs.interfaces.Laws.{AreTold, NoneMisfits, NeverMismatched, OnlyMemory};

/// Interfaces that sources of one program show fit one another, whichever of them a source uses and in whatever order; so no source is
/// refused since they don't, and where sources are a program, nothing is told of in its place but out of memory. It does nothing.
pub fn consistent_interface_laws()
    ensures told { AreTold }
    ensures fitting { NoneMisfits }
    ensures folders { NeverMismatched }
    ensures complete { OnlyMemory }
{}
