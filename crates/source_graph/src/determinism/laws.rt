//! The laws on what a folder is read as.

ghost use Rattle.source_graph.specs.determinism.Laws.{OneReading, ReadOrRefused, OneRefusal, AlikeUses};

/// The sources of a program in one folder are gathered in one way, up to what the grammar does not tell of their trees; or they
/// are refused in one way, and not gathered.
pub fn reading_laws()
    ensures one { OneReading }
    ensures not_both { ReadOrRefused }
    ensures refusal { OneRefusal }
    ensures uses { AlikeUses }
{}
