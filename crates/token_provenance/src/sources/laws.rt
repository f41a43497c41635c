//! The laws, the contract of a function that does nothing.

ghost use Rattle.token_provenance.specs.sources.Laws.{TreeLaw, SourcesLaw};

/// What the lexer gives stands in each tree that is spelled, so in that of each source that is gathered, and no more `with`s inside
/// one another than are numbered; it does nothing.
pub fn written_source_laws()
    ensures tree { TreeLaw }
    ensures sources { SourcesLaw }
{}
