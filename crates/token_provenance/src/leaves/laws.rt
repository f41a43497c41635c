//! The law on what is in the trees of sources.

ghost use Rattle.token_provenance.specs.leaves.Laws.{SpelledLaw};

/// The leaves of each source's tree are what the lexer may give, no part of the tree is lost, and it isn't deeper than the parser
/// allows: if the texts are made of bytes.
pub fn spelled_law()
    ensures { SpelledLaw }
{}
