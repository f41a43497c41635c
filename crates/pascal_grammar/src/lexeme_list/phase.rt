//! Where in a source directives may stand.

ghost use Rattle.std.specs.Prelude.{◌≡◌};
ghost use Rattle.pascal_grammar.specs.lexeme_list.Phases.{phase_after, takes_memory, takes_overlaid, first_phase};

use crate::Kind;

/// The part of a source that the next token belongs to, as far as it matters to directives.
#[derive(Clone, Copy, Debug, PartialEq, Eq)]
pub enum Phase {
    /// Before the first token of a program.
    Start,
    /// From `program` to the semicolon of its heading.
    Heading,
    /// Behind a heading.
    BehindHeading,
    /// From `uses` to its semicolon.
    Uses,
    /// Behind the uses clause.
    BehindUses,
    /// Behind the first token of the declarations or of the main part.
    Body,
    /// In a unit.
    Unit,
}

impl Phase {
    /// The phase in front of the first token of a source, of this kind.
    pub fn first(kind: Option<Kind>) -> Phase
        ensures { result ≡ first_phase kind }
    {
        match kind {
            Some(Kind::Unit) => Phase::Unit,
            _ => Phase::Start,
        }
    }

    /// The phase behind a token of the kind.
    pub fn after(self, kind: Kind) -> Phase
        ensures { result ≡ phase_after self kind }
    {
        match (self, kind) {
            (Phase::Start, Kind::Program) => Phase::Heading,
            (Phase::Start | Phase::BehindHeading, Kind::Uses) => Phase::Uses,
            (Phase::Heading, Kind::Semicolon) => Phase::BehindHeading,
            (Phase::Uses, Kind::Semicolon) => Phase::BehindUses,
            (Phase::Heading | Phase::Uses | Phase::Unit, _) => self,
            _ => Phase::Body,
        }
    }

    /// Whether sizes of the stack and of the heap may stand there.
    pub fn takes_memory(self) -> bool
        ensures { result ≡ takes_memory self }
    {
        !matches!(self, Phase::Body)
    }

    /// Whether a unit that is to be overlaid may be named there.
    pub fn takes_overlaid(self) -> bool
        ensures { result ≡ takes_overlaid self }
    {
        matches!(self, Phase::BehindUses | Phase::Unit)
    }
}
