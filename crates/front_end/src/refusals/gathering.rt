//! Sources that are not gathered.

ghost use Rattle.std.specs.Prelude.{◌≡◌};
ghost use Rattle.front_end.specs.refusals.Outcomes.{gather_outcome};

use crate::outcomes::{Outcome, Refusal, What};
use source_graph::GatherError;

/// The outcome where the sources of a program are not gathered.
pub fn gather_outcome(error: GatherError) -> Outcome
    ensures { result ≡ gather_outcome error }
{
    Outcome::Refused(match error {
        GatherError::MissingFile { name } => Refusal::MissingFile { name },
        GatherError::TooLarge { bytes } => Refusal::TooLarge {
            what: What::Source,
            number: bytes,
        },
        GatherError::BadToken { at, cause } => Refusal::BadToken { at, cause },
        GatherError::Syntax { at } => Refusal::Syntax { at },
        GatherError::NotInProfile { at, feature } => Refusal::NotInProfile { at, feature },
        GatherError::TooDeep { at } => Refusal::TooDeep { at },
        GatherError::FilesFault => return Outcome::FilesFault,
        GatherError::NoMemory => return Outcome::NoMemory,
    })
}
