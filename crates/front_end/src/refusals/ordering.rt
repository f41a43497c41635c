//! Sources that have no order of initialisation.

ghost use Rattle.std.specs.Prelude.{◌≡◌};
ghost use Rattle.front_end.specs.refusals.Outcomes.{order_outcome};

use crate::outcomes::{Outcome, Refusal};
use unit_interface::OrderError;

/// The outcome where sources have no order of initialisation.
pub fn order_outcome(error: OrderError) -> Outcome
    ensures { result ≡ order_outcome error }
{
    match error {
        OrderError::Circular { name } => Outcome::Refused(Refusal::Circular { unit: name }),
        OrderError::NoMemory => Outcome::NoMemory,
    }
}
