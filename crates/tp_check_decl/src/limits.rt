//! The limit on what a routine takes of the stack.

ghost use Rattle.std.specs.Prelude.{◌≡◌};
ghost use Rattle.typing_rules.specs.Judgements.{Gives};
ghost use Rattle.tp_check_decl.specs.Units.{view_routine};
ghost use Rattle.tp_check_decl.specs.Limits.{own_bytes, within_limit};

use type_layout::{Place, Types};
use typed_tree::Routine;
use typing_rules::{Refusal, too_large};

/// The most bytes that a routine may take for itself: its variables, its copies of arguments, its result, and what its statements
/// take at most.
pub const OWN_LIMIT: u64 = 65_000;

#[tactic(auto, unfolding(crate::specs::Limits::own_bytes))]
fn own_bytes(types: &Types, one: &Routine) -> u64
    ensures { result ≡ own_bytes types.now.types (view_routine one.now) }
{
    typed_tree::own_bytes(types, one)
}

/// A routine whose block begins at a place, and which takes no more bytes than may be.
pub(crate) fn within_limit(types: &Types, place: Place, one: &Routine) -> Result<(), Refusal>
    ensures { Gives (λ _. tt) result (within_limit types.now.types place (view_routine one.now)).run }
{
    let bytes = own_bytes(types, one);
    if bytes <= OWN_LIMIT {
        Ok(())
    } else {
        Err(Refusal::Because(too_large(place, bytes)))
    }
}
