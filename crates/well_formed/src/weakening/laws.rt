//! The laws, the contract of a function that does nothing.

ghost use Rattle.well_formed.specs.weakening.Laws.{ExpressionsStay, PlacesStay, StatementsStay};

use crate::typed_laws;

/// What is typed or well formed in a scope is so in a wider one: with types at the end, and globals, routines and variables, of the unit itself and of others, besides.
pub fn weakening_laws()
    ensures expressions { ExpressionsStay }
    ensures places { PlacesStay }
    ensures statements { StatementsStay }
{
    typed_laws();
}
