//! Laws on typed trees.

ghost use Rattle.well_formed.specs.Example.{IsExample};
ghost use Rattle.well_formed.specs.Laws.{HaveTypes, HaveSlots, PlacesHaveTypes};

/// What a well-formed unit's trees have: the type of each expression but a procedure's call, and of each place, is in the
/// unit's table; each value has one of the four slots. And an example: a loop that is typed, and three expressions that are not.
pub fn typed_laws()
    ensures types { HaveTypes }
    ensures slots { HaveSlots }
    ensures places { PlacesHaveTypes }
    ensures example { IsExample }
{}
