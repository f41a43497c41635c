//! The laws on routines.

ghost use Rattle.tp_check_decl.specs.routines.Laws.{AreExact, AreLawful};

/// Routines and declarations are typed exactly where no rule fails in them, and then they leave one unit alone. Of what they are
/// read to, that is the unit; else it is a fault that is there.
pub fn routine_laws()
    ensures exact { AreExact }
    ensures lawful { AreLawful }
{}
