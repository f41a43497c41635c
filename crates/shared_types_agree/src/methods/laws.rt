//! The laws on methods of programs.

ghost use Rattle.shared_types_agree.specs.methods.Laws.{AnswersLaw, OwnMethodsLaw, LawfulLaw, MethodsLaw};

use crate::programs::consistent_program_laws;
use unit_references::methods::declared_method_laws;

/// In a program that sources give, overriding keeps to the rule, each method has its routine in the unit that declares it, and so a class
/// answers each slot by a method with the header that every type of the line gives it. It does nothing.
pub fn lawful_method_laws()
    ensures answers { AnswersLaw }
    ensures own { OwnMethodsLaw }
    ensures lawful { LawfulLaw }
    ensures methods { MethodsLaw }
{
    consistent_program_laws();
    declared_method_laws();
}
