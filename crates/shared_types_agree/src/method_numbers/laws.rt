//! The law on methods of object types.

ghost use Rattle.shared_types_agree.specs.method_numbers.Laws.{MethodsLaw};

/// In the table of each unit of a program no object type declares two methods of one name, and it is dynamic just where one of them is
/// virtual, a constructor or a destructor. It does nothing.
pub fn numbered_method_laws()
    ensures { MethodsLaw }
{}
