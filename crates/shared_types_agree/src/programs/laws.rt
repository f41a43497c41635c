//! The laws on types of several units.

ghost use Rattle.shared_types_agree.specs.programs.Laws.{TableConsistencyLaw, ConsistencyLaw, ListedLaw, DeclarersLaw, ClassesLaw};

use interfaces_consistent::interface_soundness::programs::program_laws;
use unit_references::store_typing::classes::declared_class_laws;

/// The units of a program agree on the types that they share, each is found by its name, and so is each class by the key of its type. Units
/// agree where the table of each tells of types what the interfaces of the units that declare these tell. It does nothing.
pub fn consistent_program_laws()
    ensures told { TableConsistencyLaw }
    ensures agreed { ConsistencyLaw }
    ensures listed { ListedLaw }
    ensures declarers { DeclarersLaw }
    ensures classes { ClassesLaw }
{
    program_laws();
    declared_class_laws();
}
