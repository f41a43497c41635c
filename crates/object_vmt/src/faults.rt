//! Why a table of types has no classes.

use std::alloc::AllocError;
use type_layout::Name;

/// Why a table of types has no classes.
#[derive(Debug, Drop)]
pub enum ClassError {
    /// An override of a virtual method has another header.
    BadOverride { method: Name },
    /// An override of a virtual method is not virtual.
    MissingVirtual { method: Name },
    /// A field or a method has the name of a field in the line, or a field that of a method.
    DuplicateField { name: Name },
    /// There is no memory, or a class has 2^32 - 1 slots.
    NoMemory,
}

impl From<AllocError> for ClassError {
    ghost use Rattle.std.specs.Prelude.{◌≡◌};
    ghost use Rattle.object_vmt.specs.declared.faults.ClassError.TheVariants.{NoMemory};

    ghost from_gives = { λ _ error. error ≡ NoMemory };

    fn from(_error: AllocError) -> ClassError {
        ClassError::NoMemory
    }
}
