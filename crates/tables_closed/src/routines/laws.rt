//! The laws on types that blocks name.

ghost use Rattle.tables_closed.specs.routines.Leaving.{LeaveWellScoped};

/// Over a closed scope, the header of a routine and the declarations of a block leave a closed scope.
pub fn leaving_laws()
    ensures { LeaveWellScoped }
{}
