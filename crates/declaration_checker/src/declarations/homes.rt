//! Where variables go.

ghost use Rattle.std.specs.Prelude.{◌≡◌};
ghost use Rattle.declaration_checker.specs.declarations.Progress.{level_of, number_behind};

use type_layout::TypeId;
use typed_tree::Global;

/// Whose variables a block declares.
#[derive(Clone, Copy, Debug, PartialEq, Eq)]
pub enum Home {
    /// Those of the unit.
    Unit,
    /// Those of a routine of this level, 1 for one that no other is round, which has so many variables before: its parameters,
    /// Self and its result.
    Routine { level: u32, first: u32 },
}

/// The level of variables that are declared here.
pub(crate) fn level_of(home: Home) -> u32
    ensures { result ≡ level_of home }
{
    match home {
        Home::Unit => 0,
        Home::Routine { level, .. } => level,
    }
}

/// The number of the next variable. One that 32 bits can't hold stays at the greatest.
pub(crate) fn number_behind(home: Home, globals: &[Global], locals: &[TypeId]) -> u32
    ensures { result ≡ number_behind home globals.now locals.now }
{
    match home {
        Home::Unit => u32::try_from(globals.len()).unwrap_or(u32::MAX),
        Home::Routine { first, .. } => {
            first.saturating_add(u32::try_from(locals.len()).unwrap_or(u32::MAX))
        }
    }
}
