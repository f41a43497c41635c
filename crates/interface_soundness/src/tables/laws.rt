//! The laws on the tables of checked units.

ghost use Rattle.interface_soundness.specs.tables.Tables.{StayWellScoped, ShowAlike};

use crate::interfaces::agreement_laws;

/// Over a complete scope, the types behind a unit, and behind its interface part alone, name types of their table alone. So what the
/// unit shows is what its interface part shows.
pub fn table_laws()
    ensures closed { StayWellScoped }
    ensures alike { ShowAlike }
{
    agreement_laws();
}
