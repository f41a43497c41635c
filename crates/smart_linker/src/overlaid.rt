//! Which units can be overlaid.

ghost use Rattle.std.specs.Prelude.{◌≡◌, None, Some, MatchOption, OnOk, IfErr};
ghost use Rattle.smart_linker.specs.Overlaid.{has_overlays, is_unfit, is_unmarked, first_where, CanBeOverlaid};
ghost use Rattle.smart_linker.specs.Refused.{IsRefused};

use crate::error::LinkError;
use crate::unit::LinkUnit;
use type_layout::Name;

/// Whether a unit is overlaid.
pub(crate) fn has_overlays(units: &[LinkUnit]) -> bool
    ensures { result ≡ has_overlays units.now }
{
    units.iter().any(|unit| unit.overlaid)
}

/// The first overlaid unit that wasn't compiled for that.
fn first_unfit(units: &[LinkUnit]) -> Option<Name>
    ensures { MatchOption result (first_where is_unfit units.now ≡ None) (λ name. first_where is_unfit units.now ≡ Some name) }
{
    match units {
        [] => None,
        [unit, rest @ ..] => {
            if unit.overlaid && !unit.overlayable {
                Some(unit.name.copied())
            } else {
                first_unfit(rest)
            }
        }
    }
}

/// The first unit whose frames aren't marked.
fn first_unmarked(units: &[LinkUnit]) -> Option<Name>
    ensures { MatchOption result (first_where is_unmarked units.now ≡ None) (λ name. first_where is_unmarked units.now ≡ Some name) }
{
    match units {
        [] => None,
        [unit, rest @ ..] => {
            if unit.marked {
                first_unmarked(rest)
            } else {
                Some(unit.name.copied())
            }
        }
    }
}

/// Refuses a unit that can't be overlaid, or whose frames aren't marked in a program with overlays.
pub(crate) fn check_overlaid(units: &[LinkUnit]) -> Result<(), LinkError>
    ensures ok { OnOk result (CanBeOverlaid units.now) }
    ensures err { IfErr result (IsRefused units.now) }
{
    if let Some(unit) = first_unfit(units) {
        return Err(LinkError::NotOverlayable { unit });
    }
    if has_overlays(units)
        && let Some(unit) = first_unmarked(units)
    {
        return Err(LinkError::OldFrames { unit });
    }
    Ok(())
}
