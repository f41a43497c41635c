//! Places that expressions load from.

ghost use Rattle.std.specs.Prelude.{◌≡◌};
ghost use Rattle.std.specs.Option.{option_map};
ghost use Rattle.typed_tree.specs.Expressions.{view_expr};
ghost use Rattle.tp_check_stmt.specs.Places.{view_target, spot_of};

use type_layout::TypeId;
use typed_tree::{Expr, PlaceExpr};

/// A place, and the type of what it holds.
#[derive(Drop)]
pub(crate) struct Target {
    pub ty: TypeId,
    pub at: PlaceExpr,
}

/// The place that an expression loads from, if it is a variable or a part of one.
pub(crate) fn spot_of(value: Expr) -> Option<Target>
    ensures { option_map view_target result ≡ spot_of (view_expr value) }
{
    match value {
        Expr::Load { ty, place } => Some(Target {
            ty,
            at: Box::into_inner(place),
        }),
        _ => None,
    }
}
