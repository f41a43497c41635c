//! Operators and signs.

ghost use Rattle.std.specs.Prelude.{◌≡◌, not};
ghost use Rattle.typed_tree.specs.Expressions.{view_expr};
ghost use Rattle.typing_rules.specs.Judgements.{Gives};
ghost use Rattle.typing_rules.specs.Operators.{combined};
ghost use Rattle.typing_rules.specs.Selectors.{indexed};
ghost use Rattle.tp_check_expr.specs.Typed.{marked};

use pascal_grammar::Position;
use std::alloc::Global;
use syntax_tree::PlacedSign;
use syntax_tree::expression_tree::of_sign;
use type_layout::{Place, Types};
use typed_tree::{BinaryOp, Expr};
use typing_rules::{Refusal, indexed, signed};

/// An operand behind a sign, if one stands before it.
pub(crate) fn marked(
    alloc: Global,
    types: &Types,
    sign: Option<PlacedSign>,
    operand: Expr,
) -> Result<Expr, Refusal>
    ensures { Gives view_expr result (marked types.now.types sign (view_expr operand)).run }
{
    match sign {
        None => Ok(operand),
        Some(mark) => signed(
            alloc,
            types,
            mark.position.place,
            of_sign(mark.sign),
            operand,
        ),
    }
}

/// An element at an index, behind a bracket that stands here.
pub(crate) fn element(
    alloc: Global,
    types: &Types,
    here: Position,
    owner: Expr,
    index: Expr,
) -> Result<Expr, Refusal>
    ensures { Gives view_expr result (indexed types.now.types here.place here.switches.r (view_expr owner) (view_expr index)).run }
{
    indexed(alloc, types, here.place, here.switches.r, owner, index)
}

/// Two operands of an operator, where these switches hold.
pub(crate) fn combined(
    alloc: Global,
    types: &Types,
    here: Position,
    op: BinaryOp,
    left: Expr,
    right: Expr,
) -> Result<Expr, Refusal>
    ensures { Gives view_expr result (combined types.now.types here.place op (not here.switches.b) (view_expr left) (view_expr right)).run }
{
    typing_rules::combined(alloc, types, here.place, op, !here.switches.b, left, right)
}
