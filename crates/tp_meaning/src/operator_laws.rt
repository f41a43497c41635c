//! Laws of the operators.

ghost use Rattle.tp_meaning.specs.operator_laws.Laws.{EarlyLaws, OrderLaws, TextOrderLaws, BooleanLaws, RangeLaws};

/// What the left side decides alone is what both sides would give; relations of ordinals are those of numbers, and each is
/// the negation of its opposite, on texts too; `not` turns `and` into `or`; and a range test passes the numbers between its
/// bounds and no other. It does nothing.
pub fn operator_laws()
    ensures early { EarlyLaws }
    ensures order { OrderLaws }
    ensures texts { TextOrderLaws }
    ensures booleans { BooleanLaws }
    ensures range { RangeLaws }
{}
