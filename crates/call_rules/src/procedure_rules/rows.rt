//! The table of the standard procedures.

ghost use Rattle.std.specs.Prelude.{◌≡◌};
ghost use Rattle.call_rules.specs.procedure_rules.Rows.{count_of, slots_in, slots_of, is_listed, is_procedure};

use crate::standard_rules::Want;
use typed_tree::standard::{
    DEC, DELETE, DISPOSE, EXIT, HALT, INC, INSERT, NEW, READ, READ_LN, STR, VAL, WRITE, WRITE_LN,
};

/// What is asked of an argument: a value, a pointer, or a variable of an ordinal type, of an integer type, that is a string, or
/// that is a pointer.
#[derive(Clone, Copy, Debug, PartialEq, Eq)]
pub enum Slot {
    Value(Want),
    Pointer,
    Ordinal,
    Whole,
    Line,
    Link,
}

/// What is asked of all arguments, in order.
#[derive(Clone, Copy, Debug, PartialEq, Eq)]
pub enum Slots {
    One(Slot),
    Pair(Slot, Slot),
    Triple(Slot, Slot, Slot),
}

const INTEGER: Slot = Slot::Value(Want::Integer);

const TEXT: Slot = Slot::Value(Want::Text);

// The procedures without widths by their numbers, once for each count of arguments.
const ROWS: [(u32, Slots); 9] = [
    (INC, Slots::One(Slot::Ordinal)),
    (INC, Slots::Pair(Slot::Ordinal, INTEGER)),
    (DEC, Slots::One(Slot::Ordinal)),
    (DEC, Slots::Pair(Slot::Ordinal, INTEGER)),
    (DELETE, Slots::Triple(Slot::Line, INTEGER, INTEGER)),
    (INSERT, Slots::Triple(TEXT, Slot::Line, INTEGER)),
    (VAL, Slots::Triple(TEXT, Slot::Whole, Slot::Whole)),
    (NEW, Slots::One(Slot::Link)),
    (DISPOSE, Slots::One(Slot::Pointer)),
];

// All procedures, also those that have no row.
const PROCEDURES: [u32; 14] = [
    INC, DEC, DELETE, INSERT, STR, VAL, WRITE, WRITE_LN, READ, READ_LN, NEW, DISPOSE, HALT, EXIT,
];

fn count_of(slots: Slots) -> usize
    ensures { result ≡ count_of slots }
{
    match slots {
        Slots::One(_) => 1,
        Slots::Pair(..) => 2,
        Slots::Triple(..) => 3,
    }
}

fn slots_in(rows: &[(u32, Slots)], number: u32, count: usize) -> Option<Slots>
    ensures { result ≡ slots_in rows.now number count }
{
    match rows {
        [] => None,
        [row, rest @ ..] => {
            if row.0 == number && count_of(row.1) == count {
                Some(row.1)
            } else {
                slots_in(rest, number, count)
            }
        }
    }
}

/// What is asked of so many arguments of the standard procedure with a number.
#[tactic(auto, unfolding(crate::specs::procedure_rules::Rows::rows))]
pub(crate) fn slots_of(number: u32, count: usize) -> Option<Slots>
    ensures { result ≡ slots_of number count }
{
    slots_in(&ROWS, number, count)
}

fn is_listed(numbers: &[u32], number: u32) -> bool
    ensures { result ≡ is_listed numbers.now number }
{
    match numbers {
        [] => false,
        [one, rest @ ..] => *one == number || is_listed(rest, number),
    }
}

/// Whether the standard routine with a number is a procedure.
#[tactic(auto, unfolding(crate::specs::procedure_rules::Rows::procedures))]
pub(crate) fn is_procedure(number: u32) -> bool
    ensures { result ≡ is_procedure number }
{
    is_listed(&PROCEDURES, number)
}
