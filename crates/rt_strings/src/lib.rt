//! The unit of the runtime's routines on numbers, strings and sets, as flat code.
#![tactic(auto)]

pub mod long_integers;
pub mod memory;
pub mod objects;
pub mod set_constructors;
pub mod set_relations;
pub mod sets;
pub mod short_strings;
pub mod string_compare;
pub mod string_joins;
pub mod string_parts;
pub mod string_search;

ghost use Rattle.std.specs.Prelude.{◌≡◌, ◌≤◌, IfOk};
ghost use Rattle.flat_code.specs.Program.{FlatProgram, Choice};
ghost use Rattle.flat_code.specs.Legal.{StackFits};
ghost use Rattle.flat_code.specs.Runtime.{IsRuntime};
ghost use Rattle.flat_code.specs.Plain.{view_unit};
ghost use Rattle.flat_code.specs.Weights.{unit_weight};
ghost use Rattle.flat_code.specs.leaf_routines.Leaves.{AreLeaves};
ghost use Rattle.rt_strings.specs.long_integers.Specifications.{NumbersWork};
ghost use Rattle.rt_strings.specs.Unit.{strings_code, HoldsStrings};
ghost use Rattle.rt_strings.specs.Specifications.{StringsWork, SetsWork, AccessWorks};

use crate::long_integers::{
    between, difference, equal, left_shift, less, negation, product, quotient, range, remainder,
    right_shift, sum,
};
use crate::memory::{load_byte, load_short, load_word, move_bytes};
use crate::objects::{class_size, method};
use crate::set_constructors::include;
use crate::set_relations::{member, same, subset};
use crate::sets::{difference as set_difference, intersection, union};
use crate::short_strings::assign;
use crate::string_compare::compare;
use crate::string_joins::{concat, insert};
use crate::string_parts::{copy, delete, upper};
use crate::string_search::position;
use flat_code::FlatUnit;
use flat_code::flat_builders::name;
use std::alloc::{AllocError, Global};
use type_layout::{Names, Sequence};

fn whole_unit(alloc: Global) -> Result<FlatUnit, AllocError>
    ensures { IfOk result (λ unit. view_unit unit ≡ strings_code) }
{
    let names = vec![in alloc; name(b"STRINGS")]?;
    let routines = vec![in alloc;
        negation(alloc)?,
        product(alloc)?,
        less(alloc)?,
        quotient(alloc)?,
        remainder(alloc)?,
        sum(alloc)?,
        difference(alloc)?,
        equal(alloc)?,
        left_shift(alloc)?,
        right_shift(alloc)?,
        range(alloc)?,
        assign(alloc)?,
        concat(alloc)?,
        insert(alloc)?,
        copy(alloc)?,
        delete(alloc)?,
        upper(alloc)?,
        compare(alloc)?,
        position(alloc)?,
        union(alloc)?,
        set_difference(alloc)?,
        intersection(alloc)?,
        same(alloc)?,
        subset(alloc)?,
        member(alloc)?,
        include(alloc)?,
        load_byte(alloc)?,
        load_short(alloc)?,
        load_word(alloc)?,
        move_bytes(alloc)?,
        between(alloc)?,
        method(alloc)?,
        class_size(alloc)?,
    ]?;
    Ok(FlatUnit {
        names: Names::from_vec(names),
        routines: Sequence::from_vec(routines),
        globals: Sequence::new(alloc),
        vmts: Sequence::new(alloc),
        initial: None,
    })
}

/// The unit of the runtime's routines on numbers, strings and sets. Its code weighs at most 24,000 bytes.
#[tactic(auto, using(crate::proofs::Leaves::as_light))]
pub fn string_routines(alloc: Global) -> Result<FlatUnit, AllocError>
    ensures whole { IfOk result (λ unit. view_unit unit ≡ strings_code) }
    ensures light { IfOk result (λ unit. unit_weight (view_unit unit) ≤ 24000) }
{
    whole_unit(alloc)
}

/// The laws of the routines: in each program that holds their unit, and wherever its parts lie, they
/// compute and do what the runtime promises. They call no others, and each takes at most 64 bytes of the
/// stack. It does nothing.
pub fn routine_laws()
    ensures numbers { (program : FlatProgram) (choice : Choice) → StackFits program choice → HoldsStrings program → NumbersWork program choice }
    ensures strings { (program : FlatProgram) (choice : Choice) → StackFits program choice → HoldsStrings program → StringsWork program choice }
    ensures sets { (program : FlatProgram) (choice : Choice) → StackFits program choice → HoldsStrings program → SetsWork program choice }
    ensures access { (program : FlatProgram) (choice : Choice) → StackFits program choice → HoldsStrings program → AccessWorks program choice }
    ensures leaves { AreLeaves 64 strings_code.routines }
    ensures runtime { (program : FlatProgram) (choice : Choice) → StackFits program choice → HoldsStrings program → IsRuntime program choice }
{}
