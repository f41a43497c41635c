//! The unit of the runtime's routines on text, as flat code.
#![tactic(auto)]

pub mod numeral_steps;
pub mod read_numbers;
pub mod read_strings;
pub mod read_text;
pub mod str_routines;
pub mod val_routines;
pub mod write_numbers;
pub mod write_text;

ghost use Rattle.std.specs.Prelude.{◌≡◌, ◌≤◌, IfOk, ℕ, Bool, true, IsTrue, Contains};
ghost use Rattle.flat_code.specs.Program.{FlatProgram, Choice, text_unit};
ghost use Rattle.flat_code.specs.Legal.{StackFits, Mention, ToDatum, IsLegal};
ghost use Rattle.flat_code.specs.Plain.{view_unit, view_datum};
ghost use Rattle.flat_code.specs.Weights.{unit_weight};
ghost use Rattle.runtime_proofs.specs.text_memory.Data.{item_key, ahead_key, item_datum, ahead_datum, HasText};
ghost use Rattle.runtime_proofs.specs.start_data.Start.{FirstsFit, FitsRuntime};
ghost use Rattle.flat_code.specs.leaf_routines.Leaves.{AreLeaves};
ghost use Rattle.rt_text.specs.Unit.{text_code, HoldsTextUnit};
ghost use Rattle.rt_text.specs.Specifications.{TextWorks, StartsText};

use crate::read_numbers::read_number;
use crate::read_strings::read_string;
use crate::read_text::{eof, eoln, read_char, read_line};
use crate::str_routines::str_integer;
use crate::val_routines::{val_place, val_value};
use crate::write_numbers::write_integer;
use crate::write_text::{write_boolean, write_char, write_line, write_string};
use flat_code::flat_builders::name;
use flat_code::{FlatDatum, FlatUnit};
use std::alloc::{AllocError, Global};
use type_layout::{Bytes, Names, Sequence};

fn item(alloc: Global) -> Result<FlatDatum, AllocError>
    ensures { IfOk result (λ datum. view_datum datum ≡ item_datum) }
{
    let first = Bytes::from_vec(vec![in alloc; 32u8; 256]?);
    Ok(FlatDatum { size: 512, first })
}

fn ahead(alloc: Global) -> Result<FlatDatum, AllocError>
    ensures { IfOk result (λ datum. view_datum datum ≡ ahead_datum) }
{
    let first = Bytes::from_vec(vec![in alloc; 0u8, 1u8]?);
    Ok(FlatDatum { size: 2, first })
}

fn whole_unit(alloc: Global) -> Result<FlatUnit, AllocError>
    ensures { IfOk result (λ unit. view_unit unit ≡ text_code) }
{
    let names = vec![in alloc; name(b"TEXT")]?;
    let routines = vec![in alloc;
        write_string(alloc)?,
        write_char(alloc)?,
        write_boolean(alloc)?,
        write_line(alloc)?,
        eof(alloc)?,
        eoln(alloc)?,
        read_char(alloc)?,
        read_line(alloc)?,
        write_integer(alloc)?,
        read_string(alloc)?,
        val_value(alloc)?,
        val_place(alloc)?,
        read_number(alloc)?,
        str_integer(alloc)?,
    ]?;
    let globals = vec![in alloc; item(alloc)?, ahead(alloc)?]?;
    Ok(FlatUnit {
        names: Names::from_vec(names),
        routines: Sequence::from_vec(routines),
        globals: Sequence::from_vec(globals),
        vmts: Sequence::new(alloc),
        initial: None,
    })
}

/// The unit of the runtime's routines on text. Its code weighs at most 18,000 bytes.
#[tactic(auto, using(crate::proofs::Leaves::as_light))]
pub fn text_routines(alloc: Global) -> Result<FlatUnit, AllocError>
    ensures whole { IfOk result (λ unit. view_unit unit ≡ text_code) }
    ensures light { IfOk result (λ unit. unit_weight (view_unit unit) ≤ 18000) }
{
    whole_unit(alloc)
}

/// The laws of the unit. In each program that holds it, and wherever its parts lie, its routines do
/// what the runtime promises; in a legal choice that reaches its data they lie apart from each other
/// and from the stack, and as the program starts they are as the routines want them. Its routines call no others, and each takes at most 48 bytes of the stack. It
/// does nothing.
pub fn text_laws()
    ensures works { (program : FlatProgram) (choice : Choice) (item ahead : ℕ) → StackFits program choice → HoldsTextUnit program → HasText program choice item ahead → TextWorks program choice item ahead }
    ensures places { (program : FlatProgram) (choice : Choice) (reached : Mention → Bool) → IsLegal program choice (λ mention. IsTrue (reached mention)) → HoldsTextUnit program → reached (ToDatum item_key) ≡ true → reached (ToDatum ahead_key) ≡ true → (item : ℕ) × (ahead : ℕ) × HasText program choice item ahead }
    ensures starts { (program : FlatProgram) (choice : Choice) (reached : Mention → Bool) (item ahead : ℕ) → IsLegal program choice (λ mention. IsTrue (reached mention)) → FirstsFit program → FitsRuntime program choice → HoldsTextUnit program → Contains program.order text_unit → HasText program choice item ahead → StartsText program choice item ahead }
    ensures leaves { AreLeaves 48 text_code.routines }
{}
