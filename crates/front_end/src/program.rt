//! The typed program that the files of a folder hold.

ghost use Rattle.std.specs.Prelude.{◌≡◌, ◌≤◌, ◌<◌, ◌+◌, ◌⊎◌, IfOk, IfErr, IfSome, Err, length};
ghost use Rattle.tp_outside.specs.Faults.{HasRisen};
ghost use Rattle.tp_outside.specs.Folder.{Folder};
ghost use Rattle.front_end.specs.declared.outcomes.outcome.Outcome.{Outcome};
ghost use Rattle.front_end.specs.declared.outcomes.refusal.Refusal.{Refusal};
ghost use Rattle.front_end.specs.declared.outcomes.refusal.What.{What};
ghost use Rattle.front_end.specs.Found.{IsFoundIn};
ghost use Rattle.front_end.specs.Typed.{IsProgram, IsProgramIn};
ghost use Rattle.front_end.specs.Untyped.{AreUntyped, IsNoProgram, IsDeclining};

use crate::outcomes::{Outcome, Refusal, What};
use crate::refusals::{check_outcome, gather_outcome, order_outcome};
use crate::source_interfaces::{check_kinds, interfaces_of};
use crate::units::{check_classes, units_at};
use source_graph::source_order::source_order;
use source_graph::{Gathered, Source, gather};
use std::alloc::Global;
use tp_lexer::Text;
use tp_outside::Files;
use type_layout::Name;
use typed_tree::{Program, Units};
use typing_rules::error_of;

/// The most units of a program.
const UNIT_LIMIT: usize = 256;

// The program of these units, the last of which is its own.
fn program_of(units: Units) -> Result<Program, Outcome>
    ensures program { IfOk result (λ program. (program.units ≡ units) × (program.start + 1 ≡ length units)) }
    ensures few { IfOk result (λ program. length units ≤ 256) }
    ensures cause { IfErr result (λ outcome. ((256 < length units) × (outcome ≡ Outcome.Refused (Refusal.TooLarge What.Units (length units)))) ⊎ (outcome ≡ Outcome.NoMemory)) }
{
    let count = units.len();
    if count > UNIT_LIMIT {
        return Err(Outcome::Refused(Refusal::TooLarge {
            what: What::Units,
            number: count as u64,
        }));
    }
    if count == 0 {
        return Err(Outcome::NoMemory);
    }
    Ok(Program {
        units,
        start: count as u32 - 1,
    })
}

// The typed program that sources are.
fn typed(alloc: Global, texts: &[Text], sources: &[Source]) -> Result<Program, Outcome>
    ensures program { IfOk result (IsProgram sources.now) }
    ensures cause { IfErr result (AreUntyped texts.now sources.now) }
{
    // The walk over uses meets the program itself, so some source is there.
    if sources.is_empty() {
        return Err(Outcome::NoMemory);
    }
    let order = match source_order(alloc, sources) {
        Ok(order) => order,
        Err(error) => return Err(order_outcome(error)),
    };
    if let Err(fault) = check_kinds(sources) {
        return Err(check_outcome(texts, error_of(fault)));
    }
    let have = interfaces_of(alloc, texts, sources)?;
    let units = units_at(alloc, texts, sources, have.as_slice(), order.as_slice())?;
    check_classes(alloc, units.as_slice())?;
    program_of(units)
}

/// The texts that were read for a program, its sources, the program's own first, and the typed program that they are.
#[derive(Drop)]
pub struct TypedSources {
    pub texts: Vec<Text>,
    pub sources: Vec<Source>,
    pub program: Program,
}

/// The sources of the program of this name, its own and those of all units that it uses, gathered from their files, in order, and
/// checked, with the typed program that they are. An error is the outcome of a command that asks for it: the first refusal in the
/// order of the phases, a fault of the files, or out of memory.
pub fn typed_sources<F: Files>(
    alloc: Global,
    name: &Name,
    files: &mut F,
) -> Result<TypedSources, Outcome>
    ensures found { IfSome (F.folder files.old) (λ held. IfOk result (IsFoundIn held name.now)) }
    // Also where the files don't tell what they hold, it is by what some folder holds.
    ensures some { IfOk result (λ found. (held : Folder) × IsFoundIn held name.now found) }
    ensures cause { IfSome (F.folder files.old) (λ held. IfErr result (IsNoProgram held name.now)) }
    ensures declines { IfErr result IsDeclining }
    ensures unchanged { F.folder files.new ≡ F.folder files.old }
    ensures counted { F.faults files.old ≤ F.faults files.new }
    ensures failed { result ≡ Err Outcome.FilesFault → HasRisen (F.faults files.old) (F.faults files.new) }
{
    match gather(alloc, name, files) {
        Ok(gathered) => {
            let Gathered { texts, sources } = gathered;
            match typed(alloc, texts.as_slice(), sources.as_slice()) {
                Ok(program) => Ok(TypedSources {
                    texts,
                    sources,
                    program,
                }),
                Err(outcome) => Err(outcome),
            }
        }
        Err(error) => Err(gather_outcome(error)),
    }
}

/// The typed program of this name, without its sources.
pub fn typed_program<F: Files>(
    alloc: Global,
    name: &Name,
    files: &mut F,
) -> Result<Program, Outcome>
    ensures program { IfSome (F.folder files.old) (λ held. IfOk result (IsProgramIn held name.now)) }
    ensures some { IfOk result (λ program. (held : Folder) × IsProgramIn held name.now program) }
    ensures cause { IfSome (F.folder files.old) (λ held. IfErr result (IsNoProgram held name.now)) }
    ensures declines { IfErr result IsDeclining }
    ensures unchanged { F.folder files.new ≡ F.folder files.old }
    ensures counted { F.faults files.old ≤ F.faults files.new }
    ensures failed { result ≡ Err Outcome.FilesFault → HasRisen (F.faults files.old) (F.faults files.new) }
{
    match typed_sources(alloc, name, files) {
        Ok(found) => {
            let TypedSources { program, .. } = found;
            Ok(program)
        }
        Err(outcome) => Err(outcome),
    }
}
