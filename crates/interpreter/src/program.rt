//! Whole programs: the start, the units in order, and how a run ends.

ghost use Rattle.std.specs.Prelude.{◌≡◌, [], IfOk, OnOk};
ghost use Rattle.std.specs.List.{flat_map};
ghost use Rattle.tp_meaning.specs.Trees.{Value as PureValue};
ghost use Rattle.tp_meaning.specs.Store.{with_new};
ghost use Rattle.tp_meaning.specs.Outcomes.{Outcome};
ghost use Rattle.tp_meaning.specs.Calls.{entered};
ghost use Rattle.tp_meaning.specs.Meaning.{run as runs, unit_objects, start_store, start_activation, started, all_started, seen_so, seen_of, mean};
ghost use Rattle.interpreter_store.specs.cell_store.Views.{view_store, view_value};
ghost use Rattle.interpreter_effects.specs.activations.Views.{view_activation};
ghost use Rattle.interpreter_steps.specs.Running.{view_run, program_of, Ends, Comes};
ghost use Rattle.interpreter.specs.Whole.{view_end, view_meaning, global_objects};

use crate::machine::Machine;
use common_values::written::error_text;
use interpreter_effects::activations::Activation;
use interpreter_effects::initializers::first_tree;
use interpreter_effects::program_names::Sources;
use interpreter_steps::interpreter_frames::Work;
use interpreter_steps::{Interpreter, Over, Run};
use interpreter_store::cell_store::{Key, Store, Tree, Value};
use std::alloc::{AllocError, Global};
use type_layout::{Host, TypeDef, Types};
use typed_tree::{Global as GlobalVariable, Program, Unit};

/// How a run stands.
#[derive(Clone, Copy, Debug, PartialEq, Eq)]
pub enum MeanEnd {
    /// It ended with this code.
    Ended(u8),
    /// A turn is due, and none is left.
    Going,
    /// It came to this act that the language leaves undefined.
    Undefined(u8),
    /// It came to a step that no typed program asks for.
    Stopped,
}

/// What a program shows: what it wrote, and how it stands.
#[derive(Drop)]
pub struct Meaning {
    pub out: Vec<u8>,
    pub err: Vec<u8>,
    pub end: MeanEnd,
}

// Makes the globals of a unit.
fn push_globals(
    alloc: Global,
    types: &Types,
    globals: &[GlobalVariable],
    store: &mut Store,
) -> Result<(), AllocError>
    ensures { OnOk result (view_store store.new ≡ with_new (view_store store.old) (global_objects types.now.types globals.now)) }
{
    'globals: for global in globals {
        let tree = first_tree(alloc, types, global.ty, &global.first)?;
        store.push(tree)?;
    }
    Ok(())
}

// Makes the globals of units.
fn push_units(alloc: Global, units: &[Unit], store: &mut Store) -> Result<(), AllocError>
    ensures { OnOk result (view_store store.new ≡ with_new (view_store store.old) (flat_map unit_objects units.now)) }
{
    'units: for unit in units {
        push_globals(alloc, &unit.types, unit.globals.as_slice(), store)?;
    }
    Ok(())
}

// The globals of all units, behind the variable of the unit Overlay, which is 0 at first.
fn start_store(alloc: Global, program: &Program) -> Result<Store, AllocError>
    ensures { IfOk result (λ store. view_store store ≡ start_store program.now) }
{
    let mut store = Store::new(alloc);
    store.push(Tree::Leaf(Some(Value::Ordinal(0))))?;
    push_units(alloc, program.units.as_slice(), &mut store)?;
    Ok(store)
}

fn start_activation(alloc: Global, unit: &Unit) -> Activation<'_>
    ensures { view_activation result ≡ start_activation unit.now }
{
    Activation {
        unit,
        levels: Vec::new(alloc),
        withs: Vec::new(alloc),
        sum: 0,
    }
}

impl<'a> Machine<'a> {
    fn start_part(&self, run: &mut Run, unit: &'a Unit, number: u32) -> Result<Value, Over>
        ensures { let p = program_of self.now.steps in Comes view_value result (view_run run.new) (entered p (runs p) (start_activation unit.now) (record { unit = unit.now.name; number = number }) None None [] (view_run run.old)) }
    {
        let key = Key {
            unit: unit.name.copied(),
            number,
        };
        let mut work = Work {
            f: start_activation(self.steps.alloc, unit),
            frames: Vec::new(self.steps.alloc),
        };
        let next = self.enter(run, &mut work, &key, None, None, &[])?;
        self.finish(run, work, next)
    }

    // The start of a main or initialisation part spends no turn.
    fn start(&self, run: &mut Run, unit: &'a Unit) -> Result<Value, Over>
        ensures { let p = program_of self.now.steps in Comes view_value result (view_run run.new) (started p (runs p) unit.now unit.now.initial (view_run run.old)) }
    {
        match unit.initial {
            None => Ok(Value::Void),
            Some(number) => self.start_part(run, unit, number),
        }
    }

    // The units begin in order, and then the program ends with code 0.
    fn start_all(&self, run: &mut Run, units: &'a [Unit]) -> Over
        ensures { let p = program_of self.now.steps in Ends result (view_run run.new) (all_started p (runs p) units.now (view_run run.old)) }
    {
        'units: for unit in units {
            if let Err(over) = self.start(run, unit) {
                return over;
            }
        }
        Over::Ended(0)
    }
}

// How a run that is over stands, with the text of a runtime error.
fn standing_of(alloc: Global, run: &mut Run, over: Over) -> Result<MeanEnd, AllocError>
    ensures { (o : Outcome PureValue) → Ends over (view_run run.old) o → IfOk result (λ end. seen_of o ≡ seen_so (view_end end) (view_run run.new)) }
{
    match over {
        Over::OutOfMemory => Err(AllocError),
        Over::Going => Ok(MeanEnd::Going),
        Over::Ended(code) => Ok(MeanEnd::Ended(code)),
        Over::Undefined(act) => Ok(MeanEnd::Undefined(act)),
        Over::Stuck => Ok(MeanEnd::Stopped),
        Over::Error(code) => {
            let text = error_text(alloc, code)?;
            run.err.extend_from_slice(text.as_slice())?;
            Ok(MeanEnd::Ended(code))
        }
    }
}

/// What a program shows on an input within so many turns, as the meaning has it.
pub fn mean(
    alloc: Global,
    program: &Program,
    input: &[u8],
    turns: u64,
) -> Result<Meaning, AllocError>
    ensures { IfOk result (λ meaning. view_meaning meaning ≡ mean program.now input.now turns) }
{
    let integer = TypeDef::Ordinal {
        host: Host::Integer,
        low: -32_768,
        high: 32_767,
    };
    let char = TypeDef::Ordinal {
        host: Host::Char,
        low: 0,
        high: 255,
    };
    let interpreter = Interpreter {
        alloc,
        sources: Sources {
            program,
            integer: &integer,
            char: &char,
        },
    };
    let mut run = Run {
        turns,
        store: start_store(alloc, program)?,
        installed: false,
        input,
        out: Vec::new(alloc),
        err: Vec::new(alloc),
    };
    let machine = Machine { steps: interpreter };
    let over = machine.start_all(&mut run, program.units.as_slice());
    let end = standing_of(alloc, &mut run, over)?;
    Ok(Meaning {
        out: run.out,
        err: run.err,
        end,
    })
}
