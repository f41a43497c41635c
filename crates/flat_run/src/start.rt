//! How a program starts, and whole runs.

ghost use Rattle.std.specs.Prelude.{◌≡◌, ◌+◌, ◌≤◌, ◌∷◌, length, map, IfOk, OnOk};
ghost use Rattle.flat_code.specs.Memory.{cells_of};
ghost use Rattle.flat_code.specs.Meaning.{
  number_bytes,
  filled,
  laid_at,
  with_data,
  with_vmts,
  with_unit,
  with_units,
  with_runtime,
  start_cells,
  start_state,
  start_frame,
  started,
  all_started,
  initial_of,
  pointer_bytes,
  slot_bytes,
  vmt_bytes,
  flat_run,
  run,
};
ghost use Rattle.flat_code.specs.Plain.{view_unit, view_datum, view_vmt, view_slot, last_name, names_from, program_of, choice_of, units_size};
ghost use Rattle.flat_run.specs.Views.{view_frame};
ghost use Rattle.flat_run.specs.Running.{view_program, view_choice, view_run, view_meaning, Passes, EndsAll};

use crate::context::Interpreter;
use crate::memory::Memory;
use crate::program::{Callee, datum_of, far_of, name_at, unit_of, vmt_of};
use crate::state::{MeanEnd, Run, Stop};
use crate::statements::{far_bytes, word_bytes};
use crate::value::{Activation, DATA_SEGMENT, HEAP_SEGMENT, named};
use flat_code::{Cell, FlatDatum, FlatUnit, FlatVmt, Place};
use std::alloc::{AllocError, Global};
use type_layout::{Bytes, Name, RoutineId};

// The bytes of a double word, the lowest first.
fn number_bytes(number: u32) -> [u8; 4]
    ensures { result ≡ number_bytes 4 number }
{
    let second = number / 0x100;
    let third = second / 0x100;
    let fourth = third / 0x100;
    [
        (number % 0x100) as u8,
        (second % 0x100) as u8,
        (third % 0x100) as u8,
        (fourth % 0x100) as u8,
    ]
}

// The bytes with which a datum begins.
fn filled(alloc: Global, datum: &FlatDatum) -> Result<Vec<u8>, AllocError>
    ensures { IfOk result (λ bytes. bytes.items ≡ filled datum.now.size datum.now.first) }
{
    let first = datum.first.as_slice();
    let rest = (datum.size as usize).saturating_sub(first.len());
    let zeros = vec![in alloc; 0u8; rest]?;
    let mut bytes = Vec::from_slice(alloc, first)?;
    bytes.extend_from_slice(zeros.as_slice())?;
    Ok(bytes)
}

// The name of the last unit.
fn last_name(at: usize, units: &[FlatUnit]) -> &[u8]
    requires { at + length units.now ≤ 4096 }
    ensures value { result.now ≡ last_name (names_from at (map view_unit units.now)) }
    ensures short { length result.now ≤ 63 }
{
    match units {
        [] => b"",
        [unit] => name_at(at, unit),
        [_, rest @ ..] => last_name(at + 1, rest),
    }
}

fn pointer_bytes(pointer: Option<Place>) -> [u8; 4]
    ensures { result ≡ pointer_bytes pointer }
{
    match pointer {
        None => [0; 4],
        Some(place) => far_bytes(place),
    }
}

impl Interpreter<'_> {
    // Lays bytes at an offset of the data segment, where there is one.
    fn lay_at(&self, memory: &mut Memory, offset: Option<u16>, bytes: &[u8])
        ensures { cells_of memory.new.cells.items ≡ laid_at (view_choice self.now) offset bytes.now (cells_of memory.old.cells.items) }
    {
        if let Some(offset) = offset {
            let segment = DATA_SEGMENT;
            memory.lay(Place { segment, offset }, bytes);
        }
    }

    fn lay_data(
        &self,
        memory: &mut Memory,
        name: &[u8],
        list: &[FlatDatum],
    ) -> Result<(), AllocError>
        ensures { OnOk result (cells_of memory.new.cells.items ≡ with_data (view_choice self.now) name.now 0 (map view_datum list.now) (cells_of memory.old.cells.items)) }
    {
        'data: for (number, datum) in list.iter().enumerate() {
            let offset = datum_of(0, 0, self.units, name, number);
            let bytes = filled(self.alloc, datum)?;
            self.lay_at(memory, offset, bytes.as_slice());
        }
        Ok(())
    }

    fn slot_bytes(&self, name: &[u8], names: &[Name], slot: RoutineId) -> [u8; 4]
        ensures { result ≡ slot_bytes (view_choice self.now) name.now names.now (view_slot slot) }
    {
        match named(name, names, slot.unit) {
            None => pointer_bytes(None),
            Some(unit) => pointer_bytes(far_of(0, self.units, unit, slot.number)),
        }
    }

    // The bytes of a virtual method table.
    fn vmt_bytes(&self, name: &[u8], names: &[Name], vmt: &FlatVmt) -> Result<Vec<u8>, AllocError>
        ensures { IfOk result (λ bytes. bytes.items ≡ vmt_bytes (view_choice self.now) name.now names.now (view_vmt vmt.now)) }
    {
        let mut bytes = Vec::from_slice(self.alloc, &word_bytes(vmt.size))?;
        bytes.extend_from_slice(&word_bytes(0u16.wrapping_sub(vmt.size)))?;
        'slots: for slot in vmt.slots.as_slice() {
            bytes.extend_from_slice(&self.slot_bytes(name, names, *slot))?;
        }
        Ok(bytes)
    }

    fn lay_vmts(
        &self,
        memory: &mut Memory,
        name: &[u8],
        names: &[Name],
        list: &[FlatVmt],
    ) -> Result<(), AllocError>
        ensures { OnOk result (cells_of memory.new.cells.items ≡ with_vmts (view_choice self.now) name.now names.now 0 (map view_vmt list.now) (cells_of memory.old.cells.items)) }
    {
        'vmts: for (number, vmt) in list.iter().enumerate() {
            let offset = vmt_of(0, 0, self.units, name, number);
            let bytes = self.vmt_bytes(name, names, vmt)?;
            self.lay_at(memory, offset, bytes.as_slice());
        }
        Ok(())
    }

    // Lays the data and the virtual method tables of the unit of a name.
    fn lay_unit(&self, memory: &mut Memory, name: &[u8]) -> Result<(), AllocError>
        ensures { OnOk result (cells_of memory.new.cells.items ≡ with_unit (view_choice self.now) name.now ((view_program self.now).unit name.now) (cells_of memory.old.cells.items)) }
    {
        let Some(unit) = unit_of(0, self.units, name) else {
            return Ok(());
        };
        self.lay_data(memory, name, unit.globals.as_slice())?;
        self.lay_vmts(memory, name, unit.names.as_slice(), unit.vmts.as_slice())
    }

    fn lay_units(&self, memory: &mut Memory) -> Result<(), AllocError>
        ensures { OnOk result (cells_of memory.new.cells.items ≡ with_units (view_program self.now) (view_choice self.now) (names_from 0 (map view_unit self.now.units.now)) (cells_of memory.old.cells.items)) }
    {
        'units: for (at, unit) in self.units.iter().enumerate() {
            self.lay_unit(memory, name_at(at, unit))?;
        }
        Ok(())
    }

    // The overlay file's name as a string, or the empty string where no unit is overlaid.
    fn ovr_name(&self) -> Result<Vec<u8>, AllocError>
        ensures { IfOk result (λ bytes. let name = (view_program self.now).ovr_name in bytes.items ≡ length name ∷ name) }
    {
        let mut bytes = Vec::new(self.alloc);
        if self.overlaid.is_empty() {
            bytes.push(0)?;
            return Ok(bytes);
        }
        let name = last_name(0, self.units);
        bytes.push(name.len() as u8 + 4)?;
        bytes.extend_from_slice(name)?;
        bytes.extend_from_slice(b".OVR")?;
        Ok(bytes)
    }

    // Lays what the runtime finds in its globals.
    fn lay_runtime(&self, memory: &mut Memory) -> Result<(), AllocError>
        ensures { OnOk result (cells_of memory.new.cells.items ≡ with_runtime (view_program self.now) (view_choice self.now) (cells_of memory.old.cells.items)) }
    {
        let ovr_name = self.ovr_name()?;
        let heap = number_bytes(self.heap);
        let segment = word_bytes(HEAP_SEGMENT);
        self.lay_at(memory, datum_of(0, 0, self.units, b"OVERLAY", 1), &segment);
        self.lay_at(memory, datum_of(0, 0, self.units, b"OVERLAY", 2), &heap);
        self.lay_at(
            memory,
            datum_of(0, 0, self.units, b"OVERLAY", 3),
            ovr_name.as_slice(),
        );
        Ok(())
    }

    // Memory as the program starts.
    fn start_memory(&self) -> Result<Memory, AllocError>
        ensures { IfOk result (λ memory. cells_of memory.cells.items ≡ start_cells (view_program self.now) (view_choice self.now)) }
    {
        let mut memory = Memory::new(self.alloc)?;
        memory.fill(HEAP_SEGMENT, 0, self.heap, Cell::Known(0));
        self.lay_units(&mut memory)?;
        self.lay_runtime(&mut memory)?;
        Ok(memory)
    }

    // The frame before the first activation.
    fn start_frame(&self) -> Activation<'static>
        ensures { view_frame result ≡ start_frame (view_program self.now) }
    {
        Activation {
            name: b"",
            names: &[],
            bp: 0,
            link: 0,
            sp: self.stack_top(),
            sum: 0,
        }
    }

    // Calls the initial routine of the unit of a name, where it has one.
    fn start_unit(&self, state: &mut Run, name: &[u8]) -> Result<(), Stop>
        ensures { let program = view_program self.now in let choice = view_choice self.now in Passes result (view_run state.new) (started program choice (run program choice) name.now (initial_of (program.unit name.now)) (view_run state.old)) }
    {
        let Some(unit) = unit_of(0, self.units, name) else {
            return Ok(());
        };
        let Some(number) = unit.initial else {
            return Ok(());
        };
        let f = self.start_frame();
        self.call(state, &f, Callee { name, number }, &[], None)
    }

    // Calls the initial routines of all units, in order.
    fn start_all(&self, state: &mut Run) -> Result<(), Stop>
        ensures { EndsAll result (view_run state.new) (all_started (view_program self.now) (view_choice self.now) (run (view_program self.now) (view_choice self.now)) (names_from 0 (map view_unit self.now.units.now)) (view_run state.old)) }
    {
        'units: for (at, unit) in self.units.iter().enumerate() {
            self.start_unit(state, name_at(at, unit))?;
        }
        Ok(())
    }
}

/// What a program shows.
#[derive(Debug, Drop)]
pub struct Meaning {
    pub out: Bytes,
    pub err: Bytes,
    pub end: MeanEnd,
}

/// Runs a program on an input, for so many turns. The first three units are the runtime's, and the
/// last one is the program's own; `overlaid` names the overlaid ones.
pub fn flat_mean(
    alloc: Global,
    units: &[FlatUnit],
    overlaid: &[Name],
    stack: u32,
    heap: u32,
    input: &[u8],
    turns: u64,
) -> Result<Meaning, AllocError>
    requires few { length units.now ≤ 4096 }
    requires small { units_size (map view_unit units.now) ≤ 65520 }
    requires stack_fits { stack ≤ 65520 }
    requires heap_fits { heap ≤ 196608 }
    ensures { IfOk result (λ meaning. let views = map view_unit units.now in view_meaning meaning ≡ (flat_run (program_of views overlaid.now stack heap) (choice_of views) input.now turns).seen) }
{
    let interpreter = Interpreter {
        alloc,
        units,
        overlaid,
        stack,
        heap,
    };
    let mut state = Run {
        turns,
        memory: interpreter.start_memory()?,
        flag: false,
        input,
        out: Vec::new(alloc),
        err: Vec::new(alloc),
        work: 0,
    };
    let end = match interpreter.start_all(&mut state) {
        Ok(()) => MeanEnd::Ended(0),
        Err(stop) => state.end(alloc, stop)?,
    };
    Ok(Meaning {
        out: Bytes::from_vec(state.out),
        err: Bytes::from_vec(state.err),
        end,
    })
}
