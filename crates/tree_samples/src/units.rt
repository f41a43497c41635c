//! Routines, units and programs from constants.

use crate::names::{list_of_names, named};
use crate::statements::{StmtSample, statement};
use crate::types::{HeaderSample, TypeSample, header, table};
use std::alloc::{AllocError, Global};
use type_layout::{Bytes, Names, TypeId};
use typed_tree::{
    Global as GlobalVariable, Globals, Items, Locals, Program, Routine, Routines, Unit, Units,
};

/// A routine without its body.
pub struct RoutineSample {
    pub header: HeaderSample,
    pub owner: Option<TypeId>,
    pub outer: Option<u32>,
    pub far: bool,
    pub locals: &'static [TypeId],
}

/// A routine and its body.
pub type Code<'a> = (&'a RoutineSample, &'a StmtSample);

/// A unit without its routines, and with an empty interface. The first name is its own.
pub struct UnitSample {
    pub names: &'static [&'static str],
    pub types: &'static [(&'static str, u32, TypeSample)],
    /// With the bytes that a variable begins with.
    pub globals: &'static [(TypeId, Option<&'static [u8]>)],
    pub initial: Option<u32>,
    pub overlayable: bool,
    pub overlaid: &'static [&'static str],
    pub stack: u32,
    pub heap: u32,
}

fn locals(alloc: Global, list: &[TypeId]) -> Result<Locals, AllocError> {
    let mut locals = Locals::new(alloc);
    for ty in list {
        locals.push(*ty)?;
    }
    Ok(locals)
}

fn routine(
    alloc: Global,
    sample: &RoutineSample,
    body: &StmtSample,
) -> Result<Routine, AllocError> {
    let body = statement(alloc, body)?;
    let locals = locals(alloc, sample.locals)?;
    let header = header(alloc, &sample.header)?;
    let name = named("R")?;
    Ok(Routine {
        name,
        header,
        owner: sample.owner,
        outer: sample.outer,
        far: sample.far,
        locals,
        body: Box::into_inner(body),
    })
}

fn routines(alloc: Global, list: &[Code<'_>]) -> Result<Routines, AllocError> {
    let mut routines = Routines::new(alloc);
    for (sample, body) in list {
        routines.push(routine(alloc, sample, body)?)?;
    }
    Ok(routines)
}

fn global(
    alloc: Global,
    ty: TypeId,
    first: Option<&'static [u8]>,
) -> Result<GlobalVariable, AllocError> {
    match first {
        None => Ok(GlobalVariable { ty, first: None }),
        Some(bytes) => Ok(GlobalVariable {
            ty,
            first: Some(Bytes::from_slice(alloc, bytes)?),
        }),
    }
}

fn globals(alloc: Global, list: &[(TypeId, Option<&'static [u8]>)]) -> Result<Globals, AllocError> {
    let mut globals = Globals::new(alloc);
    for (ty, first) in list {
        globals.push(global(alloc, *ty, *first)?)?;
    }
    Ok(globals)
}

/// The unit of a sample, with these routines.
pub fn unit(alloc: Global, sample: &UnitSample, code: &[Code<'_>]) -> Result<Unit, AllocError> {
    let routines = routines(alloc, code)?;
    let types = table(alloc, sample.types)?;
    let globals = globals(alloc, sample.globals)?;
    let overlaid = list_of_names(alloc, sample.overlaid)?;
    let names = list_of_names(alloc, sample.names)?;
    let name = named(sample.names.first().unwrap_or(&""))?;
    Ok(Unit {
        name,
        names,
        types,
        items: Items::new(alloc),
        globals,
        routines,
        initial: sample.initial,
        uses: Names::new(alloc),
        overlayable: sample.overlayable,
        overlaid,
        stack: sample.stack,
        heap: sample.heap,
    })
}

/// The program of units, of which the last begins.
pub fn program(alloc: Global, list: &[(&UnitSample, &[Code<'_>])]) -> Result<Program, AllocError> {
    let mut units = Units::new(alloc);
    for (sample, code) in list {
        units.push(unit(alloc, sample, code)?)?;
    }
    let start = u32::try_from(list.len().saturating_sub(1)).map_err(|_| AllocError)?;
    Ok(Program { units, start })
}
