//! Trees from the bytes that they begin with.

ghost use Rattle.std.specs.Prelude.{◌≡◌, ◌≤◌, map, take, length, slice_get, IfOk};
ghost use Rattle.std.specs.Option.{option_copied};
ghost use Rattle.type_layout.specs.declared.definitions.Field.{Field as FieldOf};
ghost use Rattle.type_layout.specs.declared.definitions.Host.TheVariants as host;
ghost use Rattle.type_layout.specs.Layouts.{bounds_of, bounds_at};
ghost use Rattle.type_layout.specs.Storage.{count_between};
ghost use Rattle.tp_meaning.specs.Shapes.{read_ordinal, read_many, read_chain, reader_in, reader_by, readers_of, first_tree};
ghost use Rattle.interpreter_store.specs.cell_store.Views.{view_tree, view_parts};
ghost use Rattle.interpreter_store.specs.typed_cells.Parts.{reader_before};
ghost use Rattle.interpreter_effects.specs.initializers.Reading.{view_read};

use crate::initializers::cells::{Read, read_nothing, read_ordinal, read_set};
use interpreter_store::cell_store::Tree;
use interpreter_store::typed_cells::new_tree;
use std::alloc::{AllocError, Global};
use type_layout::{Bytes, Field, Host, TypeDef, TypeId, Types, storage_of};

// A tree of these parts.
#[tactic(auto, using(interpreter_store::proofs::cell_store::Rows::view_of_parts))]
fn of_parts(parts: Vec<Tree>) -> Tree
    ensures { view_tree result ≡ view_parts parts.items }
{
    Tree::Parts(parts)
}

fn count_between(low: i32, high: i32) -> u64
    ensures { result ≡ count_between low high }
{
    u64::from(high.abs_diff(low)) + 1
}

// The bounds of a type, (0, 0) of one that is no ordinal.
fn bounds_of(one: Option<&TypeDef>) -> (i32, i32)
    ensures { result ≡ bounds_of (option_copied one.entry) }
{
    match one {
        Some(TypeDef::Ordinal { low, high, .. }) => (*low, *high),
        _ => (0, 0),
    }
}

// A type among the first ones of a table.
#[tactic(auto, using(interpreter_store::proofs::typed_cells::Before::get_within, interpreter_store::proofs::typed_cells::Before::get_past))]
fn type_before(types: &Types, before: u32, ty: TypeId) -> Option<&TypeDef>
    requires { before ≤ length types.now.types }
    ensures { option_copied result ≡ slice_get (take before types.now.types) ty.0 }
{
    if ty.0 < before {
        Some(types.get(ty))
    } else {
        None
    }
}

// The bounds of a type among the first ones of a table.
fn bounds_before(types: &Types, before: u32, ty: TypeId) -> (i32, i32)
    requires { before ≤ length types.now.types }
    ensures { result ≡ bounds_at (take before types.now.types) ty }
{
    bounds_of(type_before(types, before, ty))
}

// So many bytes of a string.
fn read_chars(alloc: Global, count: u64, bytes: &[u8]) -> Result<Read<'_>, AllocError>
    ensures { IfOk result (λ read. view_read read ≡ read_many count (read_ordinal host.Char) bytes.now) }
{
    let mut parts = Vec::new(alloc);
    let mut rest = bytes;
    'parts: for _i in 0..count {
        let read = read_ordinal(Host::Char, rest);
        parts.push(read.tree)?;
        rest = read.rest;
    }
    Ok(Read {
        tree: of_parts(parts),
        rest,
    })
}

/// The tree of a type among the first ones of a table.
#[cycle(read)]
#[tactic(auto, using(interpreter_store::proofs::typed_cells::Before::given_within, interpreter_store::proofs::typed_cells::Before::given_past))]
fn read_before<'b>(
    alloc: Global,
    types: &Types,
    before: u32,
    ty: TypeId,
    bytes: &'b [u8],
) -> Result<Read<'b>, AllocError>
    requires { before ≤ length types.now.types }
    ensures { IfOk result (λ read. view_read read ≡ reader_before types.now.types before ty bytes.now) }
{
    if ty.0 < before {
        read_by(alloc, types, ty.0, types.get(ty), bytes)
    } else {
        Ok(read_nothing(bytes))
    }
}

#[cycle(read)]
fn read_by<'b>(
    alloc: Global,
    types: &Types,
    before: u32,
    one: &TypeDef,
    bytes: &'b [u8],
) -> Result<Read<'b>, AllocError>
    requires { before ≤ length types.now.types }
    ensures { IfOk result (λ read. view_read read ≡ reader_by (take before types.now.types) (readers_of (take before types.now.types)) one.now bytes.now) }
{
    match one {
        TypeDef::Ordinal { host, low, high } => {
            Ok(read_ordinal(storage_of(*host, *low, *high), bytes))
        }
        TypeDef::Str { max } => read_chars(alloc, u64::from(*max) + 1, bytes),
        TypeDef::SetOf { base } => {
            let (low, high) = bounds_before(types, before, *base);
            read_set(alloc, low, high, bytes)
        }
        TypeDef::ArrayOf { index, element } => {
            let (low, high) = bounds_before(types, before, *index);
            read_elements(
                alloc,
                types,
                before,
                *element,
                count_between(low, high),
                bytes,
            )
        }
        TypeDef::RecordOf { fields } => {
            read_fields(alloc, types, before, fields.as_slice(), bytes)
        }
        TypeDef::PointerTo { .. } | TypeDef::ObjectOf { .. } | TypeDef::Procedural { .. } => {
            Ok(read_nothing(bytes))
        }
    }
}

#[cycle(read)]
fn read_elements<'b>(
    alloc: Global,
    types: &Types,
    before: u32,
    element: TypeId,
    count: u64,
    bytes: &'b [u8],
) -> Result<Read<'b>, AllocError>
    requires { before ≤ length types.now.types }
    ensures { IfOk result (λ read. view_read read ≡ read_many count (reader_in (readers_of (take before types.now.types)) element) bytes.now) }
{
    let mut parts = Vec::new(alloc);
    let mut rest = bytes;
    'parts: for _i in 0..count {
        let read = read_before(alloc, types, before, element, rest)?;
        parts.push(read.tree)?;
        rest = read.rest;
    }
    Ok(Read {
        tree: of_parts(parts),
        rest,
    })
}

#[cycle(read)]
fn read_fields<'b>(
    alloc: Global,
    types: &Types,
    before: u32,
    fields: &[Field],
    bytes: &'b [u8],
) -> Result<Read<'b>, AllocError>
    requires { before ≤ length types.now.types }
    ensures { IfOk result (λ read. view_read read ≡ read_chain (map (λ (field : FieldOf). reader_in (readers_of (take before types.now.types)) field.ty) fields.now) bytes.now) }
{
    let mut parts = Vec::new(alloc);
    let mut rest = bytes;
    'fields: for field in fields {
        let read = read_before(alloc, types, before, field.ty, rest)?;
        parts.push(read.tree)?;
        rest = read.rest;
    }
    Ok(Read {
        tree: of_parts(parts),
        rest,
    })
}

/// The tree of a variable of a type, with the bytes that it begins with, where it has some.
#[tactic(auto, using(interpreter_store::proofs::typed_cells::Before::whole))]
pub fn first_tree(
    alloc: Global,
    types: &Types,
    ty: TypeId,
    first: &Option<Bytes>,
) -> Result<Tree, AllocError>
    ensures { IfOk result (λ tree. view_tree tree ≡ first_tree types.now.types ty first.now) }
{
    match first {
        None => new_tree(alloc, types, ty),
        Some(bytes) => {
            let read = read_before(alloc, types, types.count(), ty, bytes.as_slice())?;
            Ok(read.tree)
        }
    }
}
