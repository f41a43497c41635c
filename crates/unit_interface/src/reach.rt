//! The types that the items of a unit reach.

ghost use Rattle.std.specs.Prelude.{◌≡◌, ◌<◌, ◌++◌, ◌∷◌, [], Some, IfOk, OnOk, length, slice_get};
ghost use Rattle.unit_interface.specs.Misfits.{is_enumeration};
ghost use Rattle.unit_interface.specs.Exports.{in_option, in_params, in_header, in_fields, in_methods, in_type, behind, in_front, goes_with, in_item, in_items, known, type_edges, reached};

use crate::edges::Places;
use crate::visits::{Progress, visit};
use std::alloc::{AllocError, Global};
use type_layout::{Field, Header, Host, Method, Param, TypeDef, TypeId, Types};
use typed_tree::Item;

fn add_number(ty: TypeId, numbers: &mut Places) -> Result<(), AllocError>
    ensures { OnOk result (numbers.new ≡ numbers.old ++ ty.0 ∷ []) }
{
    numbers.push(ty.0 as usize)
}

fn add_option(ty: Option<TypeId>, numbers: &mut Places) -> Result<(), AllocError>
    ensures { OnOk result (numbers.new ≡ numbers.old ++ in_option ty) }
{
    match ty {
        Some(ty) => add_number(ty, numbers),
        None => Ok(()),
    }
}

fn add_params(params: &[Param], numbers: &mut Places) -> Result<(), AllocError>
    ensures { OnOk result (numbers.new ≡ numbers.old ++ in_params params.now) }
{
    for param in params {
        add_number(param.ty, numbers)?;
    }
    Ok(())
}

fn add_header(header: &Header, numbers: &mut Places) -> Result<(), AllocError>
    ensures { OnOk result (numbers.new ≡ numbers.old ++ in_header header.now) }
{
    add_params(header.params.as_slice(), numbers)?;
    add_option(header.result, numbers)
}

fn add_fields(fields: &[Field], numbers: &mut Places) -> Result<(), AllocError>
    ensures { OnOk result (numbers.new ≡ numbers.old ++ in_fields fields.now) }
{
    for field in fields {
        add_number(field.ty, numbers)?;
    }
    Ok(())
}

fn add_methods(methods: &[Method], numbers: &mut Places) -> Result<(), AllocError>
    ensures { OnOk result (numbers.new ≡ numbers.old ++ in_methods methods.now) }
{
    for method in methods {
        add_header(&method.header, numbers)?;
    }
    Ok(())
}

// Adds the types that a type names.
fn add_type(one: &TypeDef, numbers: &mut Places) -> Result<(), AllocError>
    ensures { OnOk result (numbers.new ≡ numbers.old ++ in_type one.now) }
{
    match one {
        TypeDef::Ordinal { .. } | TypeDef::Str { .. } => Ok(()),
        TypeDef::SetOf { base } => add_number(*base, numbers),
        TypeDef::ArrayOf { index, element } => {
            add_number(*index, numbers)?;
            add_number(*element, numbers)
        }
        TypeDef::RecordOf { fields } => add_fields(fields.as_slice(), numbers),
        TypeDef::PointerTo { target } => add_number(*target, numbers),
        TypeDef::ObjectOf {
            parent,
            fields,
            methods,
            ..
        } => {
            add_option(*parent, numbers)?;
            add_fields(fields.as_slice(), numbers)?;
            add_methods(methods.as_slice(), numbers)
        }
        TypeDef::Procedural { header } => add_header(header, numbers),
    }
}

// Adds the types that an item names.
fn add_item(item: &Item, numbers: &mut Places) -> Result<(), AllocError>
    ensures { OnOk result (numbers.new ≡ numbers.old ++ in_item item.now) }
{
    match item {
        Item::Const { ty, .. } => add_number(*ty, numbers),
        Item::Ty { ty, .. } => add_number(*ty, numbers),
        Item::Var { ty, .. } => add_number(*ty, numbers),
        Item::Code { header, .. } => add_header(header, numbers),
    }
}

fn add_items(items: &[Item], numbers: &mut Places) -> Result<(), AllocError>
    ensures { OnOk result (numbers.new ≡ numbers.old ++ in_items items.now) }
{
    for item in items {
        add_item(item, numbers)?;
    }
    Ok(())
}

// Those numbers that are of types of a table with so many.
fn known(alloc: Global, count: usize, numbers: &[usize]) -> Result<Places, AllocError>
    ensures { IfOk result (λ some. some ≡ known count numbers.now) }
{
    let mut some = Places::new(alloc);
    for number in numbers {
        if *number < count {
            some.push(*number)?;
        }
    }
    Ok(some)
}

fn is_enumeration(one: &TypeDef) -> bool
    ensures { result ≡ is_enumeration (Some one.now) }
{
    match one {
        TypeDef::Ordinal { host, .. } => matches!(host, Host::Enumeration),
        _ => false,
    }
}

// Adds the type behind an ordinal type of an enumeration.
fn add_behind(number: u32, one: &TypeDef, numbers: &mut Places) -> Result<(), AllocError>
    ensures { OnOk result (numbers.new ≡ numbers.old ++ behind number one.now) }
{
    match one {
        TypeDef::Ordinal { host, .. } if matches!(host, Host::Enumeration) => {
            numbers.push(number as usize + 1)
        }
        _ => Ok(()),
    }
}

// Adds the ordinal type of an enumeration that a type stands behind.
fn add_in_front(types: &Types, number: u32, numbers: &mut Places) -> Result<(), AllocError>
    requires known { number < length types.now.types }
    ensures { OnOk result (numbers.new ≡ numbers.old ++ in_front types.now.types number) }
{
    if number > 0 && is_enumeration(types.get(TypeId(number - 1))) {
        numbers.push(number as usize - 1)?;
    }
    Ok(())
}

// The types that go with the type of a number.
fn edges_of_type(alloc: Global, types: &Types, number: u32) -> Result<Places, AllocError>
    requires known { number < length types.now.types }
    ensures { IfOk result (λ places. places ≡ known (length types.now.types) (goes_with types.now.types number (slice_get types.now.types number))) }
{
    let one = types.get(TypeId(number));
    let mut numbers = Places::new(alloc);
    add_type(one, &mut numbers)?;
    add_behind(number, one, &mut numbers)?;
    add_in_front(types, number, &mut numbers)?;
    known(alloc, types.count() as usize, numbers.as_slice())
}

fn edges_of_items(alloc: Global, count: usize, items: &[Item]) -> Result<Places, AllocError>
    ensures { IfOk result (λ places. places ≡ known count (in_items items.now)) }
{
    let mut numbers = Places::new(alloc);
    add_items(items, &mut numbers)?;
    known(alloc, count, numbers.as_slice())
}

// The types that go with each type, and behind them those that the items name.
fn type_edges(alloc: Global, types: &Types, items: &[Item]) -> Result<Vec<Places>, AllocError>
    ensures { IfOk result (λ edges. edges.items ≡ type_edges types.now.types items.now) }
{
    let mut edges = Vec::new(alloc);
    for number in 0..types.count() {
        let beside = edges_of_type(alloc, types, number)?;
        edges.push(beside)?;
    }
    let named = edges_of_items(alloc, types.count() as usize, items)?;
    edges.push(named)?;
    Ok(edges)
}

/// The numbers of the types that the items reach, and behind them the number of types, which stands for the items.
#[tactic(auto, unfolding(crate::specs::Exports::reached))]
pub(crate) fn reached(alloc: Global, types: &Types, items: &[Item]) -> Result<Places, AllocError>
    ensures { IfOk result (λ numbers. numbers ≡ reached types.now.types items.now) }
{
    let edges = type_edges(alloc, types, items)?;
    let progress = visit(
        edges.as_slice(),
        Progress::new(alloc),
        types.count() as usize,
        edges.len(),
    )?;
    Ok(progress.order)
}
