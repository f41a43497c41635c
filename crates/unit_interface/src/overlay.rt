//! The unit OVERLAY, which is always there.

ghost use Rattle.std.specs.Prelude.{◌≡◌, ◌∷◌, [], IfOk, OnOk};
ghost use Rattle.type_layout.specs.Words.{IsName};
ghost use Rattle.unit_interface.specs.Resolve.{overlay, overlay_items, procedure, parameter, constant, with_overlay};

use crate::merge::symbols_of;
use scopes::{INTEGER, LONG_INT, STRING, Scope};
use std::alloc::{AllocError, Global};
use type_layout::{Header, Kind, Name, Param, Params, TypeId};
use typed_tree::{Item, Items, Value};

// The name of these bytes, which are one.
fn known(bytes: &[u8]) -> Name
    requires { IsName bytes.now }
    ensures { result ≡ bytes.now }
{
    match Name::new(bytes) {
        Some(name) => name,
        None => unreachable!(),
    }
}

/// The name of the unit.
pub(crate) fn overlay() -> Name
    ensures { result ≡ overlay }
{
    known(b"OVERLAY")
}

fn procedure(params: Params) -> Header
    ensures { result ≡ procedure params }
{
    Header {
        kind: Kind::Procedure,
        params,
        result: None,
    }
}

fn parameter(alloc: Global, name: Name, ty: TypeId) -> Result<Params, AllocError>
    ensures { IfOk result (λ params. params ≡ parameter name ty.0 ∷ []) }
{
    let mut params = Params::new(alloc);
    params.push(Param {
        name,
        by_ref: false,
        ty,
    })?;
    Ok(params)
}

fn constant(name: Name, value: i32) -> Item
    ensures { result ≡ constant name value }
{
    Item::Const {
        name,
        ty: INTEGER,
        value: Value::Number(value),
    }
}

fn overlay_items(alloc: Global) -> Result<Items, AllocError>
    ensures { IfOk result (λ items. items ≡ overlay_items) }
{
    let mut items = Items::new(alloc);
    items.push(constant(known(b"OVROK"), 0))?;
    items.push(constant(known(b"OVRNOTFOUND"), -2))?;
    items.push(Item::Var {
        name: known(b"OVRRESULT"),
        ty: INTEGER,
        number: 0,
    })?;
    items.push(Item::Code {
        name: known(b"OVRINIT"),
        header: procedure(parameter(alloc, known(b"S"), STRING)?),
        number: 0,
    })?;
    items.push(Item::Code {
        name: known(b"OVRSETBUF"),
        header: procedure(parameter(alloc, known(b"N"), LONG_INT)?),
        number: 1,
    })?;
    items.push(Item::Code {
        name: known(b"OVRCLEARBUF"),
        header: procedure(Params::new(alloc)),
        number: 2,
    })?;
    Ok(items)
}

/// Adds OVERLAY as a used unit.
pub(crate) fn add_overlay(alloc: Global, scope: &mut Scope) -> Result<(), AllocError>
    ensures { OnOk result (scope.new ≡ with_overlay scope.old) }
{
    let items = overlay_items(alloc)?;
    let unit = scope.unit(overlay())?;
    let symbols = symbols_of(alloc, &[], unit, items.as_slice())?;
    scope.add_use(symbols)
}
