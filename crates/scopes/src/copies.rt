//! Copies of what a scope holds.

ghost use Rattle.std.specs.Prelude.{◌≡◌, IfOk};
ghost use Rattle.scopes.specs.Growth.{IsGrown};

use crate::Symbols;
use crate::searches::OpenBlock;
use std::alloc::{AllocError, Global};
use type_layout::{Name, Names, Sequence, TypeId, Types};

/// The symbol tables of units, in order.
pub(crate) type Tables = Sequence<Symbols>;

/// A copy of names.
pub(crate) fn copied_names(alloc: Global, names: &[Name]) -> Result<Names, AllocError>
    ensures { IfOk result (λ copy. copy ≡ names.now) }
{
    let mut copy = Names::new(alloc);
    for name in names {
        copy.push(name.copied())?;
    }
    Ok(copy)
}

/// A copy of symbol tables.
pub(crate) fn copied_tables(alloc: Global, tables: &[Symbols]) -> Result<Tables, AllocError>
    ensures { IfOk result (λ copy. copy ≡ tables.now) }
{
    let mut copy = Tables::new(alloc);
    for table in tables {
        copy.push(table.copied(alloc)?)?;
    }
    Ok(copy)
}

/// A copy of open blocks.
pub(crate) fn copied_blocks(
    alloc: Global,
    blocks: &[OpenBlock],
) -> Result<Vec<OpenBlock>, AllocError>
    ensures { IfOk result (λ copy. copy.items ≡ blocks.now) }
{
    let mut copy = Sequence::new(alloc);
    for block in blocks {
        let symbols = block.symbols.copied(alloc)?;
        copy.push(OpenBlock {
            kind: block.kind,
            symbols,
        })?;
    }
    Ok(copy.into_vec())
}

/// A copy of a table of types that was grown from an empty one.
pub(crate) fn copied_types(alloc: Global, types: &Types) -> Result<Types, AllocError>
    requires { IsGrown types.now }
    ensures { IfOk result (λ copy. copy ≡ types.now) }
{
    let mut copy = Types::new(alloc);
    for number in 0..types.count() {
        let (unit, own) = types.origin(TypeId(number));
        let origin = types.units()[unit as usize].copied();
        let one = types.get(TypeId(number)).copied(alloc)?;
        match copy.add(origin, own, one) {
            Ok(_) => {}
            Err(_) => return Err(AllocError),
        }
    }
    Ok(copy)
}
