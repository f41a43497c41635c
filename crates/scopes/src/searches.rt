//! Searches in lists of blocks.

ghost use Rattle.std.specs.Prelude.{◌≡◌, ◌+◌, ◌<◌, ◌^◌, length, option_map};
ghost use Rattle.scopes.specs.Environment.{shown, line_of, in_symbols, in_block, in_blocks, in_units};

use crate::members::member_of;
use crate::{BlockKind, Found, Symbols};
use type_layout::{Name, TypeId, Types};

/// A block that is open, with the names that it declares.
#[derive(Drop)]
pub(crate) struct OpenBlock {
    pub kind: BlockKind,
    pub symbols: Symbols,
}

fn line_of(kind: BlockKind) -> Option<TypeId>
    ensures { result ≡ line_of kind }
{
    match kind {
        BlockKind::Part => None,
        BlockKind::Routine { owner, .. } => owner,
        BlockKind::With { ty } => Some(ty),
    }
}

/// The block with this number, which has these names.
pub(crate) fn in_symbols<'a>(number: u32, symbols: &'a Symbols, name: &Name) -> Option<Found<'a>>
    ensures { option_map shown result ≡ in_symbols number symbols.now name.now }
{
    match symbols.find(name) {
        Some(entry) => Some(Found::Named {
            block: number,
            entry,
        }),
        None => None,
    }
}

fn in_block<'a>(types: &Types, number: u32, block: &'a OpenBlock, name: &Name) -> Option<Found<'a>>
    ensures { option_map shown result ≡ in_block types.now.types number block.now name.now }
{
    if let Some(found) = in_symbols(number, &block.symbols, name) {
        return Some(found);
    }
    match member_of(types, line_of(block.kind), name) {
        Some(member) => Some(Found::Member {
            block: number,
            class: member.class,
            number: member.number,
            method: member.method,
        }),
        None => None,
    }
}

/// These blocks, which are numbered from a number on: the last one that has the name.
pub(crate) fn in_blocks<'a>(
    types: &Types,
    number: u32,
    blocks: &'a [OpenBlock],
    name: &Name,
) -> Option<Found<'a>>
    requires { number + length blocks.now < 2 ^ 32 }
    ensures { option_map shown result ≡ in_blocks types.now.types number blocks.now name.now }
{
    match blocks {
        [] => None,
        [block, inner @ ..] => match in_blocks(types, number + 1, inner, name) {
            Some(found) => Some(found),
            None => in_block(types, number, block, name),
        },
    }
}

/// The names of these units, which are numbered from a number on: the last one that has the name.
pub(crate) fn in_units<'a>(number: u32, units: &'a [Symbols], name: &Name) -> Option<Found<'a>>
    requires { number + length units.now < 2 ^ 32 }
    ensures { option_map shown result ≡ in_units number units.now name.now }
{
    match units {
        [] => None,
        [unit, later @ ..] => match in_units(number + 1, later, name) {
            Some(found) => Some(found),
            None => in_symbols(number, unit, name),
        },
    }
}
