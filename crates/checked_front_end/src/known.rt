//! What the types of values say of a program: bytes are below 256, and its tables keep what every table does.

ghost use Rattle.std.specs.Prelude.{◌≡◌, ◌<◌, All};
ghost use Rattle.token_provenance.specs.leaves.Written.{AreTexts};
ghost use Rattle.programs_well_typed.specs.store_typing.types.Agreement.{IsShort};
ghost use Rattle.programs_well_typed.specs.programs.Below.{BeginsWithBytes, IsKeptTable};
ghost use Rattle.checked_front_end.specs.Known.{IsKept};

use tp_lexer::Text;
use type_layout::{TypeDef, TypeId, Types};
use typed_tree::{Global, Unit};

// What is known of a byte. It does nothing.
fn known_byte(byte: u8)
    ensures { byte < 256 }
{}

// What is known of bytes. It does nothing.
fn known(bytes: &[u8])
    ensures { All (λ byte. byte < 256) bytes.now }
{}

/// The texts are made of bytes, as their types say. It only looks at them.
pub(crate) fn are_texts(texts: &[Text])
    ensures { AreTexts texts.now }
{
    for text in texts {
        known(text.bytes.as_slice());
    }
}

// What a global begins with is bytes.
fn begins_with_bytes(one: &Global)
    ensures { BeginsWithBytes one.now }
{
    if let Some(first) = &one.first {
        known(first.as_slice());
    }
}

fn begin_with_bytes(all: &[Global])
    ensures { All BeginsWithBytes all.now }
{
    for one in all {
        begins_with_bytes(one);
    }
}

// A byte tells the size of a string type.
fn is_short(one: &TypeDef)
    ensures { IsShort one.now }
{
    if let TypeDef::Str { max } = one {
        known_byte(*max);
    }
}

fn is_kept_table(types: &Types)
    ensures { IsKeptTable types.now }
{
    for number in 0..types.count() {
        is_short(types.get(TypeId(number)));
    }
}

fn is_kept(unit: &Unit)
    ensures { IsKept unit.now }
{
    begin_with_bytes(unit.globals.as_slice());
    is_kept_table(&unit.types);
}

/// What the types of values say of each unit. It only looks at them.
pub(crate) fn are_kept(units: &[Unit])
    ensures { All IsKept units.now }
{
    for unit in units {
        is_kept(unit);
    }
}
