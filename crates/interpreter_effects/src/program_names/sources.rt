//! A program with the types that stand in no table of a unit.

ghost use Rattle.std.specs.Prelude.{◌≡◌, pos, negsuc};
ghost use Rattle.type_layout.specs.declared.definitions.Host.TheVariants as host;
ghost use Rattle.type_layout.specs.declared.definitions.TypeDef.TheVariants as type;

use type_layout::TypeDef;
use typed_tree::Program;

/// A program, and Integer and Char in tables of their own: the types of the variable of the unit Overlay and of a byte of a
/// string.
#[derive(Clone, Copy)]
pub struct Sources<'a> {
    pub program: &'a Program,
    pub integer: &'a TypeDef,
    pub char: &'a TypeDef,
    ghost integer_is: { integer.now ≡ type.Ordinal host.Integer (negsuc 32767) (pos 32767) },
    ghost char_is: { char.now ≡ type.Ordinal host.Char (pos 0) (pos 255) },
}
