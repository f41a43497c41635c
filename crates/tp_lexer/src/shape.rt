//! What stands at the front of a text, by its shape.

/// The shape of a spelling.
#[derive(Clone, Copy, Debug, PartialEq, Eq)]
pub enum Shape {
    Blank,
    Word,
    Decimal,
    Real,
    Hexadecimal,
    Constant,
    OpenConstant,
    Comment,
    OpenComment,
    Symbol,
    Other,
}

/// A shape, and how many bytes it takes.
#[derive(Clone, Copy, Debug)]
pub struct Extent {
    pub shape: Shape,
    pub length: usize,
}
