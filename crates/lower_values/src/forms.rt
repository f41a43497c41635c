//! How the values of expressions lie in their slots.

ghost use Rattle.std.specs.Prelude.{◌≡◌, ◌+◌, IfOk};
ghost use Rattle.typed_tree.specs.Expressions.{view_expr as view_tree};
ghost use Rattle.flat_code.specs.View.{view_expr, view_exprs};
ghost use Rattle.lower_values.specs.Forms.{form_bytes, form_of_shape, form_of, slot_of_arg, slot_place, word_in, low_in, text_words, long_words, low_word, two_longs};

use flat_code::flat_builders::word;
use flat_code::{Address, FlatExpr, FlatExprs};
use lower_places::{Scene, Shape};
use std::alloc::AllocError;
use type_layout::{Host, Types};
use typed_tree::{Arg, Expr, Value, slot_of};

/// How a value lies in its slot.
#[derive(Clone, Copy, Debug, PartialEq, Eq)]
pub enum Form {
    /// A word, with the sign of what stores the type.
    Word(Host),
    /// The 4 bytes of a LongInt.
    Long,
    /// The 256 bytes of a string variable.
    Text,
    /// A far pointer to a string, as a string constant has it.
    Literal,
    /// The 32 bytes of a set.
    Set,
    /// A pointer, a procedural value, or a far pointer to a structured value.
    Far,
}

impl Form {
    /// The bytes of the slot.
    pub fn bytes(self) -> u32
        ensures { result ≡ form_bytes self }
    {
        match self {
            Form::Word(_) => 2,
            Form::Long | Form::Literal | Form::Far => 4,
            Form::Set => 32,
            Form::Text => 256,
        }
    }

    /// How a value lies that is stored so.
    pub fn of(shape: Shape) -> Form
        ensures { result ≡ form_of_shape shape }
    {
        match shape {
            Shape::Number { host, .. } => {
                if host.width() <= 2 {
                    Form::Word(host)
                } else {
                    Form::Long
                }
            }
            Shape::Text { .. } => Form::Text,
            Shape::Set { .. } => Form::Set,
            Shape::Far | Shape::Whole { .. } => Form::Far,
        }
    }
}

/// How the value of an expression lies in its slot.
pub fn form_of(scene: &Scene, expr: &Expr) -> Result<Form, AllocError>
    ensures { IfOk result (λ form. form ≡ form_of scene.now.unit.now.types.types (view_tree expr.now)) }
{
    match expr {
        Expr::Const {
            value: Value::Chars(_),
            ..
        } => Ok(Form::Literal),
        _ => Ok(Form::of(scene.shape_of(expr)?)),
    }
}

/// The bytes of an argument's slot.
pub fn slot_of_arg(types: &Types, arg: &Arg) -> u32
    ensures { result ≡ slot_of_arg types.now.types arg.now }
{
    match arg {
        Arg::Value(value) => slot_of(types, value) as u32,
        Arg::Place(_) => 4,
    }
}

/// The slot behind one of so many bytes.
pub fn next_slot(slot: u32, bytes: u32) -> Result<u32, AllocError>
    ensures { IfOk result (λ next. next ≡ slot + bytes) }
{
    slot.checked_add(bytes).ok_or(AllocError)
}

/// The word in a slot of 2 bytes, or the upper word of one of 4.
pub fn word_in(scene: &Scene, slot: u32) -> Result<FlatExpr, AllocError>
    ensures { IfOk result (λ expr. view_expr expr ≡ word_in scene.now.locals slot) }
{
    Ok(word(scene.slot_at(slot, 2)?))
}

/// The upper word in a slot of 4 bytes.
pub fn high_in(scene: &Scene, slot: u32) -> Result<FlatExpr, AllocError>
    ensures { IfOk result (λ expr. view_expr expr ≡ word_in scene.now.locals slot) }
{
    word_in(scene, slot)
}

/// The lower word in a slot of 4 bytes.
pub fn low_in(scene: &Scene, slot: u32) -> Result<FlatExpr, AllocError>
    ensures { IfOk result (λ expr. view_expr expr ≡ low_in scene.now.locals slot) }
{
    Ok(word(scene.slot_at(slot, 4)?))
}

/// The place of a slot.
pub fn slot_place(scene: &Scene, slot: u32, bytes: u32) -> Result<Address, AllocError>
    ensures { IfOk result (λ at. at ≡ slot_place scene.now.locals slot bytes) }
{
    Ok(Address::Local(scene.slot_at(slot, bytes)?))
}

/// The segment and the offset of a string in a slot.
pub fn text_words(scene: &Scene, form: Form, slot: u32) -> Result<(FlatExpr, FlatExpr), AllocError>
    ensures { IfOk result (λ words. (view_expr words.0, view_expr words.1) ≡ text_words scene.now.locals form slot) }
{
    match form {
        Form::Text => {
            let at = slot_place(scene, slot, 256)?;
            Ok((FlatExpr::SegmentOf(at), FlatExpr::AddressOf(at)))
        }
        Form::Literal => Ok((high_in(scene, slot)?, low_in(scene, slot)?)),
        _ => Err(AllocError),
    }
}

/// The lower and the upper word of an ordinal in a slot, as a LongInt.
pub fn long_words(scene: &Scene, form: Form, slot: u32) -> Result<(FlatExpr, FlatExpr), AllocError>
    ensures { IfOk result (λ words. (view_expr words.0, view_expr words.1) ≡ long_words scene.now.locals form slot) }
{
    match form {
        Form::Word(host) => {
            let high = crate::nodes::extension(scene.alloc, host, word_in(scene, slot)?)?;
            Ok((word_in(scene, slot)?, high))
        }
        Form::Long => Ok((low_in(scene, slot)?, high_in(scene, slot)?)),
        _ => Err(AllocError),
    }
}

/// The low word of an ordinal in a slot.
pub fn low_word(scene: &Scene, form: Form, slot: u32) -> Result<FlatExpr, AllocError>
    ensures { IfOk result (λ expr. view_expr expr ≡ low_word scene.now.locals form slot) }
{
    match form {
        Form::Word(_) => word_in(scene, slot),
        Form::Long => low_in(scene, slot),
        _ => Err(AllocError),
    }
}

/// The words of a LongInt and of another, each the lower one first.
pub fn two_longs(scene: &Scene, first: u32, second: u32) -> Result<FlatExprs, AllocError>
    ensures { IfOk result (λ exprs. view_exprs exprs.items ≡ two_longs scene.now.locals first second) }
{
    Ok(vec![in scene.alloc;
        low_in(scene, first)?,
        high_in(scene, first)?,
        low_in(scene, second)?,
        high_in(scene, second)?,
    ]?)
}
