//! Operators, by how their operands lie in slots.

ghost use Rattle.std.specs.Prelude.{◌≡◌, IfOk};
ghost use Rattle.flat_code.specs.View.{view_list};
ghost use Rattle.lower_values.specs.Operators.{host_of, binary, unary};

use crate::conversions::fitted;
use crate::forms::Form;
use crate::long_operators::{long_binary, long_shift, long_unary};
use crate::sets::{membership, set_binary};
use crate::texts::{pointer_binary, text_binary};
use crate::word_operators::{is_shift, word_binary, word_unary};
use flat_code::FlatList;
use flat_code::flat_builders::then;
use lower_places::Scene;
use std::alloc::AllocError;
use type_layout::Host;
use typed_tree::{BinaryOp, UnaryOp};

// What stores the result of an operator on words.
fn host_of(stored: Form) -> Result<Host, AllocError>
    ensures { IfOk result (λ host. host ≡ host_of stored) }
{
    match stored {
        Form::Word(host) => Ok(host),
        _ => Err(AllocError),
    }
}

/// An operator on the values in two slots, one behind the other; the result comes to the first slot.
pub fn binary(
    scene: &Scene,
    operator: BinaryOp,
    left: Form,
    right: Form,
    stored: Form,
    slot: u32,
) -> Result<FlatList, AllocError>
    ensures { IfOk result (λ list. view_list list.items ≡ binary scene.now.locals operator left right stored slot) }
{
    if let BinaryOp::In = operator {
        return membership(scene, left, slot);
    }
    match (left, right) {
        (Form::Word(host), Form::Word(_)) => {
            word_binary(scene, operator, host, right, host_of(stored)?, slot)
        }
        (Form::Word(host), Form::Long) if is_shift(operator) => {
            word_binary(scene, operator, host, right, host_of(stored)?, slot)
        }
        (Form::Long, _) if is_shift(operator) => long_shift(scene, operator, right, slot),
        (Form::Long, Form::Long) => long_binary(scene, operator, slot),
        (Form::Text | Form::Literal, Form::Text | Form::Literal) => {
            text_binary(scene, operator, left, right, slot)
        }
        (Form::Set, Form::Set) => set_binary(scene, operator, slot),
        (Form::Far, Form::Far) => pointer_binary(scene, operator, slot),
        _ => Err(AllocError),
    }
}

/// An operator on the value in a slot.
pub fn unary(
    scene: &Scene,
    operator: UnaryOp,
    operand: Form,
    stored: Form,
    slot: u32,
) -> Result<FlatList, AllocError>
    ensures { IfOk result (λ list. view_list list.items ≡ unary scene.now.locals operator operand stored slot) }
{
    let ready = fitted(scene, operand, stored, slot)?;
    let done = match stored {
        Form::Word(host) => word_unary(scene, operator, host, slot)?,
        Form::Long => long_unary(scene, operator, slot)?,
        _ => return Err(AllocError),
    };
    then(ready, done)
}
