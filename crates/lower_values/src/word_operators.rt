//! Operators on ordinals of at most 2 bytes.

ghost use Rattle.std.specs.Prelude.{◌≡◌, IfOk};
ghost use Rattle.flat_code.specs.View.{view_expr, view_list};
ghost use Rattle.lower_values.specs.WordOperators.{related, is_relation, is_shift, bits, word_op, computed, decided, less_of, word_value, word_binary, complement, word_unary, early};

use crate::forms::{Form, low_word, next_slot, word_in};
use crate::nodes::{kept, not, single, truth};
use flat_code::flat_builders::{op, set, then, when};
use flat_code::{FlatExpr, FlatList, FlatOp};
use lower_places::Scene;
use std::alloc::{AllocError, Global};
use type_layout::Host;
use typed_tree::{BinaryOp, UnaryOp};

/// A relation of two words that are compared so; nothing for an operator that is no relation.
pub fn related(
    alloc: Global,
    operator: BinaryOp,
    less: FlatOp,
    a: FlatExpr,
    b: FlatExpr,
) -> Result<FlatExpr, AllocError>
    ensures { IfOk result (λ expr. view_expr expr ≡ related operator less (view_expr a) (view_expr b)) }
{
    match operator {
        BinaryOp::Equal => op(alloc, FlatOp::Equal, a, b),
        BinaryOp::NotEqual => not(alloc, op(alloc, FlatOp::Equal, a, b)?),
        BinaryOp::Less => op(alloc, less, a, b),
        BinaryOp::LessOrEqual => not(alloc, op(alloc, less, b, a)?),
        BinaryOp::Greater => op(alloc, less, b, a),
        BinaryOp::GreaterOrEqual => not(alloc, op(alloc, less, a, b)?),
        _ => Err(AllocError),
    }
}

/// Whether an operator is a relation of two values of one type.
pub fn is_relation(operator: BinaryOp) -> bool
    ensures { result ≡ is_relation operator }
{
    matches!(
        operator,
        BinaryOp::Equal
            | BinaryOp::NotEqual
            | BinaryOp::Less
            | BinaryOp::LessOrEqual
            | BinaryOp::Greater
            | BinaryOp::GreaterOrEqual
    )
}

/// Whether an operator shifts.
pub fn is_shift(operator: BinaryOp) -> bool
    ensures { result ≡ is_shift operator }
{
    matches!(operator, BinaryOp::ShiftLeft | BinaryOp::ShiftRight)
}

// The bits of a host's number, with zeros above them.
fn bits(alloc: Global, host: Host, word: FlatExpr) -> Result<FlatExpr, AllocError>
    ensures { IfOk result (λ expr. view_expr expr ≡ bits host (view_expr word)) }
{
    if host.width() == 1 {
        op(alloc, FlatOp::And, word, FlatExpr::Number(255))
    } else {
        Ok(word)
    }
}

// The operator of flat code, for words that are signed or not.
fn word_op(operator: BinaryOp, signed: bool) -> Option<FlatOp>
    ensures { result ≡ word_op operator signed }
{
    match operator {
        BinaryOp::Add => Some(FlatOp::Add),
        BinaryOp::Subtract => Some(FlatOp::Sub),
        BinaryOp::Multiply => Some(FlatOp::Mul),
        BinaryOp::Divide => Some(if signed {
            FlatOp::Div
        } else {
            FlatOp::DivUnsigned
        }),
        BinaryOp::Modulo => Some(if signed {
            FlatOp::Mod
        } else {
            FlatOp::ModUnsigned
        }),
        BinaryOp::ShiftLeft => Some(FlatOp::Shl),
        BinaryOp::ShiftRight => Some(FlatOp::Shr),
        BinaryOp::And => Some(FlatOp::And),
        BinaryOp::Or => Some(FlatOp::Or),
        BinaryOp::Xor => Some(FlatOp::Xor),
        _ => None,
    }
}

// An operator that computes a number of a host.
fn computed(
    alloc: Global,
    operator: BinaryOp,
    host: Host,
    a: FlatExpr,
    b: FlatExpr,
) -> Result<FlatExpr, AllocError>
    ensures { IfOk result (λ expr. view_expr expr ≡ computed operator host (view_expr a) (view_expr b)) }
{
    let one = word_op(operator, host.least() < 0).ok_or(AllocError)?;
    let a = match operator {
        BinaryOp::ShiftRight => bits(alloc, host, a)?,
        _ => a,
    };
    kept(alloc, host, op(alloc, one, a, b)?)
}

// An operator on truth values.
fn decided(
    alloc: Global,
    operator: BinaryOp,
    a: FlatExpr,
    b: FlatExpr,
) -> Result<FlatExpr, AllocError>
    ensures { IfOk result (λ expr. view_expr expr ≡ decided operator (view_expr a) (view_expr b)) }
{
    let one = match operator {
        BinaryOp::And => FlatOp::And,
        BinaryOp::Or => FlatOp::Or,
        BinaryOp::Xor => FlatOp::Xor,
        _ => return Err(AllocError),
    };
    op(alloc, one, truth(alloc, a)?, truth(alloc, b)?)
}

// How two words of a host are compared.
fn less_of(host: Host) -> FlatOp
    ensures { result ≡ less_of host }
{
    match host {
        Host::Word => FlatOp::Below,
        _ => FlatOp::Less,
    }
}

/// An operator on a word that is a number of a host and another value, whose result is stored as a host.
pub fn word_value(
    alloc: Global,
    operator: BinaryOp,
    host: Host,
    stored: Host,
    a: FlatExpr,
    b: FlatExpr,
) -> Result<FlatExpr, AllocError>
    ensures { IfOk result (λ expr. view_expr expr ≡ word_value operator host stored (view_expr a) (view_expr b)) }
{
    if is_relation(operator) {
        return related(alloc, operator, less_of(host), a, b);
    }
    match stored {
        Host::Boolean => decided(alloc, operator, a, b),
        _ => computed(alloc, operator, stored, a, b),
    }
}

/// An operator on the word in a slot and the ordinal in the next one.
pub fn word_binary(
    scene: &Scene,
    operator: BinaryOp,
    host: Host,
    right: Form,
    stored: Host,
    slot: u32,
) -> Result<FlatList, AllocError>
    ensures { IfOk result (λ list. view_list list.items ≡ word_binary scene.now.locals operator host right stored slot) }
{
    let a = word_in(scene, slot)?;
    let b = low_word(scene, right, next_slot(slot, 2)?)?;
    let value = word_value(scene.alloc, operator, host, stored, a, b)?;
    single(scene.alloc, set(scene.slot_at(slot, 2)?, value))
}

// `not` of a word that is stored as a host.
fn complement(alloc: Global, stored: Host, word: FlatExpr) -> Result<FlatExpr, AllocError>
    ensures { IfOk result (λ expr. view_expr expr ≡ complement stored (view_expr word)) }
{
    match stored {
        Host::Boolean => not(alloc, word),
        _ => kept(
            alloc,
            stored,
            op(alloc, FlatOp::Xor, word, FlatExpr::Number(0xffff))?,
        ),
    }
}

/// An operator on the word in a slot, whose result is stored as a host.
pub fn word_unary(
    scene: &Scene,
    operator: UnaryOp,
    stored: Host,
    slot: u32,
) -> Result<FlatList, AllocError>
    ensures { IfOk result (λ list. view_list list.items ≡ word_unary scene.now.locals operator stored slot) }
{
    let alloc = scene.alloc;
    match operator {
        UnaryOp::Plus => Ok(Vec::new(alloc)),
        UnaryOp::Minus => {
            let negative = op(
                alloc,
                FlatOp::Sub,
                FlatExpr::Number(0),
                word_in(scene, slot)?,
            )?;
            let value = kept(alloc, stored, negative)?;
            single(alloc, set(scene.slot_at(slot, 2)?, value))
        }
        UnaryOp::Not => {
            let value = complement(alloc, stored, word_in(scene, slot)?)?;
            single(alloc, set(scene.slot_at(slot, 2)?, value))
        }
    }
}

/// `and` or `or` that leaves its right side out where the left one decides; both come to the same slot.
pub fn early(
    scene: &Scene,
    operator: BinaryOp,
    left: FlatList,
    right: FlatList,
    slot: u32,
) -> Result<FlatList, AllocError>
    ensures { IfOk result (λ list. view_list list.items ≡ early scene.now.locals operator (view_list left.items) (view_list right.items) slot) }
{
    let alloc = scene.alloc;
    let at = scene.slot_at(slot, 2)?;
    let told = set(at, truth(alloc, word_in(scene, slot)?)?);
    let right = then(right, single(alloc, told)?)?;
    let test = word_in(scene, slot)?;
    let chosen = match operator {
        BinaryOp::And => when(test, right, Vec::new(alloc)),
        BinaryOp::Or => when(test, single(alloc, set(at, FlatExpr::Number(1)))?, right),
        _ => return Err(AllocError),
    };
    then(left, single(alloc, chosen)?)
}
