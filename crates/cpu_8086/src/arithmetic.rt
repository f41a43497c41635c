//! Arithmetic on bytes and words.

ghost use Rattle.std.specs.Prelude.{◌≡◌, ◌*◌, ◌<◌, ◌+ℤ◌, ◌-ℤ◌, ◌*ℤ◌, ◌≤ℤ◌, ◌<ℤ◌, pos, neg_ℤ, not};
ghost use Rattle.std.specs.Int.RustNames.{FitsSigned};
ghost use Rattle.cpu_8086.specs.Arithmetic.{size, half, bit, top, signed, fits, double, sum_of, difference_of, bitwise, alu_of, twice_as_wide, sign_extend, shift_of, shift_overflow};
ghost use Rattle.cpu_8086.specs.Places.{turn, turns};

use x86_table::{AluOp, ShiftOp, Width};

/// What an operator gives.
#[derive(Clone, Copy)]
pub struct Outcome {
    pub value: u16,
    pub carry: bool,
    pub overflow: bool,
}

/// A number after a shift, and the last bit that went out.
#[derive(Clone, Copy)]
pub struct Shifted {
    pub value: u16,
    pub carry: bool,
}

/// How many numbers a width has.
#[inline(always)]
pub fn size(width: Width) -> u32
    ensures { result ≡ size width }
{
    match width {
        Width::Byte => 0x100,
        Width::Word => 0x1_0000,
    }
}

#[inline(always)]
fn half(width: Width) -> u16
    ensures { result ≡ half width }
{
    match width {
        Width::Byte => 0x80,
        Width::Word => 0x8000,
    }
}

/// The sign bit.
#[inline(always)]
pub fn top(width: Width, value: u16) -> bool
    ensures { result ≡ top width value }
{
    half(width) <= value
}

/// The signed number that a value stands for.
#[inline(always)]
fn signed(width: Width, value: u16) -> i32
    requires { value < size width }
    ensures value { result ≡ signed width value }
    ensures least { neg_ℤ (pos (half width)) ≤ℤ result }
    ensures most { result <ℤ pos (half width) }
{
    match width {
        Width::Byte => i32::from((value as u8).cast_signed()),
        Width::Word => i32::from(value.cast_signed()),
    }
}

/// Whether a signed number has a value of this width.
#[inline(always)]
fn fits(width: Width, number: i32) -> bool
    ensures { result ≡ fits width number }
{
    match width {
        Width::Byte => -0x80 <= number && number < 0x80,
        Width::Word => -0x8000 <= number && number < 0x8000,
    }
}

/// Whether the sum of two signed numbers and a carry is too large or too small.
#[inline(always)]
fn sum_overflows(width: Width, x: u16, y: u16, carry: bool) -> bool
    requires x { x < size width }
    requires y { y < size width }
    ensures { result ≡ not (fits width (signed width x +ℤ signed width y +ℤ pos (bit carry))) }
{
    !fits(
        width,
        signed(width, x) + signed(width, y) + i32::from(carry),
    )
}

/// The same for the difference of two signed numbers less a borrow.
#[inline(always)]
fn difference_overflows(width: Width, x: u16, y: u16, borrow: bool) -> bool
    requires x { x < size width }
    requires y { y < size width }
    ensures { result ≡ not (fits width (signed width x -ℤ signed width y -ℤ pos (bit borrow))) }
{
    !fits(
        width,
        signed(width, x) - signed(width, y) - i32::from(borrow),
    )
}

/// The sum of two numbers and a carry.
#[tactic(auto, unfolding(crate::specs::Arithmetic::sum_of))]
#[inline(always)]
pub fn add(width: Width, x: u16, y: u16, carry: bool) -> Outcome
    requires x { x < size width }
    requires y { y < size width }
    ensures value { result ≡ sum_of width x y carry }
    ensures fits { result.value < size width }
{
    let total = u32::from(x) + u32::from(y) + u32::from(carry);
    Outcome {
        value: (total % size(width)) as u16,
        carry: size(width) <= total,
        overflow: sum_overflows(width, x, y, carry),
    }
}

/// What is left of a number after another and a borrow are taken off.
#[tactic(auto, unfolding(crate::specs::Arithmetic::difference_of))]
#[inline(always)]
pub fn subtract(width: Width, x: u16, y: u16, borrow: bool) -> Outcome
    requires x { x < size width }
    requires y { y < size width }
    ensures value { result ≡ difference_of width x y borrow }
    ensures fits { result.value < size width }
{
    let taken = u32::from(y) + u32::from(borrow);
    Outcome {
        value: ((u32::from(x) + 2 * size(width) - taken) % size(width)) as u16,
        carry: u32::from(x) < taken,
        overflow: difference_overflows(width, x, y, borrow),
    }
}

#[inline(always)]
fn bitwise(value: u16) -> Outcome
    ensures { result ≡ bitwise value }
{
    Outcome {
        value,
        carry: false,
        overflow: false,
    }
}

/// An operator of the arithmetic group, with the carry that was there.
#[inline(always)]
pub fn alu(op: AluOp, width: Width, x: u16, y: u16, carry: bool) -> Outcome
    requires x { x < size width }
    requires y { y < size width }
    ensures value { result ≡ alu_of op width x y carry }
    ensures fits { result.value < size width }
{
    match op {
        AluOp::Add => add(width, x, y, false),
        AluOp::Or => bitwise(x | y),
        AluOp::Adc => add(width, x, y, carry),
        AluOp::Sbb => subtract(width, x, y, carry),
        AluOp::And => bitwise(x & y),
        AluOp::Sub => subtract(width, x, y, false),
        AluOp::Xor => bitwise(x ^ y),
        AluOp::Cmp => subtract(width, x, y, false),
    }
}

/// The product of the signed numbers that two values stand for.
fn product(width: Width, x: u16, y: u16) -> i32
    requires x { x < size width }
    requires y { y < size width }
    ensures value { result ≡ signed width x *ℤ signed width y }
    ensures fits { FitsSigned (double width) result }
{
    signed(width, x) * signed(width, y)
}

/// A signed number as a value of twice the width.
fn twice_as_wide(width: Width, number: i32) -> u32
    requires { FitsSigned (double width) number }
    ensures value { result ≡ twice_as_wide width number }
    ensures bound { result < size width * size width }
{
    match width {
        Width::Byte => u32::from((number as i16).cast_unsigned()),
        Width::Word => number.cast_unsigned(),
    }
}

/// The product of two signed numbers at twice their width, and whether it needs that.
pub fn signed_product(width: Width, x: u16, y: u16) -> (u32, bool)
    requires x { x < size width }
    requires y { y < size width }
    ensures value { result.0 ≡ twice_as_wide width (signed width x *ℤ signed width y) }
    ensures excess { result.1 ≡ not (fits width (signed width x *ℤ signed width y)) }
    ensures bound { result.0 < size width * size width }
{
    let product = product(width, x, y);
    (twice_as_wide(width, product), !fits(width, product))
}

/// A byte as a word of the same signed value.
pub fn sign_extend(byte: u8) -> u16
    ensures { result ≡ sign_extend byte }
{
    if byte < 0x80 {
        u16::from(byte)
    } else {
        u16::from(byte) + 0xff00
    }
}

/// One place to the left or to the right.
fn turn(op: ShiftOp, width: Width, before: Shifted) -> Shifted
    requires { before.value < size width }
    ensures value { result ≡ turn op width before }
    ensures fits { result.value < size width }
{
    let size = size(width);
    let number = u32::from(before.value);
    let sign = top(width, before.value);
    let odd = number % 2 == 1;
    match op {
        ShiftOp::Rcl => Shifted {
            value: ((2 * number + u32::from(before.carry)) % size) as u16,
            carry: sign,
        },
        ShiftOp::Rcr => Shifted {
            value: (number / 2 + u32::from(half(width)) * u32::from(before.carry)) as u16,
            carry: odd,
        },
        ShiftOp::Shl => Shifted {
            value: ((2 * number) % size) as u16,
            carry: sign,
        },
        ShiftOp::Shr => Shifted {
            value: before.value / 2,
            carry: odd,
        },
        ShiftOp::Sar => Shifted {
            value: (number / 2 + u32::from(half(width)) * u32::from(sign)) as u16,
            carry: odd,
        },
    }
}

/// So many places.
#[tactic(auto, unfolding(crate::specs::Places::turns))]
fn turns(op: ShiftOp, width: Width, value: u16, carry: bool, count: u8) -> Shifted
    requires { value < size width }
    ensures value { result ≡ turns op width value carry count }
    ensures fits { result.value < size width }
{
    let mut shifted = Shifted { value, carry };
    for _place in 0..count {
        shifted = turn(op, width, shifted);
    }
    shifted
}

/// A shift by so many places, with the carry that was there.
#[tactic(auto, using(crate::proofs::ShiftLaws::turns_shift))]
pub fn shift(op: ShiftOp, width: Width, value: u16, carry: bool, count: u8) -> Shifted
    requires width { value < size width }
    requires some { 0 < count }
    ensures value { result ≡ shift_of op width value carry count }
    ensures fits { result.value < size width }
{
    turns(op, width, value, carry, count)
}

/// The overflow that a shift by one place leaves.
pub fn shift_overflow(op: ShiftOp, width: Width, before: u16, after: Shifted) -> bool
    ensures { result ≡ shift_overflow op width before after }
{
    match op {
        ShiftOp::Rcl | ShiftOp::Shl => top(width, after.value) != after.carry,
        ShiftOp::Rcr => {
            let doubled = (2 * u32::from(after.value) % size(width)) as u16;
            top(width, after.value) != top(width, doubled)
        }
        ShiftOp::Shr => top(width, before),
        ShiftOp::Sar => false,
    }
}
