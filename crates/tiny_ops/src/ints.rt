//! Operators on int32s.

ghost use Rattle.std.specs.Prelude.{◌≡◌, ◌+ℤ◌, ◌-ℤ◌, ◌*ℤ◌, int_div, int_rem, IfNone};
ghost use Rattle.std.specs.Int.{w32, CanDivide};
ghost use Rattle.cil_opcodes.specs.declared.shape.Operator.TheVariants.{DivideUnsigned, RemainderUnsigned};
ghost use Rattle.machine.specs.Data.{Value as StackValue, Int};
ghost use Rattle.machine.specs.Numbers.{checked, arithmetic, by_signed, integer_at, read_as, shifted, inverted, test};
ghost use Rattle.tiny_ops.specs.Operators.{Leads, answer_of, unless};

use crate::answer::OpEnd;
use crate::fits::fitting;
use board_types::board::Known;
use board_types::value::Value;
use cil_opcodes::shape::{Comparison, IntegerType, Operator, ShiftOperator, Sign, UnaryOperator};

/// The number as the sign reads it.
#[inline(always)]
pub fn exact(sign: Sign, x: i32) -> i128
    ensures { result ≡ read_as w32 sign x }
{
    match sign {
        Sign::Signed => x as i128,
        Sign::Unsigned => x.cast_unsigned() as i128,
    }
}

/// The integer type of an int32 as the sign reads it.
#[inline(always)]
fn read_type(sign: Sign) -> IntegerType
    ensures { result ≡ integer_at w32 sign }
{
    match sign {
        Sign::Signed => IntegerType::I4,
        Sign::Unsigned => IntegerType::U4,
    }
}

/// Why a signed division has no result, where it has none.
#[inline(always)]
fn division_fault(x: i32, y: i32) -> Option<Known>
    ensures fault { (v : StackValue) → unless result v ≡ by_signed w32 x y v }
    ensures none { IfNone result (CanDivide w32 x y) }
{
    if y == 0 {
        Some(Known::DivideByZero)
    } else if x == i32::MIN && y == -1 {
        Some(Known::Arithmetic)
    } else {
        None
    }
}

/// `div`, rounded towards zero (III.3.31).
#[inline(always)]
pub fn divided(x: i32, y: i32) -> OpEnd
    ensures { (l : Leads) → answer_of l result ≡ by_signed w32 x y (Int (int_div x y)) }
{
    match division_fault(x, y) {
        Some(known) => OpEnd::Throws(known),
        None => OpEnd::Gives(Value::Int(x / y)),
    }
}

/// `rem`, with the sign of the dividend (III.3.56).
#[inline(always)]
pub fn remainder(x: i32, y: i32) -> OpEnd
    ensures { (l : Leads) → answer_of l result ≡ by_signed w32 x y (Int (int_rem x y)) }
{
    match division_fault(x, y) {
        Some(known) => OpEnd::Throws(known),
        None => OpEnd::Gives(Value::Int(x % y)),
    }
}

/// `div.un` (III.3.32).
#[inline(always)]
pub fn divided_unsigned(x: i32, y: i32) -> OpEnd
    ensures { (l : Leads) → answer_of l result ≡ arithmetic w32 Int DivideUnsigned x y }
{
    if y == 0 {
        OpEnd::Throws(Known::DivideByZero)
    } else {
        OpEnd::Gives(Value::Int((x.cast_unsigned() / y.cast_unsigned()).cast_signed()))
    }
}

/// `rem.un` (III.3.57).
#[inline(always)]
pub fn remainder_unsigned(x: i32, y: i32) -> OpEnd
    ensures { (l : Leads) → answer_of l result ≡ arithmetic w32 Int RemainderUnsigned x y }
{
    if y == 0 {
        OpEnd::Throws(Known::DivideByZero)
    } else {
        OpEnd::Gives(Value::Int((x.cast_unsigned() % y.cast_unsigned()).cast_signed()))
    }
}

/// `add.ovf` (III.3.2).
#[inline(always)]
pub fn added(sign: Sign, x: i32, y: i32) -> OpEnd
    ensures { (l : Leads) → answer_of l result ≡ checked (integer_at w32 sign) (read_as w32 sign x +ℤ read_as w32 sign y) }
{
    fitting(read_type(sign), exact(sign, x) + exact(sign, y))
}

/// `sub.ovf` (III.3.65).
#[inline(always)]
pub fn subtracted(sign: Sign, x: i32, y: i32) -> OpEnd
    ensures { (l : Leads) → answer_of l result ≡ checked (integer_at w32 sign) (read_as w32 sign x -ℤ read_as w32 sign y) }
{
    fitting(read_type(sign), exact(sign, x) - exact(sign, y))
}

/// `mul.ovf` (III.3.49).
#[inline(always)]
pub fn multiplied(sign: Sign, x: i32, y: i32) -> OpEnd
    ensures { (l : Leads) → answer_of l result ≡ checked (integer_at w32 sign) (read_as w32 sign x *ℤ read_as w32 sign y) }
{
    fitting(read_type(sign), exact(sign, x) * exact(sign, y))
}

/// An operator of two int32s.
#[inline(always)]
pub fn arithmetic_of(operator: Operator, x: i32, y: i32) -> OpEnd
    ensures { (l : Leads) → answer_of l result ≡ arithmetic w32 Int operator x y }
{
    match operator {
        Operator::Add => OpEnd::Gives(Value::Int(x.wrapping_add(y))),
        Operator::Subtract => OpEnd::Gives(Value::Int(x.wrapping_sub(y))),
        Operator::Multiply => OpEnd::Gives(Value::Int(x.wrapping_mul(y))),
        Operator::Divide => divided(x, y),
        Operator::Remainder => remainder(x, y),
        Operator::DivideUnsigned => divided_unsigned(x, y),
        Operator::RemainderUnsigned => remainder_unsigned(x, y),
        Operator::And => OpEnd::Gives(Value::Int(x & y)),
        Operator::Or => OpEnd::Gives(Value::Int(x | y)),
        Operator::Xor => OpEnd::Gives(Value::Int(x ^ y)),
        Operator::AddChecked(sign) => added(sign, x, y),
        Operator::SubtractChecked(sign) => subtracted(sign, x, y),
        Operator::MultiplyChecked(sign) => multiplied(sign, x, y),
    }
}

/// A shift by a count modulo the width.
#[inline(always)]
pub fn shifted_by(operator: ShiftOperator, x: i32, count: i32) -> i32
    ensures { result ≡ shifted w32 operator x count }
{
    let by = count.cast_unsigned();
    match operator {
        ShiftOperator::Left => x.wrapping_shl(by),
        ShiftOperator::Right => x.wrapping_shr(by),
        ShiftOperator::RightUnsigned => (x.cast_unsigned() >> (by % u32::BITS)).cast_signed(),
    }
}

/// An operator of one int32.
#[inline(always)]
pub fn inverted_by(operator: UnaryOperator, x: i32) -> i32
    ensures { result ≡ inverted w32 operator x }
{
    match operator {
        UnaryOperator::Negate => x.wrapping_neg(),
        UnaryOperator::Complement => !x,
    }
}

/// Whether two int32s compare so.
#[inline(always)]
pub fn compares(comparison: Comparison, x: i32, y: i32) -> bool
    ensures { result ≡ test w32 comparison x y }
{
    match comparison {
        Comparison::Equal => x == y,
        Comparison::Greater => x > y,
        Comparison::GreaterUnsigned => x.cast_unsigned() > y.cast_unsigned(),
        Comparison::Less => x < y,
        Comparison::LessUnsigned => x.cast_unsigned() < y.cast_unsigned(),
    }
}
