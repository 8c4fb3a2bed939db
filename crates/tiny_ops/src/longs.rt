//! Operators on int64s.

ghost use Rattle.std.specs.Prelude.{pos, ◌*◌, ◌≡◌, ◌+ℤ◌, ◌-ℤ◌, ◌*ℤ◌, int_div, int_rem, IfNone};
ghost use Rattle.std.specs.Int.{w64, CanDivide};
ghost use Rattle.cil_opcodes.specs.declared.shape.IntegerType.TheVariants.{U8};
ghost use Rattle.cil_opcodes.specs.declared.shape.Operator.TheVariants.{DivideUnsigned, RemainderUnsigned};
ghost use Rattle.machine.specs.Data.{Value as StackValue, Long};
ghost use Rattle.machine.specs.Numbers.{checked, arithmetic, by_signed, integer_at, read_as, shifted, inverted, test};
ghost use Rattle.tiny_ops.specs.Operators.{Leads, answer_of, unless};

use crate::answer::OpEnd;
use crate::fits::fitting;
use board_types::board::Known;
use board_types::value::Value;
use cil_opcodes::shape::{Comparison, IntegerType, Operator, ShiftOperator, Sign, UnaryOperator};

/// The number as the sign reads it.
#[inline(always)]
pub fn exact(sign: Sign, x: i64) -> i128
    ensures { result ≡ read_as w64 sign x }
{
    match sign {
        Sign::Signed => x as i128,
        Sign::Unsigned => x.cast_unsigned() as i128,
    }
}

/// The integer type of an int64 as the sign reads it.
#[inline(always)]
fn read_type(sign: Sign) -> IntegerType
    ensures { result ≡ integer_at w64 sign }
{
    match sign {
        Sign::Signed => IntegerType::I8,
        Sign::Unsigned => IntegerType::U8,
    }
}

/// Why a signed division has no result, where it has none.
#[inline(always)]
fn division_fault(x: i64, y: i64) -> Option<Known>
    ensures fault { (v : StackValue) → unless result v ≡ by_signed w64 x y v }
    ensures none { IfNone result (CanDivide w64 x y) }
{
    if y == 0 {
        Some(Known::DivideByZero)
    } else if x == i64::MIN && y == -1 {
        Some(Known::Arithmetic)
    } else {
        None
    }
}

/// `div`, rounded towards zero (III.3.31).
#[inline(always)]
pub fn divided(x: i64, y: i64) -> OpEnd
    ensures { (l : Leads) → answer_of l result ≡ by_signed w64 x y (Long (int_div x y)) }
{
    match division_fault(x, y) {
        Some(known) => OpEnd::Throws(known),
        None => OpEnd::Gives(Value::Long(x / y)),
    }
}

/// `rem`, with the sign of the dividend (III.3.56).
#[inline(always)]
pub fn remainder(x: i64, y: i64) -> OpEnd
    ensures { (l : Leads) → answer_of l result ≡ by_signed w64 x y (Long (int_rem x y)) }
{
    match division_fault(x, y) {
        Some(known) => OpEnd::Throws(known),
        None => OpEnd::Gives(Value::Long(x % y)),
    }
}

/// `div.un` (III.3.32).
#[inline(always)]
pub fn divided_unsigned(x: i64, y: i64) -> OpEnd
    ensures { (l : Leads) → answer_of l result ≡ arithmetic w64 Long DivideUnsigned x y }
{
    if y == 0 {
        OpEnd::Throws(Known::DivideByZero)
    } else {
        OpEnd::Gives(Value::Long((x.cast_unsigned() / y.cast_unsigned()).cast_signed()))
    }
}

/// `rem.un` (III.3.57).
#[inline(always)]
pub fn remainder_unsigned(x: i64, y: i64) -> OpEnd
    ensures { (l : Leads) → answer_of l result ≡ arithmetic w64 Long RemainderUnsigned x y }
{
    if y == 0 {
        OpEnd::Throws(Known::DivideByZero)
    } else {
        OpEnd::Gives(Value::Long((x.cast_unsigned() % y.cast_unsigned()).cast_signed()))
    }
}

/// `add.ovf` (III.3.2).
#[inline(always)]
pub fn added(sign: Sign, x: i64, y: i64) -> OpEnd
    ensures { (l : Leads) → answer_of l result ≡ checked (integer_at w64 sign) (read_as w64 sign x +ℤ read_as w64 sign y) }
{
    fitting(read_type(sign), exact(sign, x) + exact(sign, y))
}

/// `sub.ovf` (III.3.65).
#[inline(always)]
pub fn subtracted(sign: Sign, x: i64, y: i64) -> OpEnd
    ensures { (l : Leads) → answer_of l result ≡ checked (integer_at w64 sign) (read_as w64 sign x -ℤ read_as w64 sign y) }
{
    fitting(read_type(sign), exact(sign, x) - exact(sign, y))
}

/// The product of two numbers without sign, where it fits.
#[inline(always)]
fn product(x: u64, y: u64) -> OpEnd
    ensures { (l : Leads) → answer_of l result ≡ checked U8 (pos (x * y)) }
{
    match x.checked_mul(y) {
        Some(n) => fitting(IntegerType::U8, n as i128),
        None => OpEnd::Throws(Known::Overflow),
    }
}

/// `mul.ovf` (III.3.49).
#[inline(always)]
pub fn multiplied(sign: Sign, x: i64, y: i64) -> OpEnd
    ensures { (l : Leads) → answer_of l result ≡ checked (integer_at w64 sign) (read_as w64 sign x *ℤ read_as w64 sign y) }
{
    match sign {
        Sign::Signed => fitting(IntegerType::I8, x as i128 * y as i128),
        Sign::Unsigned => product(x.cast_unsigned(), y.cast_unsigned()),
    }
}

/// An operator of two int64s.
#[inline(always)]
pub fn arithmetic_of(operator: Operator, x: i64, y: i64) -> OpEnd
    ensures { (l : Leads) → answer_of l result ≡ arithmetic w64 Long operator x y }
{
    match operator {
        Operator::Add => OpEnd::Gives(Value::Long(x.wrapping_add(y))),
        Operator::Subtract => OpEnd::Gives(Value::Long(x.wrapping_sub(y))),
        Operator::Multiply => OpEnd::Gives(Value::Long(x.wrapping_mul(y))),
        Operator::Divide => divided(x, y),
        Operator::Remainder => remainder(x, y),
        Operator::DivideUnsigned => divided_unsigned(x, y),
        Operator::RemainderUnsigned => remainder_unsigned(x, y),
        Operator::And => OpEnd::Gives(Value::Long(x & y)),
        Operator::Or => OpEnd::Gives(Value::Long(x | y)),
        Operator::Xor => OpEnd::Gives(Value::Long(x ^ y)),
        Operator::AddChecked(sign) => added(sign, x, y),
        Operator::SubtractChecked(sign) => subtracted(sign, x, y),
        Operator::MultiplyChecked(sign) => multiplied(sign, x, y),
    }
}

/// A shift by a count modulo the width.
#[inline(always)]
pub fn shifted_by(operator: ShiftOperator, x: i64, count: i32) -> i64
    ensures { result ≡ shifted w64 operator x count }
{
    let by = count.cast_unsigned();
    match operator {
        ShiftOperator::Left => x.wrapping_shl(by),
        ShiftOperator::Right => x.wrapping_shr(by),
        ShiftOperator::RightUnsigned => (x.cast_unsigned() >> (by % u64::BITS)).cast_signed(),
    }
}

/// An operator of one int64.
#[inline(always)]
pub fn inverted_by(operator: UnaryOperator, x: i64) -> i64
    ensures { result ≡ inverted w64 operator x }
{
    match operator {
        UnaryOperator::Negate => x.wrapping_neg(),
        UnaryOperator::Complement => !x,
    }
}

/// Whether two int64s compare so.
#[inline(always)]
pub fn compares(comparison: Comparison, x: i64, y: i64) -> bool
    ensures { result ≡ test w64 comparison x y }
{
    match comparison {
        Comparison::Equal => x == y,
        Comparison::Greater => x > y,
        Comparison::GreaterUnsigned => x.cast_unsigned() > y.cast_unsigned(),
        Comparison::Less => x < y,
        Comparison::LessUnsigned => x.cast_unsigned() < y.cast_unsigned(),
    }
}
