//! Numbers cut to an integer type, and exact numbers that have to fit one.

ghost use Rattle.std.specs.Prelude.{◌≡◌, ◌-◌, ◌^◌, pos, negsuc, ◌≤ℤ◌};
ghost use Rattle.std.specs.Int.{w64, cast_unsigned};
ghost use Rattle.machine.specs.Numbers.{cut, checked, least, greatest};
ghost use Rattle.tiny_ops.specs.Operators.{Leads, stack_value, answer_of};

use crate::answer::OpEnd;
use board_types::board::Known;
use board_types::value::Value;
use cil_opcodes::shape::IntegerType;

/// The low bits of a number, extended to the stack by the type's sign (III.1.1.1).
#[inline(always)]
pub fn cut_to(integer: IntegerType, bits: u64) -> Value
    ensures { (l : Leads) → stack_value l result ≡ cut integer bits }
{
    match integer {
        IntegerType::I1 => Value::Int(((bits % 0x100) as u8).cast_signed() as i32),
        IntegerType::U1 => Value::Int((bits % 0x100) as i32),
        IntegerType::I2 => Value::Int(((bits % 0x1_0000) as u16).cast_signed() as i32),
        IntegerType::U2 => Value::Int((bits % 0x1_0000) as i32),
        IntegerType::I4 | IntegerType::U4 => {
            Value::Int(((bits % 0x1_0000_0000) as u32).cast_signed())
        }
        IntegerType::I8 | IntegerType::U8 => Value::Long(bits.cast_signed()),
    }
}

/// The least number of the type.
#[inline(always)]
pub fn least_of(integer: IntegerType) -> i128
    ensures { result ≡ least integer }
{
    match integer {
        IntegerType::I1 => i8::MIN as i128,
        IntegerType::I2 => i16::MIN as i128,
        IntegerType::I4 => i32::MIN as i128,
        IntegerType::I8 => i64::MIN as i128,
        IntegerType::U1 | IntegerType::U2 | IntegerType::U4 | IntegerType::U8 => 0,
    }
}

/// The greatest number of the type.
#[inline(always)]
pub fn greatest_of(integer: IntegerType) -> i128
    ensures { result ≡ greatest integer }
{
    match integer {
        IntegerType::I1 => i8::MAX as i128,
        IntegerType::U1 => u8::MAX as i128,
        IntegerType::I2 => i16::MAX as i128,
        IntegerType::U2 => u16::MAX as i128,
        IntegerType::I4 => i32::MAX as i128,
        IntegerType::U4 => u32::MAX as i128,
        IntegerType::I8 => i64::MAX as i128,
        IntegerType::U8 => u64::MAX as i128,
    }
}

/// A number of an integer type as 64 bits.
#[inline(always)]
fn bits_of(n: i128) -> u64
    requires low { negsuc (2 ^ 63 - 1) ≤ℤ n }
    requires high { n ≤ℤ pos (2 ^ 64 - 1) }
    ensures { result ≡ cast_unsigned w64 n }
{
    if n < 0 {
        (n + 0x1_0000_0000_0000_0000) as u64
    } else {
        n as u64
    }
}

/// The exact number where it fits the type, else the exception of an overflow.
#[inline(always)]
pub fn fitting(integer: IntegerType, n: i128) -> OpEnd
    ensures { (l : Leads) → answer_of l result ≡ checked integer n }
{
    if least_of(integer) <= n && n <= greatest_of(integer) {
        OpEnd::Gives(cut_to(integer, bits_of(n)))
    } else {
        OpEnd::Throws(Known::Overflow)
    }
}
