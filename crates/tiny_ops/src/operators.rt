//! Operators on values.

ghost use Rattle.std.specs.Prelude.{◌≡◌};
ghost use Rattle.std.specs.Option.{option_map};
ghost use Rattle.machine.specs.Numbers.{of_bool, sight_of, pair_of, on_pair, compared, widened, binary as calculated, shift as is_shifted, unary as is_inverted, compare as is_compared, convert as is_converted, convert_checked as is_checked, truth as is_true, branch_compare as is_branched};
ghost use Rattle.tiny_ops.specs.Operators.{Leads, stack_value, answer_of, given, unary_of, binary_of, pair_in};

use crate::answer::{OpEnd, Pair};
use crate::fits::{cut_to, fitting};
use crate::{ints, longs};
use board_types::value::Value;
use cil_opcodes::shape::{
    Comparison, IntegerType, Operator, Shape, ShiftOperator, Sign, UnaryOperator,
};
use cil_opcodes::table::row;

/// Two values by their kind.
#[inline(always)]
fn pair(x: Value, y: Value) -> Pair
    ensures { (l : Leads) → pair_in result ≡ pair_of (sight_of (stack_value l x)) (sight_of (stack_value l y)) }
{
    match (x, y) {
        (Value::Int(x), Value::Int(y)) => Pair::Ints(x, y),
        (Value::Long(x), Value::Long(y)) => Pair::Longs(x, y),
        (Value::Ref(x), Value::Ref(y)) => Pair::References(x == y),
        _ => Pair::Other,
    }
}

/// An operator of two numbers of one width.
#[inline(always)]
fn on_numbers(operator: Operator, pair: Pair) -> OpEnd
    ensures { (l : Leads) → answer_of l result ≡ on_pair operator (pair_in pair) }
{
    match pair {
        Pair::Ints(x, y) => ints::arithmetic_of(operator, x, y),
        Pair::Longs(x, y) => longs::arithmetic_of(operator, x, y),
        Pair::References(_) | Pair::Other => OpEnd::NoCase,
    }
}

/// Arithmetic on two numbers of one width, the second one topmost (III.1.5, tables 2, 5 and 7). Other operands have no case.
#[inline(always)]
#[tactic(auto, unfolding(machine::specs::Numbers::binary))]
pub fn calculate(operator: Operator, x: Value, y: Value) -> OpEnd
    ensures { (l : Leads) → answer_of l result ≡ calculated operator (stack_value l x) (stack_value l y) }
{
    on_numbers(operator, pair(x, y))
}

/// A shift of a number by an int32 (III.3.58 to III.3.60). Other operands have no case.
#[inline(always)]
#[tactic(auto, unfolding(machine::specs::Numbers::shift))]
pub fn shift(operator: ShiftOperator, x: Value, count: Value) -> OpEnd
    ensures { (l : Leads) → answer_of l result ≡ given (is_shifted operator (stack_value l x) (stack_value l count)) }
{
    match (x, count) {
        (Value::Int(x), Value::Int(count)) => {
            OpEnd::Gives(Value::Int(ints::shifted_by(operator, x, count)))
        }
        (Value::Long(x), Value::Int(count)) => {
            OpEnd::Gives(Value::Long(longs::shifted_by(operator, x, count)))
        }
        _ => OpEnd::NoCase,
    }
}

/// A comparison: references are compared by `ceq`, and by `cgt.un`, which tells that they aren't the same.
#[inline(always)]
fn compare_pair(comparison: Comparison, pair: Pair) -> Option<bool>
    ensures { result ≡ compared comparison (pair_in pair) }
{
    match (comparison, pair) {
        (_, Pair::Ints(x, y)) => Some(ints::compares(comparison, x, y)),
        (_, Pair::Longs(x, y)) => Some(longs::compares(comparison, x, y)),
        (Comparison::Equal, Pair::References(same)) => Some(same),
        (Comparison::GreaterUnsigned, Pair::References(same)) => Some(!same),
        _ => None,
    }
}

/// `neg` and `not` (III.1.5, tables 3 and 5). Other operands than numbers have no case.
#[inline(always)]
#[tactic(auto, unfolding(machine::specs::Numbers::unary))]
pub fn invert(operator: UnaryOperator, x: Value) -> OpEnd
    ensures { (l : Leads) → answer_of l result ≡ given (is_inverted operator (stack_value l x)) }
{
    match x {
        Value::Int(x) => OpEnd::Gives(Value::Int(ints::inverted_by(operator, x))),
        Value::Long(x) => OpEnd::Gives(Value::Long(longs::inverted_by(operator, x))),
        _ => OpEnd::NoCase,
    }
}

/// An int32 as 64 bits: `conv.u8` extends it by zeros, every other conversion by its sign.
#[inline(always)]
fn wide(integer: IntegerType, x: i32) -> u64
    ensures { result ≡ widened integer x }
{
    match integer {
        IntegerType::U8 => x.cast_unsigned() as u64,
        _ => (x as i64).cast_unsigned(),
    }
}

/// A number cut to an integer type (III.3.27). Other operands have no case.
#[inline(always)]
#[tactic(auto, unfolding(machine::specs::Numbers::convert))]
pub fn convert(integer: IntegerType, x: Value) -> OpEnd
    ensures { (l : Leads) → answer_of l result ≡ given (is_converted integer (stack_value l x)) }
{
    match x {
        Value::Int(x) => OpEnd::Gives(cut_to(integer, wide(integer, x))),
        Value::Long(x) => OpEnd::Gives(cut_to(integer, x.cast_unsigned())),
        _ => OpEnd::NoCase,
    }
}

/// A number, as the sign reads it, where it fits the integer type (III.3.28, III.3.29). Other operands have no case.
#[inline(always)]
#[tactic(auto, unfolding(machine::specs::Numbers::convert_checked))]
pub fn convert_checked(integer: IntegerType, source: Sign, x: Value) -> OpEnd
    ensures { (l : Leads) → answer_of l result ≡ is_checked integer source (stack_value l x) }
{
    match x {
        Value::Int(x) => fitting(integer, ints::exact(source, x)),
        Value::Long(x) => fitting(integer, longs::exact(source, x)),
        _ => OpEnd::NoCase,
    }
}

/// What a test answers as a value: 1 or 0.
#[inline(always)]
fn number_of(test: Option<bool>) -> OpEnd
    ensures { (l : Leads) → answer_of l result ≡ given (option_map of_bool test) }
{
    match test {
        Some(true) => OpEnd::Gives(Value::Int(1)),
        Some(false) => OpEnd::Gives(Value::Int(0)),
        None => OpEnd::NoCase,
    }
}

/// A comparison of two values of one kind, the second one topmost, as 1 or 0 (III.3.21 to III.3.26). References are compared by `ceq`
/// and `cgt.un` alone; other operands have no case.
#[inline(always)]
#[tactic(auto, unfolding(machine::specs::Numbers::compare))]
pub fn compare(comparison: Comparison, x: Value, y: Value) -> OpEnd
    ensures { (l : Leads) → answer_of l result ≡ given (option_map of_bool (is_compared comparison (stack_value l x) (stack_value l y))) }
{
    number_of(compare_pair(comparison, pair(x, y)))
}

/// What the operator of an opcode answers of one operand: `neg`, `not` and the conversions (III.3.27 to III.3.29, III.3.50, III.3.51).
/// Every other opcode, and every other operand, has no case.
pub fn unary(op: u16, x: Value) -> OpEnd
    ensures { (l : Leads) → answer_of l result ≡ unary_of op (stack_value l x) }
{
    let Some(found) = row(op) else {
        return OpEnd::NoCase;
    };
    match found.shape {
        Shape::Unary(operator) => invert(operator, x),
        Shape::Convert(integer) => convert(integer, x),
        Shape::ConvertChecked(integer, source) => convert_checked(integer, source, x),
        _ => OpEnd::NoCase,
    }
}

/// What the operator of an opcode answers of two operands, the second one topmost: arithmetic, shifts and comparisons
/// (III.1.5, tables 2 and 4 to 7). Every other opcode, and operands that it doesn't take, have no case.
pub fn binary(op: u16, x: Value, y: Value) -> OpEnd
    ensures { (l : Leads) → answer_of l result ≡ binary_of op (stack_value l x) (stack_value l y) }
{
    let Some(found) = row(op) else {
        return OpEnd::NoCase;
    };
    match found.shape {
        Shape::Binary(operator) => calculate(operator, x, y),
        Shape::Shift(operator) => shift(operator, x, y),
        Shape::Compare(comparison) => compare(comparison, x, y),
        _ => OpEnd::NoCase,
    }
}

/// Whether `brtrue` branches at a value: a number that isn't 0, or a reference that isn't null (III.3.18). Pointers and handles
/// have no case.
#[inline(always)]
#[tactic(auto, unfolding(machine::specs::Numbers::truth))]
pub fn truth(x: Value) -> Option<bool>
    ensures { (l : Leads) → result ≡ is_true (stack_value l x) }
{
    match x {
        Value::Int(x) => Some(x != 0),
        Value::Long(x) => Some(x != 0),
        Value::Ref(x) => Some(x != 0),
        Value::Pointer(_) | Value::Handle(_) => None,
    }
}

/// Whether a branch that compares finds this comparison true (III.3.5 to III.3.14). References are compared by `beq` and
/// `bne.un` alone.
#[inline(always)]
#[tactic(auto, unfolding(machine::specs::Numbers::branch_compare))]
pub fn branch_compare(comparison: Comparison, x: Value, y: Value) -> Option<bool>
    ensures { (l : Leads) → result ≡ is_branched comparison (stack_value l x) (stack_value l y) }
{
    match (comparison, pair(x, y)) {
        (_, Pair::Ints(x, y)) => Some(ints::compares(comparison, x, y)),
        (_, Pair::Longs(x, y)) => Some(longs::compares(comparison, x, y)),
        (Comparison::Equal, Pair::References(same)) => Some(same),
        _ => None,
    }
}
