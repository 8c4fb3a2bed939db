//! Arithmetic, shifts, comparisons and conversions (ECMA-335 III.1.5).

ghost use Rattle.machine.specs.Program.{Binary, Shift, Unary, Compare, Convert, ConvertChecked};
ghost use Rattle.step_ends.specs.Ends.{OfAct};

use crate::stack::{answer_one, answer_two, take, take_two};
use cil_opcodes::shape::{Comparison, IntegerType, Operator, ShiftOperator, Sign, UnaryOperator};
use step_ends::Acted;
use tiny_ops::operators::{calculate, compare, convert, convert_checked, invert, shift};
use tiny_ram::Ram;

/// Arithmetic on the two topmost values (III.1.5, tables 2, 5 and 7). A division by zero or without a result raises, and so does an
/// overflow of a checked operator.
#[inline(always)]
pub fn binary_on(ram: &mut Ram, operator: Operator, next: u32) -> Acted
    ensures { OfAct ram.old ram.new next (Binary operator) result }
{
    let Some(taken) = take_two(ram) else {
        return Acted::Stuck;
    };
    answer_two(
        ram,
        calculate(operator, taken.first, taken.second),
        taken,
        next,
    )
}

/// A shift by the topmost value (III.3.58 to III.3.60).
#[inline(always)]
pub fn shift_on(ram: &mut Ram, operator: ShiftOperator, next: u32) -> Acted
    ensures { OfAct ram.old ram.new next (Shift operator) result }
{
    let Some(taken) = take_two(ram) else {
        return Acted::Stuck;
    };
    answer_two(ram, shift(operator, taken.first, taken.second), taken, next)
}

/// A comparison of the two topmost values (III.3.21 to III.3.26).
#[inline(always)]
pub fn compare_on(ram: &mut Ram, comparison: Comparison, next: u32) -> Acted
    ensures { OfAct ram.old ram.new next (Compare comparison) result }
{
    let Some(taken) = take_two(ram) else {
        return Acted::Stuck;
    };
    answer_two(
        ram,
        compare(comparison, taken.first, taken.second),
        taken,
        next,
    )
}

/// `neg` and `not` of the topmost value (III.1.5, tables 3 and 5).
#[inline(always)]
pub fn unary_on(ram: &mut Ram, operator: UnaryOperator, next: u32) -> Acted
    ensures { OfAct ram.old ram.new next (Unary operator) result }
{
    let Some(x) = take(ram) else {
        return Acted::Stuck;
    };
    answer_one(ram, invert(operator, x), x, next)
}

/// A conversion that cuts (III.3.27).
#[inline(always)]
pub fn convert_on(ram: &mut Ram, integer: IntegerType, next: u32) -> Acted
    ensures { OfAct ram.old ram.new next (Convert integer) result }
{
    let Some(x) = take(ram) else {
        return Acted::Stuck;
    };
    answer_one(ram, convert(integer, x), x, next)
}

/// A conversion that raises where the number doesn't fit (III.3.28, III.3.29).
#[inline(always)]
pub fn convert_checked_on(ram: &mut Ram, integer: IntegerType, source: Sign, next: u32) -> Acted
    ensures { OfAct ram.old ram.new next (ConvertChecked integer source) result }
{
    let Some(x) = take(ram) else {
        return Acted::Stuck;
    };
    answer_one(ram, convert_checked(integer, source, x), x, next)
}
