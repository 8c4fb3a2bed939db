//! Conditional branches and `switch` (ECMA-335 III.3.5 to III.3.14, III.3.17, III.3.18, III.3.66).

ghost use Rattle.std.specs.Prelude.{◌≡◌, ℕ, Bool, List, Option, slice_get};
ghost use Rattle.std.specs.Option.{option_map};
ghost use Rattle.std.specs.Int.{w32, cast_unsigned};
ghost use Rattle.machine.specs.Data.{Id, Frame, State};
ghost use Rattle.machine.specs.Numbers.{as_int};
ghost use Rattle.machine.specs.Program.{Program, BranchIf, BranchCompare, Switch};
ghost use Rattle.machine.specs.Step.{branch_if};
ghost use Rattle.tiny_ops.specs.Operators.{Leads, stack_value};
ghost use Rattle.tiny_ram.specs.Memory.{RamFrame, Memory};
ghost use Rattle.step_ends.specs.Ends.{Before, OfAct};
ghost use Rattle.step_numbers.specs.Taken.{Moves};

use crate::stack::{go, take, take_two};
use board_types::value::Value;
use cil_opcodes::shape::Comparison;
use step_ends::Acted;
use tiny_ops::{branch_compare, truth};
use tiny_ram::Ram;

/// The targets of a `switch`.
pub trait Targets {
    /// The places, in order.
    ghost targets: { Self → List ℕ };

    /// The n-th place, from 0 on; `None` exactly past the last one.
    fn target(&self, n: u32) -> Option<u32>
        ensures { result ≡ slice_get (targets self.now) n };
}

/// Goes on at the target where the test has the wanted truth, and else behind the instruction. Without a test there is no case.
#[inline(always)]
fn branch(ram: &mut Ram, test: Option<bool>, on: bool, target: u32, next: u32) -> Acted
    ensures { (p : Program) (outer : Id → ℕ → ℕ → Bool) (m : Memory) (s : State) (f : RamFrame) (fs : List RamFrame) (g : Frame) (gs : List Frame) → Before p outer ram.old m s f fs g gs → Moves p outer s ram.new m.room (branch_if p s g gs next on target test g.stack) result }
{
    let Some(test) = test else {
        return Acted::Stuck;
    };
    go(ram, if test == on { target } else { next });
    Acted::Done
}

/// Branches where the topmost value has this truth: `brtrue` and `brfalse` (III.3.17, III.3.18).
#[inline(always)]
pub fn branch_if_on(ram: &mut Ram, on: bool, target: u32, next: u32) -> Acted
    ensures { OfAct ram.old ram.new next (BranchIf on target) result }
{
    let Some(x) = take(ram) else {
        return Acted::Stuck;
    };
    branch(ram, truth(x), on, target, next)
}

/// Branches where the comparison of the two topmost values has this truth (III.3.5 to III.3.14).
#[inline(always)]
pub fn branch_compare_on(
    ram: &mut Ram,
    comparison: Comparison,
    on: bool,
    target: u32,
    next: u32,
) -> Acted
    ensures { OfAct ram.old ram.new next (BranchCompare comparison on target) result }
{
    let Some(taken) = take_two(ram) else {
        return Acted::Stuck;
    };
    branch(
        ram,
        branch_compare(comparison, taken.first, taken.second),
        on,
        target,
        next,
    )
}

/// An int32 as a number without sign; none of another value.
#[inline(always)]
fn number_of(value: Value) -> Option<u32>
    ensures { (l : Leads) → result ≡ option_map (cast_unsigned w32) (as_int (stack_value l value)) }
{
    match value {
        Value::Int(n) => Some(n.cast_unsigned()),
        _ => None,
    }
}

/// Goes on at the target whose number is the topmost value, and behind the instruction where there is none of this number (III.3.66).
#[inline(always)]
pub fn switch_on<T: Targets>(ram: &mut Ram, targets: &T, next: u32) -> Acted
    ensures { OfAct ram.old ram.new next (Switch (T.targets targets.now)) result }
{
    let Some(x) = take(ram) else {
        return Acted::Stuck;
    };
    let Some(n) = number_of(x) else {
        return Acted::Stuck;
    };
    go(ram, targets.target(n).unwrap_or(next));
    Acted::Done
}
