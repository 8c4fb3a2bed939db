//! What 16 bits can't say.

ghost use Rattle.std.specs.Prelude.{◌≡◌, ◌+◌, ◌^◌, ◌<◌, ◌≤◌, unsigned_abs, length, None};
ghost use Rattle.assemblies.specs.Closed.{Each};
ghost use Rattle.cil_code.specs.Walk.{walk_from};
ghost use Rattle.code_shrink.specs.Limits.{AllNear, first_far, wide_distances, far_from, first_wide};
ghost use Rattle.code_shrink.specs.Shrunk.{instrs_in, targets_of};
ghost use Rattle.code_shrink.specs.Starts.{Rise, place_in};
ghost use Rattle.code_shrink.specs.Steps.{IsStep, instr_of, past_255, saved};

use crate::distances::{moved, outside, outside_target};
use crate::starts::Start;
use crate::step::{Step, number_of, step_at};
use cil_opcodes::shape::Operand;

/// The first distance of an instruction that gets two bytes and is outside.
fn far_of(code: &[u8], starts: &[Start], at: u32, step: Step) -> Option<i64>
    requires small { length code.now < 2 ^ 32 }
    requires rise { Rise starts.now }
    requires stands { IsStep code.now at step }
    requires near { Each (λ z. unsigned_abs z < 2 ^ 32) (targets_of step.row.operand (at + step.instr.length) (instr_of code.now at step).operand) }
    ensures { result ≡ first_far (wide_distances (place_in starts.now) step.row.operand (at + step.instr.length) (instr_of code.now at step).operand) }
{
    let next = at + step.instr.length;
    match step.row.operand {
        Operand::BranchLong => outside(moved(starts, next, step.instr.operand)),
        Operand::Switch => { outside_target(code, starts, at, number_of(step), next) }
        _ => None,
    }
}

/// The first such distance in code.
pub fn first_far(code: &[u8], starts: &[Start]) -> Option<i64>
    requires small { length code.now < 2 ^ 32 }
    requires rise { Rise starts.now }
    requires whole { (walk_from code.now 0).fault ≡ None }
    requires near { AllNear 0 (instrs_in code.now) }
    ensures { result ≡ far_from (place_in starts.now) 0 (instrs_in code.now) }
{
    let mut at: u32 = 0;
    'walk: while (at as usize) < code.len() {
        let step = step_at(code, at);
        if let Some(distance) = far_of(code, starts, at, step) {
            return Some(distance);
        }
        at += step.instr.length;
    }
    None
}

/// The number of an instruction's targets, where it is a switch that has more than 255.
fn too_many(step: Step) -> Option<u32>
    requires { saved step.row.operand step.instr.operand ≤ step.instr.length }
    ensures { result ≡ past_255 step.row.operand step.instr.operand }
{
    let targets = step.instr.operand.unsigned_abs();
    match step.row.operand {
        Operand::Switch if targets > 255 => Some(targets as u32),
        _ => None,
    }
}

/// The targets of the first switch that has more than 255.
pub fn first_wide(code: &[u8]) -> Option<u32>
    requires small { length code.now < 2 ^ 32 }
    requires whole { (walk_from code.now 0).fault ≡ None }
    ensures { result ≡ first_wide (instrs_in code.now) }
{
    let mut at: u32 = 0;
    'walk: while (at as usize) < code.len() {
        let step = step_at(code, at);
        if let Some(targets) = too_many(step) {
            return Some(targets);
        }
        at += step.instr.length;
    }
    None
}
