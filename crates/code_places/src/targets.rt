//! Where instructions go by branches, leaves and switches (ECMA-335 III.3, III.1.7.5).

ghost use Rattle.std.specs.Prelude.{◌≡◌, ◌<◌, ◌^◌, Some, Ok, ℕ, List, pos, ◌+ℤ◌, length, false, slice_get, slice_index_or};
ghost use Rattle.std.specs.List.{list_all};
ghost use Rattle.classes.specs.Listed.{target_place};
ghost use Rattle.cil_code.specs.Instructions.{instruction_at};
ghost use Rattle.code_places.specs.Places.{kind_of, distances, distances_of, targets_at};
ghost use Rattle.code_places.specs.Marks.{Marks};

use crate::offsets::Offsets;
use cil_code::{Instr, switch_target};
use cil_opcodes::{Operand, row};

/// The kind of an instruction's operand.
fn kind_of(instr: &Instr) -> Operand
    ensures { result ≡ kind_of instr.now }
{
    match row(instr.op) {
        Some(row) => row.operand,
        None => Operand::Nothing,
    }
}

/// How many distances an operand of a kind holds.
fn count_of(kind: Operand, instr: &Instr) -> u64
    ensures { (code : List ℕ) (at : ℕ) → result ≡ length (distances code (record { at = at; instr = instr.now }) kind) }
{
    match kind {
        Operand::BranchShort | Operand::BranchLong => 1,
        Operand::Switch => instr.operand.unsigned_abs(),
        _ => 0,
    }
}

/// How many targets an instruction has.
pub fn target_count(instr: &Instr) -> u64
    ensures { (code : List ℕ) (at : ℕ) → result ≡ length (targets_at code (record { at = at; instr = instr.now })) }
{
    count_of(kind_of(instr), instr)
}

/// The distance of a target, counted from 0, from the end of the instruction.
fn distance(code: &[u8], at: u32, instr: &Instr, k: u64) -> i64
    requires short { length code.now < 2 ^ 32 }
    requires stands { instruction_at code.now at ≡ Ok instr.now }
    requires counted { k < length (distances_of code.now (record { at = at; instr = instr.now })) }
    ensures { slice_get (distances_of code.now (record { at = at; instr = instr.now })) k ≡ Some result }
{
    match kind_of(instr) {
        Operand::Switch => switch_target(code, at, k as u32),
        _ => instr.operand,
    }
}

/// The place at a distance from the end of an instruction; one before the code is told modulo 2^32.
fn place(next: u64, distance: i64) -> u64
    requires { next < 2 ^ 33 }
    ensures { result ≡ target_place (pos next +ℤ distance) }
{
    let far = distance.unsigned_abs();
    if distance >= 0 {
        next + far
    } else if far <= next {
        next - far
    } else {
        0xFFFF_FFFFu64.saturating_sub(far - next - 1)
    }
}

/// A target of the instruction at an offset, counted from 0.
pub fn target(code: &[u8], at: u32, instr: &Instr, k: u64) -> u64
    requires short { length code.now < 2 ^ 32 }
    requires stands { instruction_at code.now at ≡ Ok instr.now }
    requires counted { k < length (targets_at code.now (record { at = at; instr = instr.now })) }
    ensures { slice_get (targets_at code.now (record { at = at; instr = instr.now })) k ≡ Some result }
{
    let next = u64::from(at) + u64::from(instr.length);
    place(next, distance(code, at, instr, k))
}

/// Adds the targets of the instruction at an offset.
pub fn mark_targets(targets: &mut Offsets, code: &[u8], at: u32, instr: &Instr)
    requires short { length code.now < 2 ^ 32 }
    requires stands { instruction_at code.now at ≡ Ok instr.now }
    ensures { Marks (targets_at code.now (record { at = at; instr = instr.now })) targets.old targets.new }
{
    for k in 0..target_count(instr) {
        targets.insert(target(code, at, instr, k));
    }
}

/// Whether all targets of the instruction at an offset are among some offsets.
pub fn targets_stand(starts: &Offsets, code: &[u8], at: u32, instr: &Instr) -> bool
    requires short { length code.now < 2 ^ 32 }
    requires stands { instruction_at code.now at ≡ Ok instr.now }
    ensures { result ≡ list_all (λ place. slice_index_or starts.now place false) (targets_at code.now (record { at = at; instr = instr.now })) }
{
    for k in 0..target_count(instr) {
        if !starts.has(target(code, at, instr, k)) {
            return false;
        }
    }
    true
}
