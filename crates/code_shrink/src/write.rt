//! The bytes of shortened code.

ghost use Rattle.std.specs.Prelude.{◌≡◌, ℕ, ◌+◌, ◌-◌, ◌^◌, ◌<◌, ◌≤◌, ◌++◌, [], ◌∷◌, take, drop, unsigned_abs, length, map, OnOk, IfOk, FitsSigned, None};
ghost use Rattle.std.specs.Int.{w8, w16};
ghost use Rattle.std.specs.List.{range_with_len};
ghost use Rattle.assemblies.specs.Closed.{Each};
ghost use Rattle.cil_code.specs.Instructions.{HasTarget, target_at};
ghost use Rattle.cil_code.specs.Walk.{walk_from};
ghost use Rattle.cil_opcodes.specs.Rows.{row_of};
ghost use Rattle.image_bytes.specs.Layout.{all_onto};
ghost use Rattle.image_form.specs.Codes.{target, number_onto, signed_onto, instr_onto, plain_onto, lie_of, instrs_onto, AllFit, short};
ghost use Rattle.code_shrink.specs.Limits.{AllCanWrite, CanWrite};
ghost use Rattle.code_shrink.specs.Shrunk.{instrs_in, moved, plain_to, instr_to, instrs_from};
ghost use Rattle.code_shrink.specs.Starts.{Rise, place_in};
ghost use Rattle.code_shrink.specs.Steps.{IsStep, instr_of};

use crate::distances::moved;
use crate::renumber::Renumber;
use crate::starts::Start;
use crate::step::{Step, number_of, opcode_size, step_at};
use cil_code::switch_target;
use cil_opcodes::shape::Operand;
use plain_types::fault::NoMemory;
use std::alloc::Global;

/// A distance of one byte.
fn push_near(out: &mut Vec<u8>, distance: i64) -> Result<(), NoMemory>
    requires { FitsSigned w8 distance }
    ensures { OnOk result (out.new.items ≡ out.old.items ++ signed_onto w8 distance []) }
{
    out.push((distance as i8).cast_unsigned())?;
    Ok(())
}

/// A distance of two bytes.
fn push_distance(out: &mut Vec<u8>, distance: i64) -> Result<(), NoMemory>
    requires { FitsSigned w16 distance }
    ensures { OnOk result (out.new.items ≡ out.old.items ++ signed_onto w16 distance []) }
{
    push_number(out, (distance as i16).cast_unsigned())
}

/// A number of two bytes.
fn push_number(out: &mut Vec<u8>, number: u16) -> Result<(), NoMemory>
    ensures { OnOk result (out.new.items ≡ out.old.items ++ number_onto 1 number []) }
{
    out.push((number % 256) as u8)?;
    out.push((number / 256) as u8)?;
    Ok(())
}

/// The bytes of code that stand from an offset up to another one.
fn push_copied(out: &mut Vec<u8>, code: &[u8], from: u32, to: u32) -> Result<(), NoMemory>
    requires order { from ≤ to }
    requires inside { to ≤ length code.now }
    ensures { OnOk result (out.new.items ≡ out.old.items ++ take (to - from) (drop from code.now)) }
{
    out.extend_from_slice(&code[from as usize..to as usize])?;
    Ok(())
}

/// The distances of a switch that stands at `at`, has so many targets and ends at `next`.
fn push_distances(
    out: &mut Vec<u8>,
    code: &[u8],
    starts: &[Start],
    at: u32,
    targets: u32,
    next: u32,
) -> Result<(), NoMemory>
    requires rise { Rise starts.now }
    requires there { (k : ℕ) → k < targets → HasTarget code.now at k }
    requires near { Each (λ z. unsigned_abs z < 2 ^ 32) (map (target next) (map (target_at code.now at) (range_with_len 0 targets))) }
    requires fit { AllFit w16 (map (moved (place_in starts.now) next) (map (target_at code.now at) (range_with_len 0 targets))) }
    ensures { OnOk result (out.new.items ≡ out.old.items ++ all_onto (signed_onto w16) (map (moved (place_in starts.now) next) (map (target_at code.now at) (range_with_len 0 targets))) []) }
{
    for k in 0..targets {
        push_distance(out, moved(starts, next, switch_target(code, at, k)))?;
    }
    Ok(())
}

/// The operand of a switch that stands at `at`, has so many targets and ends at `next`.
fn push_switch(
    out: &mut Vec<u8>,
    code: &[u8],
    starts: &[Start],
    at: u32,
    targets: u32,
    next: u32,
) -> Result<(), NoMemory>
    requires few { targets ≤ 255 }
    requires rise { Rise starts.now }
    requires there { (k : ℕ) → k < targets → HasTarget code.now at k }
    requires near { Each (λ z. unsigned_abs z < 2 ^ 32) (map (target next) (map (target_at code.now at) (range_with_len 0 targets))) }
    requires fit { AllFit w16 (map (moved (place_in starts.now) next) (map (target_at code.now at) (range_with_len 0 targets))) }
    ensures { OnOk result (out.new.items ≡ out.old.items ++ targets ∷ all_onto (signed_onto w16) (map (moved (place_in starts.now) next) (map (target_at code.now at) (range_with_len 0 targets))) []) }
{
    out.push(targets as u8)?;
    push_distances(out, code, starts, at, targets, next)
}

/// The operand of an instruction that stands at `at`.
fn push_operand<N: Renumber>(
    out: &mut Vec<u8>,
    code: &[u8],
    starts: &[Start],
    at: u32,
    step: Step,
    renumber: &N,
) -> Result<(), NoMemory>
    requires small { length code.now < 2 ^ 32 }
    requires rise { Rise starts.now }
    requires stands { IsStep code.now at step }
    requires can { CanWrite (place_in starts.now) step.row.operand (at + step.instr.length) (instr_of code.now at step).operand }
    ensures { OnOk result (out.new.items ≡ out.old.items ++ plain_onto short (lie_of short step.row.operand) (plain_to (place_in starts.now) (N.numbered renumber.now) step.row.operand (at + step.instr.length) (instr_of code.now at step).operand) []) }
{
    let next = at + step.instr.length;
    let distance = step.instr.operand;
    match step.row.operand {
        Operand::BranchShort => push_near(out, moved(starts, next, distance)),
        Operand::BranchLong => push_distance(out, moved(starts, next, distance)),
        Operand::Switch => push_switch(out, code, starts, at, number_of(step), next),
        Operand::TypeToken
        | Operand::FieldToken
        | Operand::MethodToken
        | Operand::StringToken
        | Operand::AnyToken => push_number(out, renumber.token(number_of(step))),
        Operand::Nothing
        | Operand::Int8
        | Operand::UInt8
        | Operand::UInt16
        | Operand::Int32
        | Operand::Int64 => {
            let from = at + opcode_size(step.instr.op);
            push_copied(out, code, from, next)
        }
    }
}

/// An instruction that stands at `at`.
fn push_step<N: Renumber>(
    out: &mut Vec<u8>,
    code: &[u8],
    starts: &[Start],
    at: u32,
    step: Step,
    renumber: &N,
) -> Result<(), NoMemory>
    requires small { length code.now < 2 ^ 32 }
    requires rise { Rise starts.now }
    requires stands { IsStep code.now at step }
    requires can { CanWrite (place_in starts.now) step.row.operand (at + step.instr.length) (instr_of code.now at step).operand }
    ensures { OnOk result (out.new.items ≡ out.old.items ++ instr_onto row_of short (instr_to (place_in starts.now) (N.numbered renumber.now) (at + step.instr.length) (instr_of code.now at step)) []) }
{
    let from = at + opcode_size(step.instr.op);
    push_copied(out, code, at, from)?;
    push_operand(out, code, starts, at, step, renumber)
}

/// The bytes of the shortened code, with places as `starts` say.
pub fn bytes<N: Renumber>(
    alloc: Global,
    code: &[u8],
    starts: &[Start],
    renumber: &N,
) -> Result<Vec<u8>, NoMemory>
    requires small { length code.now < 2 ^ 32 }
    requires rise { Rise starts.now }
    requires whole { (walk_from code.now 0).fault ≡ None }
    requires can { AllCanWrite (place_in starts.now) 0 (instrs_in code.now) }
    ensures { IfOk result (λ out. out.items ≡ instrs_onto row_of short (instrs_from (place_in starts.now) (N.numbered renumber.now) 0 (instrs_in code.now)) []) }
{
    let mut out = Vec::new(alloc);
    let mut at: u32 = 0;
    'walk: while (at as usize) < code.len() {
        let step = step_at(code, at);
        push_step(&mut out, code, starts, at, step, renumber)?;
        at += step.instr.length;
    }
    Ok(out)
}
