//! One instruction of code, with its row of the table.

ghost use Rattle.std.specs.Prelude.{◌≡◌, ◌-◌, ◌^◌, ◌<◌, ◌≤◌, unsigned_abs, [], drop, length, IfSome, None};
ghost use Rattle.cil_code.specs.Walk.{walk_from};
ghost use Rattle.image_form.specs.Codes.{opcode_size};
ghost use Rattle.code_shrink.specs.Shrunk.{instrs_in};
ghost use Rattle.code_shrink.specs.Steps.{IsStep, saved};

use cil_code::{Instr, instruction};
use cil_opcodes::shape::{Operand, Row};
use cil_opcodes::table::row;

/// An instruction, and its row of the table.
#[derive(Clone, Copy)]
pub struct Step {
    pub row: Row,
    pub instr: Instr,
}

/// The instruction at an offset of code; `None` exactly where none can be read there.
pub fn next_step(code: &[u8], at: u32) -> Option<Step>
    requires { length code.now < 2 ^ 32 }
    ensures some { IfSome result (λ step. IsStep code.now at step) }
    ensures none { result ≡ None → instrs_in (drop at code.now) ≡ [] }
{
    let Ok(instr) = instruction(code, at) else {
        return None;
    };
    let row = row(instr.op)?;
    Some(Step { row, instr })
}

/// The instruction at an offset of code, in which no rule of opcodes and ends is broken from there on.
pub fn step_at(code: &[u8], at: u32) -> Step
    requires small { length code.now < 2 ^ 32 }
    requires inside { at < length code.now }
    requires whole { (walk_from code.now at).fault ≡ None }
    ensures { IsStep code.now at result }
{
    match next_step(code, at) {
        Some(step) => step,
        None => unreachable!(),
    }
}

/// How many bytes the instruction has in the shortened code.
pub fn short_size(step: Step) -> u32
    requires { saved step.row.operand step.instr.operand ≤ step.instr.length }
    ensures { result ≡ step.instr.length - saved step.row.operand step.instr.operand }
{
    match step.row.operand {
        Operand::Switch => step.instr.length - (3 + 2 * step.instr.operand.unsigned_abs()) as u32,
        Operand::BranchLong
        | Operand::TypeToken
        | Operand::FieldToken
        | Operand::MethodToken
        | Operand::StringToken
        | Operand::AnyToken => step.instr.length - 2,
        Operand::Nothing
        | Operand::Int8
        | Operand::UInt8
        | Operand::UInt16
        | Operand::Int32
        | Operand::Int64
        | Operand::BranchShort => step.instr.length,
    }
}

/// How many bytes an opcode has.
pub fn opcode_size(op: u16) -> u32
    ensures { result ≡ opcode_size op }
{
    if op < 0xFE00 { 1 } else { 2 }
}

/// The operand's number, of four bytes at most: of a token, or of a switch's targets.
pub fn number_of(step: Step) -> u32
    requires { unsigned_abs step.instr.operand < 2 ^ 32 }
    ensures { result ≡ unsigned_abs step.instr.operand }
{
    step.instr.operand.unsigned_abs() as u32
}
