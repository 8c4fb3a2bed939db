//! The walk over the instructions of code (III.1.7.2).

ghost use Rattle.std.specs.Prelude.{◌≡◌, ℕ, ◌+◌, ◌^◌, ◌<◌, ◌≤◌, List, [], length, Some, None, Ok, Err};
ghost use Rattle.cil_code.specs.declared.fault.CodeFault.{CodeFault};
ghost use Rattle.cil_code.specs.declared.instructions.Instr.{Instr};
ghost use Rattle.cil_code.specs.Instructions.{instruction_at};
ghost use Rattle.cil_code.specs.Walk.{code_fault, goes_on, meets, reaching, walk_from};

use crate::fault::{CodeFault, PAST_THE_END};
use crate::instructions::{Instr, instruction};
use cil_opcodes::table::row;

/// Whether control can go on behind an instruction (III.1.7.5).
pub fn can_go_on(instr: &Instr) -> bool
    ensures { result ≡ goes_on instr.now }
{
    match row(instr.op) {
        Some(row) => !row.shape.is_unconditional_transfer(),
        None => true,
    }
}

/// Where to tell that the place behind an instruction is reached, if it is.
fn told_behind(at: u32, instr: Instr) -> Option<u32>
    ensures { result ≡ reaching (record { at = at; instr = instr }) }
{
    if can_go_on(&instr) { Some(at) } else { None }
}

/// The first fault of code: of the instructions that stand one behind the other from its first byte on, the first that
/// breaks rule 41 or 42. Where none does, but control can reach the end of the code, rule 42 at the last instruction,
/// or at 0 where there is none.
#[tactic(auto, unfolding(crate::specs::Walk::code_fault))]
pub fn first_fault(code: &[u8]) -> Option<CodeFault>
    requires { length code.now < 2 ^ 32 }
    ensures { result ≡ code_fault code.now }
{
    let mut at: u32 = 0;
    let mut reached = Some(0);
    'walk: while (at as usize) < code.len() {
        let instr = match instruction(code, at) {
            Ok(instr) => instr,
            Err(fault) => return Some(fault),
        };
        reached = told_behind(at, instr);
        at += instr.length;
    }
    let offset = reached?;
    Some(CodeFault {
        rule: PAST_THE_END,
        offset,
    })
}

/// How the walk from an offset on goes: it ends at the end of the code, stops at a fault, and goes on behind an instruction.
pub fn walk_laws()
    ensures ends { (code : List ℕ) (at : ℕ) → length code ≤ at → walk_from code at ≡ record { met = []; fault = None } }
    ensures stops { (code : List ℕ) (at : ℕ) (fault : CodeFault) → at < length code → instruction_at code at ≡ Err fault
        → walk_from code at ≡ record { met = []; fault = Some fault } }
    ensures goes_on { (code : List ℕ) (at : ℕ) (instr : Instr) → instruction_at code at ≡ Ok instr
        → walk_from code at ≡ meets at instr (walk_from code (at + instr.length)) }
{}
