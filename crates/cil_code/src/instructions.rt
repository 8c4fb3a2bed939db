//! Instructions in code (III.1.2, III.1.9), by the table of instructions.

ghost use Rattle.std.specs.Prelude.{◌≡◌, ◌+◌, ◌^◌, ◌<◌, ◌≤◌, IfOk, IfSome, length};
ghost use Rattle.cil_opcodes.specs.Rows.{width_of};
ghost use Rattle.file_tables.specs.Bytes.{u64_at};
ghost use Rattle.cil_code.specs.Instructions.{HasTarget, instruction_at, opcode_at, operand_at, target_at, whole_len};

use crate::fault::{CodeFault, NO_SUCH_OPCODE, PAST_THE_END};
use cil_opcodes::shape::Operand;
use cil_opcodes::table::row;
use file_tables::bytes::{u16_at, u32_at};

/// The byte behind which an opcode has a second one.
pub const TWO_BYTES: u8 = 0xFE;
/// The opcode of a switch.
pub const SWITCH: u16 = 0x45;

/// An instruction.
#[derive(Clone, Copy, Debug, PartialEq, Eq)]
pub struct Instr {
    /// The byte, or 0xFE00 and the byte behind FE.
    pub op: u16,
    /// The operand's number, signed where the operand is; 0 where there is none, and of a switch the number of its targets.
    /// Distances of branches count from the end of the instruction.
    pub operand: i64,
    /// The bytes of the instruction, with the targets of a switch.
    pub length: u32,
}

/// An opcode and how many bytes it takes.
#[derive(Clone, Copy, Debug, PartialEq, Eq)]
pub struct Opcode {
    pub op: u16,
    pub len: usize,
}

#[tactic(auto, unfolding(crate::specs::Instructions::opcode_at))]
fn leading_opcode(code: &[u8], at: usize) -> Option<Opcode>
    ensures opcode { result ≡ opcode_at code.now at }
    ensures fits { IfSome result (λ opcode. at + opcode.len ≤ length code.now) }
    ensures short { IfSome result (λ opcode. (0 < opcode.len) × (opcode.len ≤ 2)) }
{
    if at >= code.len() {
        return None;
    }
    if code[at] != TWO_BYTES {
        return Some(Opcode {
            op: u16::from(code[at]),
            len: 1,
        });
    }
    if at + 1 >= code.len() {
        return None;
    }
    let op = 0xFE00 + u16::from(code[at + 1]);
    Some(Opcode { op, len: 2 })
}

#[tactic(auto, using(crate::proofs::Lengths::operand_len_is_width), unfolding(crate::specs::Instructions::operand_len, crate::specs::Instructions::whole_len))]
fn operand_len(operand: Operand, code: &[u8], at: usize) -> Option<usize>
    requires { at ≤ length code.now }
    ensures whole { result ≡ whole_len operand code.now at }
    ensures fits { IfSome result (λ len. at + len ≤ length code.now) }
    ensures wide { IfSome result (λ len. width_of operand ≤ len) }
{
    let left = code.len() - at;
    let len = match operand {
        Operand::Switch if left < 4 => return None,
        Operand::Switch => 4 + 4 * u32_at(code, at) as usize,
        _ => usize::from(operand.width()),
    };
    if left < len { None } else { Some(len) }
}

#[tactic(auto, unfolding(file_tables::specs::Bytes::u64_at))]
fn u64_of(code: &[u8], at: usize) -> u64
    requires { at + 8 ≤ length code.now }
    ensures { result ≡ u64_at code.now at }
{
    u64::from(u32_at(code, at)) + 0x1_0000_0000 * u64::from(u32_at(code, at + 4))
}

#[tactic(auto, unfolding(crate::specs::Instructions::operand_at))]
fn operand_number(operand: Operand, code: &[u8], at: usize) -> i64
    requires { at + width_of operand ≤ length code.now }
    ensures { result ≡ operand_at operand code.now at }
{
    match operand {
        Operand::Nothing => 0,
        Operand::Int8 | Operand::BranchShort => i64::from(code[at].cast_signed()),
        Operand::UInt8 => i64::from(code[at]),
        Operand::UInt16 => i64::from(u16_at(code, at)),
        Operand::Int32 | Operand::BranchLong => i64::from(u32_at(code, at).cast_signed()),
        Operand::Int64 => u64_of(code, at).cast_signed(),
        Operand::Switch
        | Operand::TypeToken
        | Operand::FieldToken
        | Operand::MethodToken
        | Operand::StringToken
        | Operand::AnyToken => i64::from(u32_at(code, at)),
    }
}

/// The instruction at an offset of code.
///
/// Rule 41 where the table hasn't its opcode, also if its operand is cut, and rule 42 where the code ends inside it or no
/// later than its offset.
#[tactic(auto, unfolding(crate::specs::Instructions::instruction_at))]
pub fn instruction(code: &[u8], at: u32) -> Result<Instr, CodeFault>
    requires { length code.now < 2 ^ 32 }
    ensures exact { result ≡ instruction_at code.now at }
    ensures inside { IfOk result (λ instr. at + instr.length ≤ length code.now) }
    ensures some { IfOk result (λ instr. 0 < instr.length) }
{
    let past = CodeFault {
        rule: PAST_THE_END,
        offset: at,
    };
    let opcode = leading_opcode(code, at as usize).ok_or(past)?;
    let row = row(opcode.op).ok_or(CodeFault {
        rule: NO_SUCH_OPCODE,
        offset: at,
    })?;
    let start = at as usize + opcode.len;
    let len = operand_len(row.operand, code, start).ok_or(past)?;
    Ok(Instr {
        op: opcode.op,
        operand: operand_number(row.operand, code, start),
        length: (opcode.len + len) as u32,
    })
}

/// The distance of a switch's target, counted from 0, from the end of the instruction.
#[tactic(auto, unfolding(crate::specs::Instructions::target_at))]
pub fn switch_target(code: &[u8], at: u32, k: u32) -> i64
    requires { HasTarget code.now at k }
    ensures { result ≡ target_at code.now at k }
{
    i64::from(u32_at(code, at as usize + 5 + 4 * k as usize).cast_signed())
}
