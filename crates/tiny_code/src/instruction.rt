//! Instructions.

ghost use Rattle.std.specs.Prelude.{◌≡◌, ◌+◌, ◌<◌, ◌^◌, IfSome, length, drop};
ghost use Rattle.std.specs.Option.{option_map};
ghost use Rattle.cil_opcodes.specs.Rows.{row_of};
ghost use Rattle.image_form.specs.Codes.{short, lie_of, size, read_instr};
ghost use Rattle.tiny_code.specs.Numbers.{IsToken, instr_of, instr_seen, plain_seen};

use crate::opcode::read_opcode;
use crate::operand::{Number, read_operand};
use cil_opcodes::shape::Row;
use cil_opcodes::table::row;

/// An instruction, with its operand as its bytes tell it.
#[derive(Clone, Copy)]
pub struct CodeInstr<'a> {
    pub row: Row,
    pub number: Number<'a>,
    /// The place behind it.
    pub next: u32,
}

/// The bytes from a place on.
fn rest_of(code: &[u8], at: u32) -> &[u8]
    ensures { result.now ≡ drop at code.now }
{
    &code[code.len().min(at as usize)..]
}

/// The instruction that begins at a place of a method's code; `None` exactly where no accepted one stands there whole.
pub fn instruction_at(code: &[u8], at: u32) -> Option<CodeInstr<'_>>
    requires { length code.now < 2 ^ 32 }
    ensures instr { option_map (instr_seen code.now) result ≡ read_instr row_of short (drop at code.now) }
    ensures place { IfSome result (λ i. i.next ≡ at + size short (instr_of i)) }
    ensures token { IfSome result (λ i. IsToken (lie_of short i.row.operand) (plain_seen i.number)) }
{
    let opcode = read_opcode(rest_of(code, at))?;
    let row = row(opcode.op)?;
    let operand = read_operand(row.operand, opcode.rest)?;
    Some(CodeInstr {
        row,
        number: operand.number,
        next: (code.len() - operand.rest.len()) as u32,
    })
}
