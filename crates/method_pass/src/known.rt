//! What is known of an instruction of a method (ECMA-335 III.1.9).

ghost use Rattle.std.specs.Prelude.{◌≡◌, IfOk, List, Ok, Some, slice_get};
ghost use Rattle.cil_opcodes.specs.declared.shape.Row.{Row};
ghost use Rattle.cil_opcodes.specs.Rows.{row_of};
ghost use Rattle.cil_code.specs.Instructions.{instruction_at};
ghost use Rattle.file_tables.specs.File.{FilePart};
ghost use Rattle.machine.specs.Data.{ClassOf};
ghost use Rattle.classes.specs.Queries.{array};
ghost use Rattle.class_table.specs.Seen.{classes_seen};
ghost use Rattle.world_rows.specs.World.{ecma_sources};
ghost use Rattle.operand_facts.specs.Operands.{OperandTold};
ghost use Rattle.ecma_effects.specs.Known.{IsKnown};
ghost use Rattle.verdict_rules.specs.World.{exception_of, world_of};
ghost use Rattle.code_rules.specs.Pass.{Step};
ghost use Rattle.pass_steps.specs.Listed.{operand_meant};
ghost use Rattle.method_pass.specs.Steps.{AreSteps};

use crate::method::MethodSteps;
use cil_code::Instr;
use cil_opcodes::shape::{Operand as Kind, Row};
use ecma_types::stack::PlaceType;
use operand_facts::read_operand;
use plain_types::fault::NoMemory;
use step_facts::token;
use verify_ops::facts::{Facts, Operand};

/// What is known of the operand of the instruction at an offset, which is of a kind.
fn operand<'s>(
    steps: &MethodSteps<'_, '_>,
    at: u32,
    instr: &Instr,
    kind: Kind,
    scratch: &'s mut Vec<PlaceType>,
) -> Result<Operand<'s>, NoMemory>
    requires { instruction_at steps.now.listing.now.code at ≡ Ok instr.now }
    ensures { IfOk result (λ known. (row : Row) (x : FilePart) → row_of instr.now.op ≡ Some row → row.operand ≡ kind → slice_get steps.now.world.now steps.now.file ≡ Some x → OperandTold (ecma_sources steps.now.world.now).classes (array (classes_seen steps.now.lattice.now)) (operand_meant (world_of steps.now.world.now) steps.now.file x steps.now.listing.now (record { at = at; instr = instr.now }) row) known) }
{
    if steps.file >= steps.world.files() {
        return Ok(Operand::Unresolved);
    }
    let token = token(steps.listing, at, instr);
    let array = steps.lattice.array();
    read_operand(steps.world, array, steps.file, kind, token, scratch)
}

/// What is known of the instruction at an offset. The types of the parameters of a method that it names are written into `scratch`.
pub fn known<'s>(
    steps: &'s MethodSteps<'_, '_>,
    at: u32,
    instr: &Instr,
    row: Row,
    scratch: &'s mut Vec<PlaceType>,
) -> Result<Facts<'s>, NoMemory>
    requires { instruction_at steps.now.listing.now.code at ≡ Ok instr.now }
    ensures { IfOk result (λ facts. (listed : List Step) → (a : AreSteps steps.now listed) → row_of instr.now.op ≡ Some row → IsKnown (world_of steps.now.world.now).sources (ClassOf (exception_of (world_of steps.now.world.now))) a.method (operand_meant (world_of steps.now.world.now) steps.now.file a.part steps.now.listing.now (record { at = at; instr = instr.now }) row) facts) }
{
    let operand = operand(steps, at, instr, row.operand, scratch)?;
    Ok(Facts {
        arguments: steps.arguments,
        locals: steps.locals,
        result: steps.result,
        exception: steps.exception,
        max_stack: steps.listing.body().max_stack(),
        operand,
    })
}
