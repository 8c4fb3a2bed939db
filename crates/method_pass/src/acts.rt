//! What an instruction makes of the types on the stack.

ghost use Rattle.std.specs.Prelude.{◌≡◌, IfOk, List, Ok, Some, [], map};
ghost use Rattle.cil_opcodes.specs.Rows.{row_of};
ghost use Rattle.cil_code.specs.Instructions.{instruction_at};
ghost use Rattle.code_rules.specs.Pass.{Step};
ghost use Rattle.forward_pass.specs.Seen.{step_at};
ghost use Rattle.forward_pass.specs.Told.{Acts};
ghost use Rattle.pass_steps.specs.Seen.{rowed, stack_seen};
ghost use Rattle.method_pass.specs.Steps.{AreSteps};

use crate::known::known;
use crate::method::MethodSteps;
use cil_code::Instr;
use cil_opcodes::shape::Row;
use ecma_types::stack::StackType;
use plain_types::fault::NoMemory;
use std::alloc::Global;
use verify_ops::effect::apply;
use verify_ops::facts::OpRefusal;
use world_lattice::rowed;

/// Gives each class on the stack the row that it is read by.
fn give_rows(stack: &mut Vec<StackType>)
    ensures { stack.new.items ≡ map rowed stack.old.items }
{
    for of in stack.iter_mut() {
        *of = rowed(*of);
    }
}

/// Makes the stack what the instruction at an offset leaves there, or tells the lowest rule that it breaks with these types.
pub fn act(
    alloc: Global,
    steps: &MethodSteps<'_, '_>,
    at: u32,
    instr: &Instr,
    row: Row,
    stack: &mut Vec<StackType>,
) -> Result<Option<u8>, NoMemory>
    requires stands { instruction_at steps.now.listing.now.code at ≡ Ok instr.now }
    requires row { row_of instr.now.op ≡ Some row }
    ensures { IfOk result (λ broken. (listed : List Step) (s : Step) → AreSteps steps.now listed → step_at listed at ≡ Some s → s.broken ≡ [] → Acts stack_seen s stack.old.items stack.new.items broken) }
{
    let mut scratch = Vec::new(alloc);
    let facts = known(steps, at, instr, row, &mut scratch)?;
    give_rows(stack);
    match apply(alloc, instr, &facts, stack, steps.lattice) {
        Ok(()) => Ok(None),
        Err(OpRefusal::Broken(rule)) => Ok(Some(rule)),
        Err(OpRefusal::NoMemory) => Err(NoMemory),
    }
}
