//! What an instruction breaks whatever lies on the stack.

ghost use Rattle.std.specs.Prelude.{◌≡◌, IfOk, List, Ok, Some, true};
ghost use Rattle.cil_opcodes.specs.Rows.{row_of};
ghost use Rattle.cil_code.specs.Instructions.{instruction_at};
ghost use Rattle.cil_code.specs.Walk.{starts_of};
ghost use Rattle.code_rules.specs.Pass.{Step};
ghost use Rattle.code_places.specs.Among.{is_among};
ghost use Rattle.forward_pass.specs.Seen.{step_at};
ghost use Rattle.forward_pass.specs.Told.{lowest_of};
ghost use Rattle.method_pass.specs.Steps.{AreSteps};

use crate::known::known;
use crate::method::MethodSteps;
use cil_code::Instr;
use cil_opcodes::shape::Row;
use plain_types::fault::NoMemory;
use std::alloc::Global;
use step_facts::stands;

/// Control goes where it may not.
const GOES_BADLY: u8 = 45;

/// The lowest of rules 45 (a transfer), 46 (the operand's token) and 47 (the number of an argument or local) that the instruction at
/// an offset breaks.
pub fn broken(
    alloc: Global,
    steps: &MethodSteps<'_, '_>,
    at: u32,
    instr: &Instr,
    row: Row,
) -> Result<Option<u8>, NoMemory>
    requires start { is_among (starts_of steps.now.listing.now.code) at ≡ true }
    requires stands { instruction_at steps.now.listing.now.code at ≡ Ok instr.now }
    requires row { row_of instr.now.op ≡ Some row }
    ensures { IfOk result (λ broken. (listed : List Step) (s : Step) → AreSteps steps.now listed → step_at listed at ≡ Some s → broken ≡ lowest_of s.broken) }
{
    if !stands(steps.listing, at, instr, row.shape) {
        return Ok(Some(GOES_BADLY));
    }
    let mut scratch = Vec::new(alloc);
    let facts = known(steps, at, instr, row, &mut scratch)?;
    Ok(operand_rules::broken(instr, &facts))
}
