//! The instructions of a method as the pass asks for them.

ghost use Rattle.std.specs.Prelude.{◌≡◌, IfOk, List, Ok, Some, true};
ghost use Rattle.cil_opcodes.specs.Rows.{row_of};
ghost use Rattle.cil_code.specs.Instructions.{instruction_at};
ghost use Rattle.cil_code.specs.Walk.{starts_of};
ghost use Rattle.code_rules.specs.Pass.{Step};
ghost use Rattle.code_places.specs.Among.{is_among};
ghost use Rattle.forward_pass.specs.Seen.{is_target, step_at};
ghost use Rattle.forward_pass.specs.Told.{Tells, begun};
ghost use Rattle.pass_steps.specs.Seen.{stack_seen};
ghost use Rattle.method_pass.specs.Steps.{AreSteps};

use crate::acts::act;
use crate::begins::begins_at;
use crate::broken::broken;
use crate::method::MethodSteps;
use cil_code::Instr;
use cil_opcodes::shape::Row;
use cil_opcodes::table::row;
use code_places::{begins_try, target_count};
use ecma_types::stack::StackType;
use forward_pass::{Begins, StepFacts, Steps};
use plain_types::fault::NoMemory;
use std::alloc::Global;
use step_facts::{behind, falls_well, target_of};

/// What is told where no instruction begins.
fn nothing(at: u32) -> StepFacts {
    StepFacts {
        next: at,
        begins: Begins::Nothing,
        tries: false,
        broken: None,
        branches: 0,
        falls: false,
        falls_well: false,
        targeted: false,
    }
}

/// How the handler begins that begins at an offset.
fn begins(steps: &MethodSteps<'_, '_>, at: u32) -> Result<Begins, NoMemory>
    ensures { IfOk result (λ begins. (listed : List Step) (s : Step) → AreSteps steps.now listed → step_at listed at ≡ Some s → begun stack_seen begins ≡ s.begins) }
{
    if steps.file >= steps.world.files() {
        return Ok(Begins::Nothing);
    }
    begins_at(steps.world, steps.file, steps.listing, at)
}

/// What is known of the instruction at an offset, whatever lies on the stack.
fn facts_at(
    alloc: Global,
    steps: &MethodSteps<'_, '_>,
    at: u32,
    instr: &Instr,
    row: Row,
) -> Result<StepFacts, NoMemory>
    requires start { is_among (starts_of steps.now.listing.now.code) at ≡ true }
    requires stands { instruction_at steps.now.listing.now.code at ≡ Ok instr.now }
    requires row { row_of instr.now.op ≡ Some row }
    ensures { IfOk result (λ facts. (listed : List Step) (s : Step) → AreSteps steps.now listed → step_at listed at ≡ Some s → Tells stack_seen s (is_target listed at) facts) }
{
    let listing = steps.listing;
    Ok(StepFacts {
        next: behind(listing, at, instr),
        begins: begins(steps, at)?,
        tries: begins_try(listing.clauses(), at),
        broken: broken(alloc, steps, at, instr, row)?,
        branches: target_count(instr) as usize,
        falls: !row.shape.is_unconditional_transfer(),
        falls_well: falls_well(listing, at),
        targeted: listing.is_target(at),
    })
}

impl<'m, 'a> Steps for MethodSteps<'m, 'a> {
    ghost are_steps = { λ steps listed. AreSteps steps listed };

    ghost seen = { λ steps. stack_seen };

    fn facts(&self, alloc: Global, at: u32) -> Result<StepFacts, NoMemory> {
        if !self.listing.is_start(at) {
            return Ok(nothing(at));
        }
        let instr = self.listing.instruction(at);
        match row(instr.op) {
            Some(row) => facts_at(alloc, self, at, &instr, row),
            None => Ok(nothing(at)),
        }
    }

    fn target(&self, at: u32, branch: usize) -> u32 {
        if !self.listing.is_start(at) {
            return at;
        }
        let instr = self.listing.instruction(at);
        if branch as u64 >= target_count(&instr) {
            return at;
        }
        target_of(self.listing, at, &instr, branch as u64)
    }

    fn act(
        &self,
        alloc: Global,
        at: u32,
        stack: &mut Vec<StackType>,
    ) -> Result<Option<u8>, NoMemory> {
        if !self.listing.is_start(at) {
            return Ok(None);
        }
        let instr = self.listing.instruction(at);
        match row(instr.op) {
            Some(row) => act(alloc, self, at, &instr, row, stack),
            None => Ok(None),
        }
    }
}
