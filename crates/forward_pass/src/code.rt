//! The pass over all instructions.

ghost use Rattle.std.specs.Prelude.{◌≡◌, List, [], IfOk, Some};
ghost use Rattle.code_rules.specs.Pass.{Lattice as MachineLattice, Step, pass as passed};
ghost use Rattle.forward_pass.specs.Seen.{Agrees, LieFrom};
ghost use Rattle.forward_pass.specs.Told.{AreRanked};
ghost use Rattle.forward_pass.specs.Answer.{told};

use crate::steps::Steps;
use crate::visit::visit;
use ecma_types::lattice::Lattice;
use plain_types::fault::NoMemory;
use std::alloc::Global;
use std::collections::BTreeMap;

/// The first offset at which something is broken, in bytes from the start of the code, and the lowest of the rules 45 to 54
/// that are broken there.
#[derive(Clone, Copy, Debug, PartialEq, Eq)]
pub struct Broken {
    pub offset: u32,
    pub rule: u8,
}

/// Goes once over the instructions of a method, by rising offsets, with the types on the stack at each (ECMA-335 III.1.7.5).
///
/// The answer is told of instructions that stand behind one another from offset 0 to the size of the code, in bytes, where what one
/// breaks whatever lies on the stack are lower rules than what it breaks with the types there. `None` is told of code in which nothing
/// is broken. Want of memory is the only error.
pub fn pass<S: Steps, L: Lattice>(
    alloc: Global,
    steps: &S,
    lattice: &L,
    size: u32,
) -> Result<Option<Broken>, NoMemory>
    ensures { IfOk result (λ broken. (listed : List Step) → S.are_steps steps.now listed → LieFrom listed 0 size → AreRanked listed → (l : MachineLattice) → Agrees (S.seen steps.now) (L.is_assignable lattice.now) (L.merges lattice.now) l → broken ≡ told (passed l listed [] (Some []))) }
{
    let mut table = BTreeMap::new(alloc);
    let mut falling = Some(Vec::new(alloc));
    let mut at = 0;
    while at < size {
        let facts = steps.facts(alloc, at)?;
        if facts.next <= at {
            return Ok(None);
        }
        match visit(alloc, &mut table, at, &facts, falling, steps, lattice)? {
            Ok(stack) => falling = stack,
            Err(rule) => return Ok(Some(Broken { offset: at, rule })),
        }
        at = facts.next;
    }
    Ok(None)
}
