//! The edges of an instruction's branches: recorded forwards, compared backwards.

ghost use Rattle.std.specs.Prelude.{◌≡◌, ℕ, Bool, true, List, IfOk, Some, length};
ghost use Rattle.ecma_types.specs.declared.stack.StackType.{StackType as WorldType};
ghost use Rattle.machine_typed.specs.Typing.{StackType as MachineType};
ghost use Rattle.code_rules.specs.Pass.{Entry, Lattice as MachineLattice, Step, edge as edge_of, edges as edges_of, fits_standing, recorded as recorded_there, standing, with_record};
ghost use Rattle.forward_pass.specs.Seen.{Agrees, AllNeeded, Keeps, seen_stack, seen_there, step_at};
ghost use Rattle.forward_pass.specs.Told.{Leaves};

use crate::join::{misfit, recorded};
use crate::lowest::lower;
use crate::steps::Steps;
use ecma_types::lattice::Lattice;
use ecma_types::stack::StackType;
use plain_types::fault::NoMemory;
use std::alloc::Global;
use std::collections::BTreeMap;

/// The types that stand at offsets to which branches lead.
pub type Table = BTreeMap<u32, Vec<StackType>>;

/// Records the types of an edge to a later offset.
fn record<L: Lattice>(
    alloc: Global,
    table: &mut Table,
    to: u32,
    stack: &[StackType],
    lattice: &L,
) -> Result<Option<u8>, NoMemory>
    ensures { IfOk result (λ rule. (seen : WorldType → MachineType) (l : MachineLattice) (needed : ℕ → Bool) (entries : List Entry) → Agrees seen (L.is_assignable lattice.now) (L.merges lattice.now) l → Keeps seen needed table.old entries → needed to ≡ true → Leaves seen needed table.new rule (with_record to entries (recorded_there l (standing entries to) (seen_stack seen stack.now)))) }
{
    match recorded(alloc, table.get(&to), stack, lattice)? {
        Ok(types) => {
            table.insert(to, types)?;
            Ok(None)
        }
        Err(rule) => Ok(Some(rule)),
    }
}

/// Compares an edge with the types that stand at its target.
fn compare<L: Lattice>(
    alloc: Global,
    there: Option<&Vec<StackType>>,
    stack: &[StackType],
    lattice: &L,
) -> Result<Option<u8>, NoMemory>
    ensures { IfOk result (λ rule. (seen : WorldType → MachineType) (l : MachineLattice) → Agrees seen (L.is_assignable lattice.now) (L.merges lattice.now) l → rule ≡ fits_standing l (seen_stack seen stack.now) (seen_there seen there.entry)) }
{
    match there {
        Some(there) => misfit(alloc, stack, there, lattice),
        None => Ok(None),
    }
}

/// An edge of a branch.
fn edge<L: Lattice>(
    alloc: Global,
    table: &mut Table,
    from: u32,
    to: u32,
    stack: &[StackType],
    lattice: &L,
) -> Result<Option<u8>, NoMemory>
    ensures { IfOk result (λ rule. (seen : WorldType → MachineType) (l : MachineLattice) (needed : ℕ → Bool) (entries : List Entry) → Agrees seen (L.is_assignable lattice.now) (L.merges lattice.now) l → Keeps seen needed table.old entries → needed to ≡ true → Leaves seen needed table.new rule (edge_of l from (seen_stack seen stack.now) to entries)) }
{
    if from < to {
        record(alloc, table, to, stack, lattice)
    } else {
        compare(alloc, table.get(&to), stack, lattice)
    }
}

/// The edges of an instruction's branches. The answer is the lowest rule that one of them breaks.
pub fn edges<S: Steps, L: Lattice>(
    alloc: Global,
    table: &mut Table,
    from: u32,
    branches: usize,
    stack: &[StackType],
    steps: &S,
    lattice: &L,
) -> Result<Option<u8>, NoMemory>
    ensures { IfOk result (λ rule. (listed : List Step) → S.are_steps steps.now listed → (s : Step) (l : MachineLattice) (needed : ℕ → Bool) (entries : List Entry) → step_at listed from ≡ Some s → branches ≡ length s.goes → Agrees (S.seen steps.now) (L.is_assignable lattice.now) (L.merges lattice.now) l → AllNeeded needed s.goes → Keeps (S.seen steps.now) needed table.old entries → Leaves (S.seen steps.now) needed table.new rule (edges_of l from (seen_stack (S.seen steps.now) stack.now) s.goes entries)) }
{
    let mut lowest = None;
    for branch in 0..branches {
        let rule = edge(
            alloc,
            table,
            from,
            steps.target(from, branch),
            stack,
            lattice,
        )?;
        lowest = lower(lowest, rule);
    }
    Ok(lowest)
}
