//! What the pass does at an instruction.

ghost use Rattle.std.specs.Prelude.{◌≡◌, ◌<◌, ℕ, true, List, [], Option, None, Some, Ok, IfOk, OnOk, is_some};
ghost use Rattle.ecma_types.specs.declared.stack.StackType.{StackType as WorldType};
ghost use Rattle.machine_typed.specs.Typing.{StackType as MachineType};
ghost use Rattle.code_rules.specs.Pass.{Entry, Lattice as MachineLattice, Step, acted as acted_of, fallen as fallen_of, incoming as incoming_of, met as met_of, not_empty as not_empty_of, put, visit as visit_of};
ghost use Rattle.forward_pass.specs.Seen.{Agrees, Keeps, is_needed, is_target, seen_falling, seen_stack, seen_there, seen_types, step_at};
ghost use Rattle.forward_pass.specs.Told.{Behind, Goes, IsRanked, Tells, begun, left_behind, lowest_of};

use crate::edges::{Table, edges};
use crate::join::{copied, merged};
use crate::lowest::{FALLS_BADLY, NOT_EMPTY, lower, lowest_with};
use crate::steps::{Begins, StepFacts, Steps};
use ecma_types::lattice::Lattice;
use ecma_types::stack::StackType;
use plain_types::fault::NoMemory;
use std::alloc::Global;

/// The types with which control comes to an instruction where no handler begins: those that were recorded, merged with those
/// that fall into it.
fn joined<L: Lattice>(
    alloc: Global,
    there: Option<&Vec<StackType>>,
    falling: Option<Vec<StackType>>,
    lattice: &L,
) -> Result<Result<Vec<StackType>, u8>, NoMemory>
    ensures { IfOk result (λ types. (seen : WorldType → MachineType) (l : MachineLattice) → Agrees seen (L.is_assignable lattice.now) (L.merges lattice.now) l → seen_types seen types ≡ incoming_of l None (seen_there seen there.entry) (seen_falling seen falling)) }
{
    match there {
        Some(there) => match falling {
            Some(stack) => merged(alloc, there, &stack, lattice),
            None => Ok(Ok(copied(alloc, there)?)),
        },
        None => match falling {
            Some(stack) => Ok(Ok(stack)),
            None => Ok(Ok(Vec::new(alloc))),
        },
    }
}

/// The types with which control comes to an instruction.
fn incoming<L: Lattice>(
    alloc: Global,
    begins: Begins,
    there: Option<&Vec<StackType>>,
    falling: Option<Vec<StackType>>,
    lattice: &L,
) -> Result<Result<Vec<StackType>, u8>, NoMemory>
    ensures { IfOk result (λ types. (seen : WorldType → MachineType) (l : MachineLattice) → Agrees seen (L.is_assignable lattice.now) (L.merges lattice.now) l → seen_types seen types ≡ incoming_of l (begun seen begins) (seen_there seen there.entry) (seen_falling seen falling)) }
{
    match begins {
        Begins::Nothing => joined(alloc, there, falling, lattice),
        Begins::Empty => Ok(Ok(Vec::new(alloc))),
        Begins::Exception(of) => {
            let mut stack = Vec::new(alloc);
            stack.push(of)?;
            Ok(Ok(stack))
        }
    }
}

/// The types at an instruction are kept for the branches that lead to it.
fn keep(
    alloc: Global,
    table: &mut Table,
    at: u32,
    targeted: bool,
    stack: &[StackType],
) -> Result<(), NoMemory>
    ensures { OnOk result ((seen : WorldType → MachineType) (steps : List Step) (next : ℕ) (entries : List Entry) → (is_target steps at ≡ true → targeted ≡ true) → at < next → Keeps seen (is_needed steps at) table.old entries → Keeps seen (is_needed steps next) table.new (put at (seen_stack seen stack.now) entries)) }
{
    if targeted {
        table.insert(at, copied(alloc, stack)?)?;
    }
    Ok(())
}

/// The rule that the edge breaks which falls into an instruction.
fn fallen(falls: bool, falls_well: bool) -> Option<u8>
    ensures { (s : Step) (falling : Option (List MachineType)) → falls ≡ is_some falling → falls_well ≡ s.falls_well → result ≡ lowest_of (fallen_of s falling) }
{
    if falls && !falls_well {
        Some(FALLS_BADLY)
    } else {
        None
    }
}

/// The rule that types break where a try begins.
fn filled(tries: bool, stack: &[StackType]) -> Option<u8>
    ensures { (seen : WorldType → MachineType) → result ≡ lowest_of (not_empty_of tries (seen_stack seen stack.now)) }
{
    if tries && !stack.is_empty() {
        Some(NOT_EMPTY)
    } else {
        None
    }
}

/// The instruction's effect on the stack, and its edges. The answer is the lowest rule that is broken.
fn acted<S: Steps, L: Lattice>(
    alloc: Global,
    table: &mut Table,
    at: u32,
    facts: &StepFacts,
    stack: &mut Vec<StackType>,
    steps: &S,
    lattice: &L,
) -> Result<Option<u8>, NoMemory>
    ensures { IfOk result (λ rule. (listed : List Step) → S.are_steps steps.now listed → (s : Step) (l : MachineLattice) (entries : List Entry) → step_at listed at ≡ Some s → s.broken ≡ [] → Tells (S.seen steps.now) s (is_target listed at) facts.now → Agrees (S.seen steps.now) (L.is_assignable lattice.now) (L.merges lattice.now) l → Keeps (S.seen steps.now) (is_needed listed s.next) table.old entries → Goes (S.seen steps.now) (is_needed listed s.next) s table.new stack.new.items rule (acted_of l s entries (s.act (seen_stack (S.seen steps.now) stack.old.items)))) }
{
    match steps.act(alloc, at, stack)? {
        Some(rule) => Ok(Some(rule)),
        None => edges(alloc, table, at, facts.branches, stack, steps, lattice),
    }
}

/// An instruction to which control comes with a stack. The answer is the lowest rule that is broken.
fn met<S: Steps, L: Lattice>(
    alloc: Global,
    table: &mut Table,
    at: u32,
    facts: &StepFacts,
    stack: &mut Vec<StackType>,
    steps: &S,
    lattice: &L,
) -> Result<Option<u8>, NoMemory>
    ensures { IfOk result (λ rule. (listed : List Step) → S.are_steps steps.now listed → (s : Step) (l : MachineLattice) (entries : List Entry) → step_at listed at ≡ Some s → s.broken ≡ [] → at < s.next → Tells (S.seen steps.now) s (is_target listed at) facts.now → Agrees (S.seen steps.now) (L.is_assignable lattice.now) (L.merges lattice.now) l → Keeps (S.seen steps.now) (is_needed listed at) table.old entries → Goes (S.seen steps.now) (is_needed listed s.next) s table.new stack.new.items rule (met_of l s entries (Ok (seen_stack (S.seen steps.now) stack.old.items)))) }
{
    let filled = filled(facts.tries, stack);
    keep(alloc, table, at, facts.targeted, stack)?;
    let rule = acted(alloc, table, at, facts, stack, steps, lattice)?;
    Ok(lower(filled, rule))
}

/// What falls through behind an instruction, where no rule is broken there.
fn behind(
    rule: Option<u8>,
    falls: bool,
    stack: Vec<StackType>,
) -> Result<Option<Vec<StackType>>, u8>
    ensures { result ≡ left_behind rule falls stack }
{
    match rule {
        Some(rule) => Err(rule),
        None if falls => Ok(Some(stack)),
        None => Ok(None),
    }
}

/// An instruction that breaks nothing whatever lies on the stack, with the types that fall into it.
fn go_through<S: Steps, L: Lattice>(
    alloc: Global,
    table: &mut Table,
    at: u32,
    facts: &StepFacts,
    falling: Option<Vec<StackType>>,
    steps: &S,
    lattice: &L,
) -> Result<Result<Option<Vec<StackType>>, u8>, NoMemory>
    ensures { IfOk result (λ after. (listed : List Step) → S.are_steps steps.now listed → (s : Step) (l : MachineLattice) (entries : List Entry) → step_at listed at ≡ Some s → s.broken ≡ [] → at < s.next → Tells (S.seen steps.now) s (is_target listed at) facts.now → Agrees (S.seen steps.now) (L.is_assignable lattice.now) (L.merges lattice.now) l → Keeps (S.seen steps.now) (is_needed listed at) table.old entries → Behind (S.seen steps.now) (is_needed listed s.next) table.new after (visit_of l s entries (seen_falling (S.seen steps.now) falling))) }
{
    let before = fallen(falling.is_some(), facts.falls_well);
    match incoming(alloc, facts.begins, table.get(&at), falling, lattice)? {
        Ok(mut stack) => {
            let rule = met(alloc, table, at, facts, &mut stack, steps, lattice)?;
            Ok(behind(lower(before, rule), facts.falls, stack))
        }
        Err(rule) => Ok(Err(lowest_with(before, rule))),
    }
}

/// An instruction, with the types that fall into it. The answer is what falls through behind it, or the lowest rule that is
/// broken there.
pub fn visit<S: Steps, L: Lattice>(
    alloc: Global,
    table: &mut Table,
    at: u32,
    facts: &StepFacts,
    falling: Option<Vec<StackType>>,
    steps: &S,
    lattice: &L,
) -> Result<Result<Option<Vec<StackType>>, u8>, NoMemory>
    ensures { IfOk result (λ after. (listed : List Step) → S.are_steps steps.now listed → (s : Step) (l : MachineLattice) (entries : List Entry) → step_at listed at ≡ Some s → IsRanked s → at < s.next → Tells (S.seen steps.now) s (is_target listed at) facts.now → Agrees (S.seen steps.now) (L.is_assignable lattice.now) (L.merges lattice.now) l → Keeps (S.seen steps.now) (is_needed listed at) table.old entries → Behind (S.seen steps.now) (is_needed listed s.next) table.new after (visit_of l s entries (seen_falling (S.seen steps.now) falling))) }
{
    match facts.broken {
        Some(rule) => Ok(Err(lowest_with(fallen(falling.is_some(), facts.falls_well), rule))),
        None => go_through(alloc, table, at, facts, falling, steps, lattice),
    }
}
