//! The rules that name a row as a premise, one after the other.

ghost use Rattle.std.specs.Prelude.{◌≡◌, ℕ, ◌+◌, ◌<◌, ◌≤◌, ◌^◌, [], ◌∷◌, ◌++◌, IfOk, OnOk, length, slice_index_or, slice_get, slice_set, replicate, Some};
ghost use Rattle.row_closure.specs.Closure.{AreWithin};
ghost use Rattle.row_closure.specs.Chains.{row_of, AreChains};

use crate::rule::{Premise, Rule};
use plain_types::fault::NoMemory;
use std::alloc::Global;

/// For each row the last rule that names it as a premise, and for each rule the one before it that names the same row. A rule
/// is told by its number counted from 1, and 0 tells that there is none.
#[derive(Debug, Drop)]
pub struct Chains {
    pub last: Vec<u32>,
    pub before: Vec<u32>,
}

/// No rule for so many rows.
fn no_rules(alloc: Global, rows: usize) -> Result<Chains, NoMemory>
    ensures last { IfOk result (λ chains. chains.last.items ≡ replicate rows 0) }
    ensures before { IfOk result (λ chains. chains.before.items ≡ []) }
{
    Ok(Chains {
        last: vec![in alloc; 0; rows]?,
        before: Vec::new(alloc),
    })
}

/// Adds the rule of this number from 0, which names a row.
fn add(chains: &mut Chains, number: u32, row: u32) -> Result<(), NoMemory>
    requires inside { row < length chains.old.last.items }
    requires few { number + 1 < 2 ^ 32 }
    ensures before { OnOk result (chains.new.before.items ≡ chains.old.before.items ++ slice_index_or chains.old.last.items row 0 ∷ []) }
    ensures last { OnOk result (chains.new.last.items ≡ slice_set chains.old.last.items row (number + 1)) }
{
    let last = chains.last[row as usize];
    chains.before.push(last)?;
    chains.last[row as usize] = number + 1;
    Ok(())
}

/// The row that a rule names.
fn named(rules: &[Rule], number: u32, premise: Premise) -> u32
    requires { number < length rules.now }
    ensures { (r : Rule) → slice_get rules.now number ≡ Some r → result ≡ row_of premise r }
{
    rules[number as usize].row(premise)
}

/// The rules by one of their premises. More than 2 ^ 32 - 2 rules have no room.
pub fn chained(
    alloc: Global,
    rows: usize,
    rules: &[Rule],
    premise: Premise,
) -> Result<Chains, NoMemory>
    requires { AreWithin rows rules.now }
    ensures { IfOk result (λ chains. AreChains premise rules.now rows (length rules.now) chains) }
{
    let mut chains = no_rules(alloc, rows)?;
    let Ok(count) = u32::try_from(rules.len()) else {
        return Err(NoMemory);
    };
    for number in 0..count {
        add(&mut chains, number, named(rules, number, premise))?;
    }
    Ok(chains)
}
