//! The rows that rules give, by a list of those whose rules are still to be looked at.

ghost use Rattle.std.specs.Prelude.{◌≡◌, ℕ, ◌<◌, ◌≤◌, ◌^◌, true, IfOk, OnOk, Some, length, slice_get};
ghost use Rattle.row_closure.specs.Closure.{holds, AreWithin, IsClosure};
ghost use Rattle.row_closure.specs.Chains.{row_of, AreChains};
ghost use Rattle.row_closure.specs.Work.{Lists, Grows};

use crate::chains::{Chains, chained};
use crate::rule::{Premise, Rule};
use plain_types::fault::NoMemory;
use std::alloc::Global;

/// The rows that are kept, in their order.
fn kept_rows(alloc: Global, kept: &[bool]) -> Result<Vec<u32>, NoMemory>
    requires { length kept.now ≤ 2 ^ 32 }
    ensures { IfOk result (λ met. Lists kept.now met.items) }
{
    let mut met = Vec::new(alloc);
    for row in 0..kept.len() {
        if kept[row] {
            met.push(row as u32)?;
        }
    }
    Ok(met)
}

/// Keeps what one rule gives.
fn follow(kept: &mut [bool], met: &mut Vec<u32>, rules: &[Rule], at: usize) -> Result<(), NoMemory>
    requires within { AreWithin (length kept.old) rules.now }
    requires at { at < length rules.now }
    ensures grows { OnOk result (Grows rules.now kept.old met.old.items kept.new met.new.items) }
    ensures gives { OnOk result ((r : Rule) → slice_get rules.now at ≡ Some r → holds kept.new r.first ≡ true → holds kept.new r.second ≡ true → holds kept.new r.then ≡ true) }
{
    let rule = rules[at];
    if kept[rule.first as usize] && kept[rule.second as usize] && !kept[rule.then as usize] {
        met.push(rule.then)?;
        kept[rule.then as usize] = true;
    }
    Ok(())
}

/// Keeps what the rules give that name a row as a premise.
fn follow_all(
    kept: &mut [bool],
    met: &mut Vec<u32>,
    rules: &[Rule],
    chains: &Chains,
    row: u32,
    premise: Premise,
) -> Result<(), NoMemory>
    requires within { AreWithin (length kept.old) rules.now }
    requires chains { AreChains premise rules.now (length kept.old) (length rules.now) chains.now }
    requires row { row < length kept.old }
    ensures grows { OnOk result (Grows rules.now kept.old met.old.items kept.new met.new.items) }
    ensures gives { OnOk result ((k : ℕ) (r : Rule) → slice_get rules.now k ≡ Some r → row_of premise r ≡ row → holds kept.old r.first ≡ true → holds kept.old r.second ≡ true → holds kept.new r.then ≡ true) }
{
    let mut number = chains.last[row as usize];
    while number != 0 {
        let at = number as usize - 1;
        follow(kept, met, rules, at)?;
        number = chains.before[at];
    }
    Ok(())
}

/// Makes a set of rows closed under rules, and no larger than that asks. In the time of the number of rows and rules: each
/// rule is looked at once under each of its premises.
pub fn close(alloc: Global, kept: &mut [bool], rules: &[Rule]) -> Result<(), NoMemory>
    requires few { length kept.old ≤ 2 ^ 32 }
    requires within { AreWithin (length kept.old) rules.now }
    ensures size { length kept.new ≡ length kept.old }
    ensures closure { OnOk result (IsClosure rules.now (holds kept.old) (holds kept.new)) }
{
    let by_first = chained(alloc, kept.len(), rules, Premise::First)?;
    let by_second = chained(alloc, kept.len(), rules, Premise::Second)?;
    let mut met = kept_rows(alloc, kept)?;
    let mut done = 0;
    while done < met.len() {
        let row = met[done];
        follow_all(kept, &mut met, rules, &by_first, row, Premise::First)?;
        follow_all(kept, &mut met, rules, &by_second, row, Premise::Second)?;
        done += 1;
    }
    Ok(())
}
