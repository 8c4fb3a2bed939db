//! For each key of a list whether an earlier one is equal to it.
#![tactic(auto)]

ghost use Rattle.std.specs.Prelude.{◌≡◌, ℕ, ◌<◌, false, Some, IfOk, length, replicate};
ghost use Rattle.repeated_keys.specs.Repeats.{AreRepeats, marked};

use plain_types::fault::NoMemory;
use std::alloc::Global;
use std::collections::BTreeMap;

/// So often false.
fn unmarked(alloc: Global, count: usize) -> Result<Vec<bool>, NoMemory>
    ensures { IfOk result (λ bits. bits.items ≡ replicate count false) }
{
    Ok(vec![in alloc; false; count]?)
}

/// Marks a place, if there is one.
fn mark(bits: &mut Vec<bool>, place: Option<usize>)
    requires { (at : ℕ) → place ≡ Some at → at < length bits.old.items }
    ensures bits { bits.new.items ≡ marked place bits.old.items }
    ensures size { length bits.new.items ≡ length bits.old.items }
{
    if let Some(at) = place {
        bits[at] = true;
    }
}

/// For each key whether an earlier one is equal to it, by one search for each.
pub fn repeated<K: Ord + Drop>(alloc: Global, keys: Vec<K>) -> Result<Vec<bool>, NoMemory>
    ensures { IfOk result (λ repeats. AreRepeats K.cmp keys.items repeats.items) }
{
    let count = keys.len();
    let mut repeats = unmarked(alloc, count)?;
    let mut nearest = BTreeMap::new(alloc);
    let mut before = keys;
    // From the last key on: one repeats an earlier one where that, put before it, finds it as the nearest of its kind.
    while let Some(key) = before.pop() {
        let place = before.len();
        let later = nearest.insert(key, place)?;
        mark(&mut repeats, later);
    }
    Ok(repeats)
}
