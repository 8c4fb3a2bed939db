//! For each key of a list the first place that has it: how names are looked up where the first one counts.
#![tactic(auto)]

ghost use Rattle.std.specs.Prelude.{◌≡◌, ◌≤◌, ◌^◌, IfOk, length, position};
ghost use Rattle.std.specs.BTreeMap.{get};
ghost use Rattle.first_places.specs.Places.{FindsFirst};

use plain_types::fault::NoMemory;
use std::alloc::Global;
use std::collections::BTreeMap;

/// The first place of each key.
pub fn first_places<K: Ord + Drop>(
    alloc: Global,
    keys: Vec<K>,
) -> Result<BTreeMap<K, u32>, NoMemory>
    requires { length keys.items ≤ 2 ^ 32 }
    ensures { IfOk result (FindsFirst K.cmp keys.items) }
{
    let mut places = BTreeMap::new(alloc);
    let mut before = keys;
    // From the last key on, so that of equal ones the first is written at last.
    while let Some(key) = before.pop() {
        places.insert(key, before.len() as u32)?;
    }
    Ok(places)
}
