//! How many rows are kept of those before each.

ghost use Rattle.std.specs.Prelude.{◌≡◌, ◌<◌, ◌^◌, IfOk, length};
ghost use Rattle.kept_marks.specs.Ranks.{AreRanks};

use plain_types::fault::NoMemory;
use std::alloc::Global;

/// For each row, and behind the last one, how many are kept of those before it.
pub fn ranks(alloc: Global, marks: &[bool]) -> Result<Vec<u32>, NoMemory>
    requires { length marks.now < 2 ^ 32 }
    ensures { IfOk result (λ ranks. AreRanks marks.now ranks.items) }
{
    let mut ranks = Vec::new(alloc);
    let mut count: u32 = 0;
    for row in 0..marks.len() {
        ranks.push(count)?;
        if marks[row] {
            count += 1;
        }
    }
    ranks.push(count)?;
    Ok(ranks)
}
