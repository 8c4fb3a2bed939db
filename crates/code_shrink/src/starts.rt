//! Where instructions start, in a file's code and in the shortened code.

ghost use Rattle.std.specs.Prelude.{◌≡◌, ◌<◌, ◌≤◌, ◌^◌, ℕ, length, slice_get, IfOk, Some};
ghost use Rattle.code_shrink.specs.declared.starts.Start.{Start as AStart};
ghost use Rattle.code_shrink.specs.Shrunk.{pieces_of};
ghost use Rattle.code_shrink.specs.Starts.{Rise, short_in, place_in, starts_from};

use crate::step::{next_step, short_size};
use plain_types::fault::NoMemory;
use std::alloc::Global;

/// Where an instruction starts, or the code ends.
#[derive(Clone, Copy, Debug, PartialEq, Eq)]
pub struct Start {
    /// Its offset in the file's code.
    pub long: u32,
    /// Its offset in the shortened code.
    pub short: u32,
}

/// The starts of the instructions in order, and the end of the code behind them, or the place at which no instruction stands.
pub fn starts(alloc: Global, code: &[u8]) -> Result<Vec<Start>, NoMemory>
    requires { length code.now < 2 ^ 32 }
    ensures { IfOk result (λ starts. starts.items ≡ starts_from 0 0 (pieces_of code.now)) }
{
    let mut starts = Vec::new(alloc);
    let mut long: u32 = 0;
    let mut short: u32 = 0;
    'walk: while let Some(step) = next_step(code, long) {
        starts.push(Start { long, short })?;
        short += short_size(step);
        long += step.instr.length;
    }
    starts.push(Start { long, short })?;
    Ok(starts)
}

/// The number of the last start that stands no farther than a place, and of the first where all stand farther. By bisection.
pub fn last_up_to(starts: &[Start], at: u32) -> usize
    requires rise { Rise starts.now }
    requires some { 0 < length starts.now }
    ensures inside { result < length starts.now }
    ensures before { (k : ℕ) (s : AStart) → 0 < k → k ≤ result → slice_get starts.now k ≡ Some s → s.long ≤ at }
    ensures behind { (k : ℕ) (s : AStart) → result < k → slice_get starts.now k ≡ Some s → at < s.long }
{
    let mut low = 0;
    let mut high = starts.len();
    'search: while low + 1 < high {
        let middle = low + (high - low) / 2;
        if starts[middle].long <= at {
            low = middle;
        } else {
            high = middle;
        }
    }
    low
}

/// The start in the shortened code for one in the file's code.
pub fn found(starts: &[Start], at: u32) -> Option<u32>
    requires { Rise starts.now }
    ensures { result ≡ short_in starts.now at }
{
    if starts.is_empty() {
        return None;
    }
    let start = starts[last_up_to(starts, at)];
    if start.long == at {
        Some(start.short)
    } else {
        None
    }
}

/// The same, and 0 where no instruction starts.
pub fn place(starts: &[Start], at: u32) -> u32
    requires { Rise starts.now }
    ensures { result ≡ place_in starts.now at }
{
    found(starts, at).unwrap_or(0)
}
