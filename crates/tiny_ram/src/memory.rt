//! The memory itself.

ghost use Rattle.std.specs.Prelude.{◌≡◌, ◌-◌, ◌*◌, ◌<◌, ◌≤◌, ◌^◌, ◌+◌, IfOk};

use plain_types::fault::NoMemory;
use ram_words::frames::{Hot, waiting};
use std::alloc::Global;

/// The most cells that a memory has.
pub const MOST_CELLS: u32 = 4_194_304;

/// The words of so many cells.
pub(crate) const MOST_WORDS: usize = 12_582_912;

/// The cells don't do.
#[derive(Clone, Copy, Debug, PartialEq, Eq)]
pub struct Spent;

/// A memory of so many cells. Objects grow upwards and frames downwards; nothing but [`Ram::new`] takes memory of the host.
#[derive(Debug, Drop)]
pub struct Ram {
    /// Three words a cell.
    pub(crate) words: Vec<u32>,
    /// The words of objects.
    pub(crate) heap: usize,
    /// Where the innermost frame lies; without a frame it lies behind the end.
    pub(crate) hot: Hot,
}

impl Ram {
    ghost use Rattle.tiny_ram.specs.Memory.{empty};
    ghost use Rattle.tiny_ram.specs.Region.{Keeps};

    /// An empty memory of so many cells. `NoMemory` where the host has none left, and for more than [`MOST_CELLS`].
    pub fn new(alloc: Global, cells: u32) -> Result<Ram, NoMemory>
        ensures { IfOk result (λ ram. Keeps ram (empty cells)) }
    {
        if cells > MOST_CELLS {
            return Err(NoMemory);
        }
        let words = vec![in alloc; 0; 3 * cells as usize]?;
        let hot = waiting(&words, words.len());
        Ok(Ram {
            words,
            heap: 0,
            hot,
        })
    }

    /// Where the innermost frame begins; behind the end where there is none.
    #[inline(always)]
    pub(crate) fn low(&self) -> usize
        ensures { result ≡ self.now.hot.arguments - 6 }
    {
        self.hot.arguments.saturating_sub(6)
    }
}

/// The word at which a thing begins.
#[inline(always)]
pub(crate) fn start_of(thing: u32) -> usize
    ensures { result ≡ 3 * (thing - 1) }
{
    3 * thing.saturating_sub(1) as usize
}
