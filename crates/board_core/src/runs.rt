//! What a board boots and runs.

ghost use Rattle.std.specs.Prelude.{◌≡◌, ◌≤◌, IfOk, length};
ghost use Rattle.board_core.specs.Ends.{Ends, ended_view};

use plain_types::fault::NoMemory;
use plain_types::list::Items;
use std::alloc::Global;
use wire_packets::payload::MAX_TEXT;

/// How a run ended, as the reply to Run tells it, and its text.
#[derive(Debug, Drop)]
pub struct Ended {
    /// [`ENDED`](wire_packets::command::ENDED), or why nothing runs.
    pub kind: u8,
    /// Three numbers that the kind uses; they are 0 where it doesn't.
    pub first: u32,
    pub second: u32,
    pub third: u32,
    /// The result text, of at most [`MAX_TEXT`] bytes.
    pub text: Items<u8>,
}

/// Boots and runs what a flash holds.
pub trait Runs {
    /// How a content ends, with so many steps and so many cells of memory.
    ghost runs: { Self → Ends };

    /// Boots what the flash holds and runs it, for at most so many steps and over so many cells. The memory is taken
    /// before anything runs.
    fn boot_and_run(
        &self,
        alloc: Global,
        flash: &[u8],
        steps: u64,
        cells: u32,
    ) -> Result<Ended, NoMemory>
        ensures ended { IfOk result (λ e. ended_view e ≡ runs self.now flash.now steps cells) }
        ensures text { IfOk result (λ e. length e.text ≤ MAX_TEXT) };
}
