//! The ends of an act.

use board_types::board::Known;

/// How an instruction's act over the memory ends. What each end means of the machine's step is said by `Ends`.
#[derive(Clone, Copy, Debug, PartialEq, Eq)]
pub enum Acted {
    /// The act is done: the memory stands for the machine's next state.
    Done,
    /// The machine has no case.
    Stuck,
    /// The machine's next state has more cells than the memory.
    Spent,
    /// An exception of this class is to be raised; nothing has changed.
    Raises(Known),
}
