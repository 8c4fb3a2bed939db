//! What a board does with the packets that reach it.
#![tactic(auto)]

mod board;
mod doing;
mod handled;
pub mod law;
mod operating;
mod replies;
mod runs;

pub use board::Core;
pub use handled::Handled;
pub use operating::{Asked, PowerOff, handle_operation, operate, operation_asked};
pub use runs::{Ended, Runs};
