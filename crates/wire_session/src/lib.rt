//! Both ends of a session between tool and board.
#![tactic(auto)]

pub mod act;
pub mod answerer;
pub mod asker;
pub mod laws;
pub mod replies;

pub use act::Act;
pub use answerer::Answerer;
pub use asker::{Asker, NumbersSpent};
pub use replies::matches;
