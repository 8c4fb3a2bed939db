//! Rules over rows, and the least set of rows that is closed under them.
#![tactic(auto)]

mod chains;
mod rule;
mod work;

pub use rule::Rule;
pub use work::close;
