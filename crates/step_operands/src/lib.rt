//! What instructions take off the stack, what references among it name, and how the frame goes on.
#![tactic(auto)]

mod cell;
mod held;
mod making;
mod number;
mod referred;
mod stack;

pub use cell::{elem_of, keep_in};
pub use held::keep_elem;
pub use making::go_with_new;
pub use number::int_of;
pub use referred::{Referred, named};
pub use stack::{
    Pair, Triple, go_on, go_with, raise_one, raise_three, raise_two, take, take_three, take_two,
};
