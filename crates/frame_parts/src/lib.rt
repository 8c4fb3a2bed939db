//! The parts of a frame by its number: its method, its places, the depth of its stack, and whether it initialises a class.
#![tactic(auto)]

mod parts;

pub use parts::{
    depth, is_initialiser, mark_initialiser, method_of, place, put_depth, put_place, sum_of,
};
