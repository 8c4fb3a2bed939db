//! Definitions: the program of a found set of images, as the board runs it, and what a run of it shows.
#![tactic(auto)]

pub mod law;
