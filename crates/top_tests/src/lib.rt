//! Tests of the call on which the program stands, over a store and a sink in memory, and of its words and texts.
#![tactic(auto)]

#[cfg(test)]
mod first_path;
#[cfg(test)]
mod front;
