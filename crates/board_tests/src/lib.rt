//! Tests of the board's parts: operators, memory, exceptions, dispatch and the answers of a bound set.
#![tactic(auto)]

#[cfg(test)]
mod bound;
#[cfg(test)]
mod dispatch;
#[cfg(test)]
mod exceptions;
#[cfg(test)]
mod memory;
#[cfg(test)]
mod operators;
#[cfg(test)]
mod text;
