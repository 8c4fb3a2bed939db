//! Tests of the native methods of the base library over the board's memory, a line a case.
#![tactic(auto)]

#[cfg(test)]
mod arrays;
#[cfg(test)]
mod cases;
#[cfg(test)]
mod ends;
#[cfg(test)]
mod images;
#[cfg(test)]
mod limits;
#[cfg(test)]
mod objects;
#[cfg(test)]
mod strings;
#[cfg(test)]
mod things;
