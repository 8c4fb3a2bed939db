//! What rules 31, 40 to 45, 47 and 50 to 54 tell of small types and methods, in lines of text: each ground of each rule, and what passes.
#![tactic(auto)]

#[cfg(test)]
mod bodies;
#[cfg(test)]
mod clauses;
#[cfg(test)]
mod merges;
#[cfg(test)]
mod slots;
#[cfg(test)]
mod stacks;
#[cfg(test)]
mod told;
#[cfg(test)]
mod transfers;
