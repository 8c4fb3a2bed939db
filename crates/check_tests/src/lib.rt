//! What the rules 20 to 30 tell of small assemblies, in lines of text: each ground of each rule with its place, and what passes.
#![tactic(auto)]

#[cfg(test)]
mod cases;
#[cfg(test)]
mod entries;
#[cfg(test)]
mod fields;
#[cfg(test)]
mod library;
#[cfg(test)]
mod methods;
#[cfg(test)]
mod program;
#[cfg(test)]
mod references;
#[cfg(test)]
mod told;
#[cfg(test)]
mod types;
#[cfg(test)]
mod worlds;
