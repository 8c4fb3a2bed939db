//! Tests of the readers, in tables: rows, headers, signatures, bodies and instructions by hand, and what the first broken
//! rule of each changed file is.
#![tactic(auto)]

#[cfg(test)]
mod code;
#[cfg(test)]
mod compressed;
#[cfg(test)]
mod opcodes;
#[cfg(test)]
mod pe;
#[cfg(test)]
mod signatures;
#[cfg(test)]
mod tables;
