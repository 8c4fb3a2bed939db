//! Tests of the parts of the image: its pools and bytes, and the size of shortened code.
#![tactic(auto)]

#[cfg(test)]
mod code;
#[cfg(test)]
mod hello;
