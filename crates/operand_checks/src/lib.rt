//! What rules 46 and 53 tell of the operands and the values of small methods, in lines of text.
#![tactic(auto)]

#[cfg(test)]
mod operands;
#[cfg(test)]
mod told;
#[cfg(test)]
mod values;
