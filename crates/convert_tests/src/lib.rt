//! Tests of the job `convert`, over a store and a sink in memory: what it comes to, which rows its images have, and which bytes are an
//! image.
#![tactic(auto)]

#[cfg(test)]
mod bytes;
#[cfg(test)]
mod kept;
#[cfg(test)]
mod limits;
#[cfg(test)]
mod runs;
#[cfg(test)]
mod sets;
#[cfg(test)]
mod stores;
