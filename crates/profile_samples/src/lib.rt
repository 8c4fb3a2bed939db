//! What the profile says of worlds over the base library, computed from the parts of files.
#![tactic(auto)]

pub mod law;
