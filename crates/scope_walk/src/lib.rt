//! What the references to types of assemblies name, where one may be nested in another (ECMA-335 II.22.38): those outside
//! others first, then those inside what is found, in the time of their number.
#![tactic(auto)]

mod references;
mod walk;

pub use references::References;
pub use walk::resolve_references;
