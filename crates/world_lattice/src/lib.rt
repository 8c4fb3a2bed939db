//! The order of a world's types as the verdict's pass asks for it, by the classes of a table (ECMA-335 I.8.7, III.1.8.1.3).
#![tactic(auto)]

mod lattice;
pub mod law;
mod spelling;

pub use lattice::WorldLattice;
pub use spelling::rowed;
