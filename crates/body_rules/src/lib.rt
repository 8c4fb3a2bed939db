//! The rules by which a method with code keeps what its code names: the types of its locals, the classes that it catches, and the
//! types, fields and methods of its instructions (ECMA-335 II.25.4, III.1.9).
#![tactic(auto)]

mod bodies;
mod code;
pub mod law;
mod references;
mod tokens;

pub use bodies::add_code_names;
