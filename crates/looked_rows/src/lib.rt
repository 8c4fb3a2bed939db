//! Which rows of references a file looks at: those that its types, members and bodies name (ECMA-335 II.22.25, II.22.39).
#![tactic(auto)]

mod body;
mod code;
mod looked;
mod rows;
mod signature;

pub use body::read_body;
pub use looked::Looked;
pub use rows::looked_at;
