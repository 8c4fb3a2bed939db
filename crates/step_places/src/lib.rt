//! Instructions that read, write or point to an argument or a local of the innermost frame: `ldarg`, `starg`, `ldarga`, `ldloc`, `stloc`
//! and `ldloca` (ECMA-335 III.3).
#![tactic(auto)]

mod arguments;
mod locals;
mod places;

pub use arguments::{load_argument, load_argument_address, store_argument};
pub use locals::{load_local, load_local_address, store_local};
