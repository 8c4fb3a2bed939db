//! Whether what operands of a bound set's code name is of the kind that their instructions take (ECMA-335 III.3, III.4). All is read in
//! the set's table: no call takes memory of the host.
#![tactic(auto)]

mod methods;
mod types;

pub use methods::{may_call, may_call_virtual};
pub use types::{is_number_type, is_plain_type};
