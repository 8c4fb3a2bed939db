//! The codes of a file's kept methods with operands of 16 bits, how many bytes they have, and the limits of distances and switches.
#![tactic(auto)]

mod body;
mod codes;
pub mod law;
mod length;
mod refusal;

pub use body::method_body;
pub use codes::image_codes;
pub use length::code_length;
pub use refusal::CodesRefusal;
