//! A method's code with operands of 16 bits: its size, its bytes, and where its instructions start.
#![tactic(auto)]

mod distances;
mod law;
mod limits;
mod places;
mod refusal;
mod renumber;
mod size;
mod starts;
mod step;
mod tiny;
mod write;

pub use law::{file_lines_are_read, lines_are_spelt, shrunk_code_is_read};
pub use places::ShortPlaces;
pub use refusal::ShrinkRefusal;
pub use renumber::Renumber;
pub use size::length;
pub use starts::Start;
pub use tiny::{Tiny, shrink};
