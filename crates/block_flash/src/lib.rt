//! A block flash in memory, with stops of the power, failures and a record of its operations.
#![tactic(auto)]

pub mod change;
pub mod memory_flash;

pub use memory_flash::MemoryFlash;
