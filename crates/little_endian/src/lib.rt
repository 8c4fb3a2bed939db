//! Numbers of two, four and eight bytes in lists of bytes, the lowest byte first.
#![tactic(auto)]

pub mod law;
pub mod read;
pub mod write;

pub use read::{get_u16, get_u32, get_u64, u16_at, u32_at, u64_at};
pub use write::{write_u16, write_u32, write_u64};
