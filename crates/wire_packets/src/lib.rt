//! Packets between the tool and the board, and how they are spelt in bytes.
#![tactic(auto)]

pub mod command;
pub mod decoding;
pub mod encoding;
pub mod header;
pub mod laws;
pub mod packet;
pub mod payload;

pub use decoding::{Decoded, decode};
pub use encoding::encode;
pub use packet::Packet;
