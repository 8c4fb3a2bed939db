//! The writer of images: the pools and the tables of one assembly as bytes.
#![tactic(auto)]

pub mod counts;
pub mod entries;
pub mod gather;
pub mod law;
pub mod make;
pub mod parts;
pub mod pooling;
pub mod writer;

pub use counts::WriteRefusal;
pub use make::pools;
pub use parts::{Column, PartLiteral, PartRow, Parts};
pub use pooling::Pools;
pub use writer::write;
