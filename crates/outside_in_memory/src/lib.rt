//! The outside in memory, for tests: store, sink, link and hub, with calls that fail where it is asked.
#![tactic(auto)]

pub mod calls;
pub mod memory_hub;
pub mod memory_link;
pub mod memory_sink;
pub mod memory_store;
pub mod queue;
pub mod send_log;

pub use memory_hub::MemoryHub;
pub use memory_link::MemoryLink;
pub use memory_sink::MemorySink;
pub use memory_store::MemoryStore;
