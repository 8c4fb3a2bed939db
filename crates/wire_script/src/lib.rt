//! The network between tool and board that a script describes.
#![tactic(auto)]

pub mod delivery;
pub mod net;
pub mod wire;

pub use delivery::Delivery;
pub use net::{Net, NetRefusal};
pub use wire::Wire;
