//! Why there is no world, and why a token names nothing.

use plain_types::fault::Fault;

/// Why a list of files is no world.
#[derive(Clone, Copy, Debug, PartialEq, Eq)]
pub enum WorldRefusal {
    /// The first file that breaks one of the rules 1 to 13, and the first that it breaks.
    File(Fault),
    NoMemory,
}

/// The token names nothing, or something of another kind.
#[derive(Clone, Copy, Debug, PartialEq, Eq)]
pub struct Unresolved;
