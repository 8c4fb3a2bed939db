//! What files are found to be.

use plain_types::fault::Fault;

/// What files are found to be.
#[derive(Clone, Copy, Debug, PartialEq, Eq)]
pub enum Verdict {
    /// They break none of the rules 20 to 54.
    Accepted,
    /// The first rule that they break, and where.
    Refused(Fault),
}
