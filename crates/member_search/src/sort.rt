//! Fields or methods.

/// Which members are meant.
#[derive(Clone, Copy, Debug, PartialEq, Eq)]
pub enum Sort {
    Field,
    Method,
}
