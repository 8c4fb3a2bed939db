//! Refusals and where they are told.

use std::alloc::{AllocError, AllocFailed};

/// A place in a file that a refusal names.
#[derive(Clone, Copy, Debug, PartialEq, Eq)]
pub struct Place {
    /// The file's number, counted from 0; crates that know no number give 0.
    pub file: u16,
    /// The metadata table, or [`WHOLE_FILE`] with row 0 for the file itself.
    pub table: u8,
    /// The row, counted from 1.
    pub row: u32,
    /// The offset in bytes that the rule names.
    pub offset: u32,
}

/// The table number that stands for the file itself.
pub const WHOLE_FILE: u8 = 255;

/// A numbered rule of refusal that a file breaks, with the place where it breaks it.
#[derive(Clone, Copy, Debug, PartialEq, Eq)]
pub struct Fault {
    pub rule: u8,
    pub place: Place,
}

/// A limit of the image format that an assembly set passes.
#[derive(Clone, Copy, Debug, PartialEq, Eq)]
pub struct Limit {
    /// The limit's number, 0 to 18.
    pub number: u8,
    /// What was counted.
    pub count: u64,
    /// The assembly's number in the set; limits 17 and 18 are those of the set and have 0.
    pub assembly: u16,
}

/// The host has no memory left.
#[derive(Clone, Copy, Debug, PartialEq, Eq)]
pub struct NoMemory;

impl From<AllocError> for NoMemory {
    fn from(_error: AllocError) -> NoMemory {
        NoMemory
    }
}

impl<T: Drop> From<AllocFailed<T>> for NoMemory {
    fn from(_error: AllocFailed<T>) -> NoMemory {
        NoMemory
    }
}

/// A call of the outside failed.
#[derive(Clone, Copy, Debug, PartialEq, Eq)]
pub struct Failed;
