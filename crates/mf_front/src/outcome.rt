//! What a call comes to.

use plain_types::fault::{Fault, Limit};
use plain_types::list::{Items, Text};

/// How a run ended.
#[derive(Clone, Copy, Debug, PartialEq, Eq)]
pub enum End {
    /// Main returned a number.
    Returned(i32),
    /// The steps allowed were done, and the run hadn't ended.
    StepsSpent,
}

/// What a call comes to, with all that its text tells.
#[derive(Debug, Drop)]
pub enum Outcome {
    /// The words are no job.
    Usage,
    /// A file breaks a rule.
    Refused {
        fault: Fault,
        file: Text,
    },
    /// A file couldn't be read.
    ReadFault {
        file: Text,
    },
    /// The host has no memory left.
    NoMemory,
    /// So many files, behind the base library, with so many rows of types and of methods, break none of the rules 1 to 54.
    Accepted {
        files: u16,
        types: u64,
        methods: u64,
    },
    /// What is kept of accepted files passes a limit of the image format: in the assembly of this name, or in the set.
    OverLimit {
        limit: Limit,
        assembly: Text,
    },
    /// The files were converted into a set of so many bytes, the images of so many assemblies, those of the base library
    /// among them; and the set was put into the store.
    Converted {
        bytes: u64,
        assemblies: u16,
    },
    /// The store failed when the set was put into it. Nothing is printed.
    WriteFault,
    /// A run ended, with this status and this finished text.
    Ran {
        status: u8,
        text: Items<u8>,
    },
}
